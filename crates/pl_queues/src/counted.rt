ghost use Rattle.std.specs.Prelude.{◌≡◌};

/// What counts among the items of a queue array.
pub trait Counted {
    ghost use Rattle.std.specs.Prelude.{Bool};

    ghost counts: { Self → Bool };

    fn counts(&self) -> bool
        ensures { result ≡ counts self.now };
}
