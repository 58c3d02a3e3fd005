ghost use Rattle.std.specs.Prelude.{◌≡◌, ◌↔◌, IsTrue};
ghost use Rattle.pl_node.specs.Hidden.{hidden_at, hides, is_or_none};

/// What a list leaves out of what its rows have: the entries for a pod, and for one position of it where one
/// is told.
#[derive(Clone, Copy, Debug, PartialEq, Eq)]
pub struct Hidden {
    pub pod: u16,
    pub position: Option<u8>,
}

impl Hidden {
    /// Whether entries for a pod and a position are left out.
    pub(crate) fn hides(&self, pod: u16, position: u8) -> bool
        ensures { result ≡ hides self.now pod position }
    {
        self.pod == pod && is_or_none(self.position, position)
    }
}

/// The same where something may be left out.
pub(crate) fn hidden_at(hidden: Option<Hidden>, pod: u16, position: u8) -> bool
    ensures { result ≡ hidden_at hidden pod position }
{
    match hidden {
        Some(hidden) => hidden.hides(pod, position),
        None => false,
    }
}

fn is_or_none(known: Option<u8>, position: u8) -> bool
    ensures { result ≡ is_or_none known position }
{
    match known {
        Some(known) => known == position,
        None => true,
    }
}

/// Whether the same is left out.
pub(crate) fn are_alike(a: Option<Hidden>, b: Option<Hidden>) -> bool
    ensures { IsTrue result ↔ (a ≡ b) }
{
    a == b
}
