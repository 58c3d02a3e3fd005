ghost use Rattle.std.specs.Prelude.{◌≡◌};
ghost use Rattle.pl_node.specs.AddressUses.{is_held, is_in_use, standing_trap};

use crate::Trap;

/// What an address that was granted is used for: just one of these four.
#[derive(Clone, Copy, Debug, PartialEq, Eq)]
pub enum AddressUse {
    /// Its host has it in use, and was last heard with it so many ticks ago.
    InUse(u64),
    /// Frames for it go on along a trap, which was set so many ticks ago.
    Trapped(Trap, u64),
    /// It aged: behind a trap of this number, or in use, where it is 0. Frames for it still go to its host.
    Resting(u64),
    /// It is nobody's, and may be granted again.
    Free,
}

impl AddressUse {
    pub fn is_in_use(self) -> bool
        ensures { result ≡ is_in_use self }
    {
        match self {
            AddressUse::InUse(_) => true,
            _ => false,
        }
    }

    /// Whether the address is somebody's: its host's, or led on to a newer one.
    pub fn is_held(self) -> bool
        ensures { result ≡ is_held self }
    {
        match self {
            AddressUse::Free => false,
            _ => true,
        }
    }

    /// The trap that stands for the address, if there is one.
    pub fn trap(self) -> Option<Trap>
        ensures { result ≡ standing_trap self }
    {
        match self {
            AddressUse::Trapped(trap, _) => Some(trap),
            _ => None,
        }
    }
}
