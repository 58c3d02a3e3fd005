ghost use Rattle.std.specs.Prelude.{◌≡◌, ◌-◌, ◌≤◌};
ghost use Rattle.pl_migrate.specs.Tenancies.{grant_of, is_used_so, list_of, use_after};

use pl_frame::{Ip4, Mac};
use pl_node::{AddressUse, Grant, Trap};
use pl_pool::Key;

/// What an address that was granted is used for. Addresses that are used for one thing stand in one list,
/// those that are free in one of their port.
#[derive(Clone, Copy, Debug)]
pub(crate) enum Standing {
    /// Its host has it in use.
    Fresh,
    /// Its host has it in use, and was asked since it used it last.
    Asked,
    Trapped(Trap),
    Resting(u64),
    Free,
}

/// An address that was granted: to which host, that host's IPv4 address, what it is used for, the tick at
/// which it was last used or its trap was set, and its key in its list.
#[derive(Clone, Copy, Debug)]
pub(crate) struct Tenancy {
    pub(crate) amac: Mac,
    pub(crate) ip: Option<Ip4>,
    pub(crate) standing: Standing,
    pub(crate) since: u64,
    pub(crate) key: Key,
}

pub(crate) const FRESH: u32 = 0;

pub(crate) const ASKED: u32 = 1;

pub(crate) const TRAPPED: u32 = 2;

pub(crate) const RESTING: u32 = 3;
/// The list of the free addresses of port 0; those of the other ports follow.
pub(crate) const FREE: u32 = 4;

impl Standing {
    pub(crate) fn is_in_use(self) -> bool
        ensures { result ≡ is_used_so self }
    {
        matches!(self, Standing::Fresh | Standing::Asked)
    }

    /// The list in which an address of a port stands.
    pub(crate) fn list(self, port: u8) -> u32
        ensures { result ≡ list_of port self }
    {
        match self {
            Standing::Fresh => FRESH,
            Standing::Asked => ASKED,
            Standing::Trapped(_) => TRAPPED,
            Standing::Resting(_) => RESTING,
            Standing::Free => FREE + u32::from(port),
        }
    }

    /// What the address is used for, so many ticks after that began.
    fn after(self, ticks: u64) -> AddressUse
        ensures { result ≡ use_after ticks self }
    {
        match self {
            Standing::Fresh | Standing::Asked => AddressUse::InUse(ticks),
            Standing::Trapped(trap) => AddressUse::Trapped(trap, ticks),
            Standing::Resting(number) => AddressUse::Resting(number),
            Standing::Free => AddressUse::Free,
        }
    }
}

impl Tenancy {
    /// What was granted, as it is now.
    pub(crate) fn grant(&self, now: u64) -> Grant
        requires { self.now.since ≤ now }
        ensures { result ≡ grant_of now self.now }
    {
        Grant {
            amac: self.amac,
            ip: self.ip,
            held: self.standing.after(now - self.since),
        }
    }
}
