ghost use Rattle.std.specs.Prelude.{◌≡◌, [], OnErr, OnOk};
ghost use Rattle.std.specs.BTreeMap.{insert_entry};
ghost use Rattle.pl_node.specs.HostViews.{ip_cmp};
ghost use Rattle.pl_node.specs.ManagerViews.{value_at};

use indexmap::IndexMap;
use pl_frame::{Ip4, Mac};
use pl_node::Memory;
use std::alloc::Global;
use std::marker::Model;

/// The host with whose pseudo address each IPv4 address was told last. Contracts see them by rising IPv4
/// address.
#[derive(Debug, Drop)]
pub(crate) struct Owners {
    told: IndexMap<Ip4, Mac>,
}

impl Model for Owners {
    ghost use Rattle.std.specs.Prelude.{List};
    ghost use Rattle.pl_frame.specs.declared.address.Ip4.{Ip4};
    ghost use Rattle.pl_frame.specs.declared.address.Mac.{Mac};
    ghost use Rattle.pl_registry.specs.Owners.{by_address};

    ghost Value = { List (Ip4 × Mac) };

    ghost view = { λ owners. by_address owners.told.entries };
}

impl Owners {
    pub(crate) fn new(alloc: Global) -> Owners
        ensures { result ≡ [] }
    {
        Owners {
            told: IndexMap::new(alloc),
        }
    }

    pub(crate) fn get(&self, ip: Ip4) -> Option<Mac>
        ensures { result ≡ value_at ip_cmp self.now ip }
    {
        self.told.get(&ip).copied()
    }

    /// An IPv4 address is told with a pseudo address of a host.
    pub(crate) fn set(&mut self, ip: Ip4, amac: Mac) -> Result<(), Memory>
        ensures ok { OnOk result (self.new ≡ insert_entry ip_cmp self.old ip amac) }
        ensures err { OnErr result (self.new ≡ self.old) }
    {
        self.told.insert(ip, amac)?;
        Ok(())
    }
}
