ghost use Rattle.std.specs.Prelude.{◌≡◌, ◌<◌, [], not, OnOk};
ghost use Rattle.std.specs.List.{filter};
ghost use Rattle.pl_members.specs.Reached.{AreMembersAtPorts, IsMac};
ghost use Rattle.pl_bridge_rule.specs.BridgeRule.{is_entry_of, learns, port_among, stands_at, table_entry};

use pl_frame::Mac;
use pl_members::RankedMember;
use pl_node::{Member, Memory};
use std::alloc::Global;
use std::collections::BTreeSet;
use std::marker::Model;

/// At which ports a bridge has learnt which addresses. Contracts see the entries as memberships of group 0,
/// rising.
#[derive(Debug, Drop)]
pub struct BridgeTable {
    learnt: BTreeSet<RankedMember>,
}

impl Model for BridgeTable {
    ghost use Rattle.std.specs.Prelude.{List};
    ghost use Rattle.pl_node.specs.declared.switch_records.Member.{Member};
    ghost use Rattle.pl_members.specs.Reached.{AreMembersAtPorts};

    ghost Value = { List Member };

    ghost view = { λ table. table.learnt.keys };

    ghost invariant = { λ table. AreMembersAtPorts table.learnt.keys };
}

impl BridgeTable {
    pub fn new(alloc: Global) -> BridgeTable
        ensures { result ≡ [] }
    {
        BridgeTable {
            learnt: BTreeSet::new(alloc),
        }
    }

    /// An address is at this port from now on, and at no other.
    pub fn learn(&mut self, port: u8, mac: Mac) -> Result<(), Memory>
        requires { port < 24 }
        ensures { OnOk result (self.new ≡ learns port mac self.old) }
    {
        forget(&mut self.learnt, mac);
        self.learnt.insert(entry(port, mac))?;
        Ok(())
    }

    /// The lowest of k ports at which an address is.
    pub fn port_among(&self, k: u8, mac: Mac) -> Option<u8>
        ensures { result ≡ port_among k self.now mac }
    {
        for port in 0..k {
            if self.is_at(port, mac) {
                return Some(port);
            }
        }
        None
    }

    fn is_at(&self, port: u8, mac: Mac) -> bool
        ensures { result ≡ stands_at self.now mac port }
    {
        self.learnt.contains(&entry(port, mac))
    }
}

// An address is at no port.
fn forget(learnt: &mut BTreeSet<RankedMember>, mac: Mac)
    requires { AreMembersAtPorts learnt.old.keys }
    ensures keys { learnt.new.keys ≡ filter (λ m. not (is_entry_of mac m)) learnt.old.keys }
    ensures at_ports { AreMembersAtPorts learnt.new.keys }
{
    for port in 0..24 {
        learnt.remove(&entry(port, mac));
    }
}

fn entry(port: u8, mac: Mac) -> RankedMember
    ensures entry { result ≡ table_entry port mac }
    ensures mac { IsMac mac }
{
    RankedMember::new(Member {
        group: 0,
        port,
        amac: mac,
    })
}
