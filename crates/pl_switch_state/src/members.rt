ghost use Rattle.std.specs.Prelude.{◌≡◌, ◌<◌, ◌≤◌, ◌==◌, ◌&&◌, if◌then◌else◌};
ghost use Rattle.std.specs.BTreeSet.{insert_key};
ghost use Rattle.std.specs.List.{filter, list_any};
ghost use Rattle.std.specs.Ordering.{nat_cmp};
ghost use Rattle.pl_node.specs.PortRecords.{ports_of_switch, ports_where};
ghost use Rattle.pl_lists.specs.Ports.{ports_of};

use crate::SwitchState;
use pl_node::PortSet;

impl SwitchState {
    /// The ports at which a host has joined a group.
    pub fn member_ports(&self, group: u32) -> PortSet
        ensures { ports_of result ≡ ports_where self.now (λ port. list_any (λ m. (m.group == group) && (m.port == port)) self.now.members) }
    {
        ports_within(self.edge.member_ports(group), self.ports.k())
    }
}

// The ports of a set that a switch of k ports has.
fn ports_within(set: PortSet, k: u8) -> PortSet
    requires { k ≤ 24 }
    ensures { ports_of result ≡ filter (λ port. list_any (λ p. p == port) (ports_of set)) (ports_of_switch k) }
{
    let mut within = PortSet::empty();
    for port in 0..k {
        insert_if(&mut within, port, set.contains(port));
    }
    within
}

fn insert_if(set: &mut PortSet, port: u8, is_in: bool)
    requires { port < 32 }
    ensures { ports_of set.new ≡ (if is_in then insert_key nat_cmp (ports_of set.old) port else ports_of set.old) }
{
    if is_in {
        set.insert(port);
    }
}
