ghost use Rattle.std.specs.Prelude.{◌≡◌, ◌==◌, ◌&&◌};
ghost use Rattle.std.specs.List.{list_any};
ghost use Rattle.pl_node.specs.PortRecords.{ports_where};
ghost use Rattle.pl_lists.specs.Ports.{ports_of};

use pl_lists::PortSet;
use pl_node::SwitchFacts;

/// A switch that can be asked, besides, where the members of a group are.
pub trait GroupFacts: SwitchFacts {
    /// The ports at which a host has joined the group.
    fn member_ports(&self, group: u32) -> PortSet
        ensures { ports_of result ≡ ports_where (Self.view self.now) (λ port. list_any (λ m. (m.group == group) && (m.port == port)) (Self.view self.now).members) };
}
