ghost use Rattle.std.specs.Prelude.{◌≡◌, ℕ, ◌<◌, ◌≤◌, ◌&&◌, not, []};
ghost use Rattle.pl_node.specs.SwitchViews.{SwitchView};
ghost use Rattle.pl_lists.specs.Ports.{has_port, ports_of};
ghost use Rattle.pl_switch_rule.specs.Forwarding.{candidates};
ghost use Rattle.pl_tables.specs.Tables.{AreTables};
ghost use Rattle.pl_tables.specs.Ways.{LeavesBy};

use crate::PortRows;
use crate::asked::{Asked, asked_for};
use crate::filling::address_key;
use pl_layouts::Place;
use pl_lists::PortSet;
use pl_pmac::Pmac;
use pl_switch_rule::Came;
use std::alloc::Global;

/// The prefix tables of a switch: its usable ports up, and of these, for the key `pod * 256 + position`,
/// those whose neighbour is to be avoided for that address; and its usable ports down, by the position of
/// the neighbour, or at a core switch by the neighbour's pod.
#[derive(Debug, Drop)]
pub struct PrefixTables {
    pub up: PortSet,
    pub avoided: PortRows,
    pub down: PortRows,
}

impl PrefixTables {
    /// The tables of a switch without a level.
    pub fn empty(alloc: Global) -> PrefixTables
        ensures up { ports_of result.up ≡ [] }
        ensures avoided { result.avoided ≡ [] }
        ensures down { result.down ≡ [] }
    {
        PrefixTables {
            up: PortSet::empty(),
            avoided: PortRows::new(alloc),
            down: PortRows::new(alloc),
        }
    }

    /// The ports by which a unicast frame for this pod and position may leave a switch at this place that
    /// has these tables. It costs one look-up.
    pub fn ports(&self, place: Place, to: Pmac, came: Came) -> PortSet
        ensures { (v : SwitchView) → v.place ≡ place → v.k ≤ 24 → AreTables v self.now → ports_of result ≡ candidates v to came }
    {
        self.answer(asked_for(place, to, came), to)
    }

    // What the tables say to a question.
    fn answer(&self, question: Asked, to: Pmac) -> PortSet
        ensures { LeavesBy self.now question to result }
    {
        match question {
            Asked::Up => without(
                self.up,
                self.avoided.ports(address_key(to.pod, to.position)),
            ),
            Asked::Down(key) => self.down.ports(key),
            Asked::Nothing => PortSet::empty(),
        }
    }
}

// The ports of one set that are not in another.
fn without(ports: PortSet, others: PortSet) -> PortSet
    ensures { (port : ℕ) → port < 32 → has_port result port ≡ (has_port ports port && not (has_port others port)) }
{
    PortSet(bits_without(ports.0, others.0))
}

fn bits_without(bits: u32, others: u32) -> u32
    ensures { (port : ℕ) → port < 32 → has_port (record { 0 = result }) port ≡ (has_port (record { 0 = bits }) port && not (has_port (record { 0 = others }) port)) }
{
    bits & !others
}
