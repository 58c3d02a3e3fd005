ghost use Rattle.pl_tables.specs.Tables.{AreTables};

use crate::PrefixTables;
use crate::lead::Lead;
use pl_forward::{GroupFacts, UnicastFacts};
use pl_frame::SwitchId;
use pl_layouts::Place;
use pl_lists::PortSet;
use pl_node::{AvoidList, PortRecord, SwitchFacts, TreePart};
use pl_pmac::Pmac;
use pl_switch_rule::Came;
use pl_switch_state::SwitchState;
use std::marker::Model;

/// A switch that does all by the rule, and keeps prefix tables by which it forwards. Contracts see all
/// that it knows; what it keeps besides follows from that.
#[derive(Drop)]
pub struct TableSwitch {
    pub(crate) state: SwitchState,
    pub(crate) leads: [Lead; 24],
    pub(crate) tables: PrefixTables,
}

impl Model for TableSwitch {
    ghost use Rattle.pl_node.specs.SwitchViews.{SwitchView};
    ghost use Rattle.pl_tables.specs.Leads.{TablesFollow};

    ghost Value = { SwitchView };

    ghost view = { λ switch. switch.state };

    ghost invariant = { λ switch. TablesFollow switch.state switch.leads switch.tables };
}

impl TableSwitch {
    /// The tables of what it knows now. They are kept, and nothing is made.
    pub fn tables(&self) -> &PrefixTables
        ensures { AreTables self.now result.now }
    {
        &self.tables
    }
}

impl SwitchFacts for TableSwitch {
    ghost view = { λ switch. switch };

    fn id(&self) -> SwitchId {
        self.state.id()
    }

    fn k(&self) -> u8 {
        self.state.k()
    }

    fn place(&self) -> Place {
        self.state.place()
    }

    fn port(&self, port: u8) -> PortRecord {
        self.state.port(port)
    }

    fn avoids(&self, neighbour: SwitchId, pod: u16, position: u8) -> bool {
        self.state.avoids(neighbour, pod, position)
    }

    fn avoid_list(&self) -> &AvoidList {
        self.state.avoid_list()
    }

    fn announces(&self, port: u8, frame: &[u8]) -> bool {
        self.state.announces(port, frame)
    }

    fn attempt(&self) -> Option<(u32, u8)> {
        self.state.attempt()
    }

    fn granted(&self, port: u8) -> bool {
        self.state.granted(port)
    }

    fn hold(&self, position: u8) -> Option<(SwitchId, bool)> {
        self.state.hold(position)
    }

    fn part(&self, group: u32) -> Option<&TreePart> {
        self.state.part(group)
    }

    fn group(&self, n: usize) -> Option<u32> {
        self.state.group(n)
    }

    fn epoch(&self) -> u32 {
        self.state.epoch()
    }
}

impl GroupFacts for TableSwitch {
    fn member_ports(&self, group: u32) -> PortSet {
        self.state.member_ports(group)
    }
}

impl UnicastFacts for TableSwitch {
    fn candidates(&self, to: Pmac, came: Came) -> PortSet {
        self.tables.ports(self.state.place(), to, came)
    }
}
