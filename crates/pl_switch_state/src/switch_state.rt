ghost use Rattle.std.specs.Prelude.{◌≡◌, true, is_some, IfOk};
ghost use Rattle.pl_node.specs.SwitchFacts.{CanBoot, switch_at_boot};
ghost use Rattle.pl_layouts.specs.Placement.{is_known, nowhere};
ghost use Rattle.pl_ports.specs.PortsViews.{put_ports};
ghost use Rattle.pl_edge.specs.EdgeViews.{edge_in, MayBeAt};
ghost use Rattle.pl_switch_state.specs.StateViews.{is_placed_edge};

use pl_edge::EdgeTable;
use pl_frame::SwitchId;
use pl_node::{AvoidList, Memory, TreePart};
use pl_ports::Ports;
use pl_position::{Holder, Proposer};
use std::alloc::Global;
use std::collections::BTreeMap;
use std::marker::Model;

/// What a switch keeps. Contracts see all that the switch knows.
#[derive(Drop)]
pub struct SwitchState {
    pub(crate) alloc: Global,
    pub(crate) ports: Ports,
    pub(crate) proposer: Proposer,
    pub(crate) holder: Holder,
    pub(crate) edge: EdgeTable,
    pub(crate) avoid: AvoidList,
    pub(crate) parts: BTreeMap<u32, TreePart>,
    pub(crate) epoch: u32,
}

impl Model for SwitchState {
    ghost use Rattle.pl_node.specs.SwitchViews.{SwitchView};
    ghost use Rattle.pl_switch_state.specs.StateViews.{state_view, AreOfOne};

    ghost Value = { SwitchView };

    ghost view = { λ s. state_view s.ports s.proposer s.holder s.edge s.avoid s.parts.entries s.epoch };

    ghost invariant = { λ s. AreOfOne s.ports s.proposer s.holder s.edge };
}

impl SwitchState {
    /// A switch that knows its id, 1 to 2^48 - 1, and k, an even number from 4 to 24.
    pub fn boot(alloc: Global, id: SwitchId, k: u8) -> Result<SwitchState, Memory>
        requires { CanBoot id k }
        ensures { IfOk result (λ state. state ≡ switch_at_boot id k) }
    {
        let edge = EdgeTable::new(alloc, k)?;
        Ok(SwitchState {
            alloc,
            ports: Ports::new(id, k),
            proposer: Proposer::new(k),
            holder: Holder::new(k),
            edge,
            avoid: AvoidList::new(alloc),
            parts: BTreeMap::new(alloc),
            epoch: 0,
        })
    }

    /// Where what is made, copied or kept gets its memory.
    pub fn alloc(&self) -> Global {
        self.alloc
    }

    /// The switch knows nothing any more of its place, of its ports and of the addresses that it granted: to
    /// what it may be put after want of memory, when it is not used again.
    pub fn forget_place(&mut self)
        ensures place { self.new.place ≡ nowhere }
        ensures id { self.new.id ≡ self.old.id }
        ensures k { self.new.k ≡ self.old.k }
    {
        self.edge.unplaced();
        self.ports = Ports::new(self.ports.id(), self.ports.k());
        self.proposer = Proposer::new(self.ports.k());
    }

    /// What the switch knows of itself and of its ports.
    pub fn ports(&self) -> &Ports
        ensures { put_ports result.now self.now ≡ self.now }
    {
        &self.ports
    }

    /// What it keeps of the hosts at its ports, as an edge switch.
    pub fn edge(&self) -> &EdgeTable
        ensures part { edge_in result.now self.now ≡ self.now }
        ensures k { result.now.k ≡ self.now.k }
        ensures booked { is_some result.now.address_table ≡ is_placed_edge self.now.place }
        ensures may { is_known self.now.place.level 0 ≡ true → MayBeAt result.now.address_table self.now.place }
    {
        &self.edge
    }
}
