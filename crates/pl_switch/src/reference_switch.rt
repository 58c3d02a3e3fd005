use pl_forward::{GroupFacts, UnicastFacts};
use pl_frame::SwitchId;
use pl_layouts::Place;
use pl_lists::PortSet;
use pl_node::{AvoidList, PortRecord, SwitchFacts, TreePart};
use pl_pmac::Pmac;
use pl_switch_rule::Came;
use pl_switch_state::SwitchState;

/// A switch that does all by the rule, and nothing besides.
#[derive(Drop)]
pub struct ReferenceSwitch {
    pub(crate) state: SwitchState,
}

impl SwitchFacts for ReferenceSwitch {
    ghost view = { λ switch. switch.state };

    fn id(&self) -> SwitchId {
        self.state.id()
    }

    fn k(&self) -> u8 {
        self.state.k()
    }

    fn place(&self) -> Place {
        self.state.place()
    }

    fn port(&self, port: u8) -> PortRecord {
        self.state.port(port)
    }

    fn avoids(&self, neighbour: SwitchId, pod: u16, position: u8) -> bool {
        self.state.avoids(neighbour, pod, position)
    }

    fn avoid_list(&self) -> &AvoidList {
        self.state.avoid_list()
    }

    fn announces(&self, port: u8, frame: &[u8]) -> bool {
        self.state.announces(port, frame)
    }

    fn attempt(&self) -> Option<(u32, u8)> {
        self.state.attempt()
    }

    fn granted(&self, port: u8) -> bool {
        self.state.granted(port)
    }

    fn hold(&self, position: u8) -> Option<(SwitchId, bool)> {
        self.state.hold(position)
    }

    fn part(&self, group: u32) -> Option<&TreePart> {
        self.state.part(group)
    }

    fn group(&self, n: usize) -> Option<u32> {
        self.state.group(n)
    }

    fn epoch(&self) -> u32 {
        self.state.epoch()
    }
}

impl GroupFacts for ReferenceSwitch {
    fn member_ports(&self, group: u32) -> PortSet {
        self.state.member_ports(group)
    }
}

impl UnicastFacts for ReferenceSwitch {
    fn candidates(&self, to: Pmac, came: Came) -> PortSet {
        pl_forward::candidates(&self.state, to, came)
    }
}
