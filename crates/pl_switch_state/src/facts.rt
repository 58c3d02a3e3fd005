use crate::SwitchState;
use pl_frame::SwitchId;
use pl_layouts::Place;
use pl_node::{AvoidList, PortRecord, SwitchFacts, TreePart};

impl SwitchFacts for SwitchState {
    ghost view = { λ state. state };

    fn id(&self) -> SwitchId {
        self.ports.id()
    }

    fn k(&self) -> u8 {
        self.ports.k()
    }

    fn place(&self) -> Place {
        self.ports.place()
    }

    fn port(&self, port: u8) -> PortRecord {
        self.ports.record(port)
    }

    fn avoids(&self, neighbour: SwitchId, pod: u16, position: u8) -> bool {
        self.avoid.contains(&(neighbour, pod, position))
    }

    fn avoid_list(&self) -> &AvoidList {
        &self.avoid
    }

    fn announces(&self, port: u8, frame: &[u8]) -> bool {
        self.ports.announces(port, frame)
    }

    fn attempt(&self) -> Option<(u32, u8)> {
        self.proposer.attempt(self.ports.place().level)
    }

    fn granted(&self, port: u8) -> bool {
        self.proposer.granted(port)
    }

    fn hold(&self, position: u8) -> Option<(SwitchId, bool)> {
        self.holder.hold(position)
    }

    fn part(&self, group: u32) -> Option<&TreePart> {
        self.parts.get(&group)
    }

    fn group(&self, n: usize) -> Option<u32> {
        self.parts.keys().nth(n).copied()
    }

    fn epoch(&self) -> u32 {
        self.epoch
    }
}
