use crate::ReferenceSwitch;
use pl_data_rows::KeepsRecords;
use pl_edge::{EdgeAct, EdgeTable};
use pl_frame::Frame;
use pl_node::{AvoidList, Memory, Outbox, Trap, TreePart};
use pl_pmac::Pmac;
use std::alloc::Global;

impl KeepsRecords for ReferenceSwitch {
    fn alloc(&self) -> Global {
        self.state.alloc()
    }

    fn edge(&self) -> &EdgeTable {
        self.state.edge()
    }

    fn is_granted(&self, address: Pmac) -> bool {
        self.state.is_granted(address)
    }

    fn find_host(&mut self, port: u8, out: &mut Outbox) -> Result<(), Memory> {
        self.state.find_host(port, out)
    }

    fn learn(&mut self, port: u8, frame: &Frame, out: &mut Outbox) -> Result<bool, Memory> {
        self.state.learn(port, frame, out)
    }

    fn ingress(
        &mut self,
        port: u8,
        frame: &mut Frame,
        out: &mut Outbox,
    ) -> Result<EdgeAct, Memory> {
        self.state.ingress(port, frame, out)
    }

    fn invalidate(&mut self, old: Pmac, to: Trap, out: &mut Outbox) -> Result<(), Memory> {
        self.state.invalidate(old, to, out)
    }

    fn release(&mut self, pmac: Pmac, out: &mut Outbox) -> Result<(), Memory> {
        self.state.release(pmac, out)
    }

    fn hear_pod(&mut self, pod: u16, out: &mut Outbox) -> Result<(), Memory> {
        self.state.hear_pod(pod, out)
    }

    fn hear_avoid_list(&mut self, list: &AvoidList) -> Result<(), Memory> {
        self.state.hear_avoid_list(list)
    }

    fn hear_tree_part(&mut self, group: u32, part: &Option<TreePart>) -> Result<(), Memory> {
        self.state.hear_tree_part(group, part)
    }

    fn hear_hello(&mut self, epoch: u32, out: &mut Outbox) -> Result<(), Memory> {
        self.state.hear_hello(epoch, out)
    }

    fn control_comes(&mut self, port: u8, frame: &[u8], out: &mut Outbox) -> Result<(), Memory> {
        self.state.control_comes(port, frame, out)
    }
}
