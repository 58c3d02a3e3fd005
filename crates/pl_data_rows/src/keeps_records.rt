ghost use Rattle.std.specs.Prelude.{◌≡◌, ◌<◌, ◌≤◌, not, true, length, IfOk, OnOk};
ghost use Rattle.pl_frame.specs.Ethernet.{source_of};
ghost use Rattle.pl_node.specs.Accounting.{IsComing};
ghost use Rattle.pl_edge.specs.Begun.{left_to_do};
ghost use Rattle.pl_edge.specs.EdgeViews.{edge_in, MayBeAt};
ghost use Rattle.pl_layouts.specs.Placement.{is_known};
ghost use Rattle.pl_ports.specs.Changes.{takes_host};
ghost use Rattle.pl_steps.specs.Taken.{IsTaken, IsTakenUpTo};
ghost use Rattle.pl_switch_rule.specs.Forwarding.{Choice};
ghost use Rattle.pl_switch_rule.specs.Granting.{granted, has_no_address, held_here, is_granted, learns_source};
ghost use Rattle.pl_switch_rule.specs.Intake.{takes_in};
ghost use Rattle.pl_switch_rule.specs.Levels.{finds_host};
ghost use Rattle.pl_switch_rule.specs.Messages.{frees, hears_pod, invalidates, with_part};
ghost use Rattle.pl_switch_rule.specs.Reporting.{hears_hello};
ghost use Rattle.pl_switch_rule.specs.SwitchRule.{control_comes};

use pl_edge::{EdgeAct, EdgeTable};
use pl_forward::{GroupFacts, UnicastFacts};
use pl_frame::Frame;
use pl_node::{AvoidList, Memory, Outbox, Trap, TreePart};
use pl_pmac::Pmac;
use std::alloc::Global;

/// A switch that keeps all that its rule speaks of, whatever it keeps besides: what the rows for data
/// frames and messages ask of it.
pub trait KeepsRecords: GroupFacts + UnicastFacts {
    /// Where what is made, copied or kept gets its memory.
    fn alloc(&self) -> Global;

    /// What it keeps of the hosts at its ports, as an edge switch.
    fn edge(&self) -> &EdgeTable
        ensures part { edge_in result.now (Self.view self.now) ≡ Self.view self.now }
        ensures may { is_known (Self.view self.now).place.level 0 ≡ true → MayBeAt result.now.address_table (Self.view self.now).place };

    /// Whether an address was granted here, be it free by now or not.
    fn is_granted(&self, address: Pmac) -> bool
        ensures { result ≡ is_granted (Self.view self.now) address };

    /// A frame of a host comes at a port: a host is there, and this is an edge switch. Where that is known
    /// nothing is done.
    fn find_host(&mut self, port: u8, out: &mut Outbox) -> Result<(), Memory>
        requires port { port < (Self.view self.old).k }
        requires host { takes_host (Self.view self.old) port ≡ true }
        ensures taken { OnOk result (IsTaken (finds_host (Self.view self.old) port) (Self.view self.new) out.old out.new) }
        ensures id { (Self.view self.new).id ≡ (Self.view self.old).id }
        ensures k { (Self.view self.new).k ≡ (Self.view self.old).k }
        ensures edge { OnOk result (is_known (Self.view self.new).place.level 0 ≡ true) };

    /// The source of a frame that a host sent is learnt. False exactly where it has no address and can get
    /// none, so that the frame ends.
    fn learn(&mut self, port: u8, frame: &Frame, out: &mut Outbox) -> Result<bool, Memory>
        requires port { port < (Self.view self.old).k }
        requires long { 14 ≤ length frame.now }
        requires edge { is_known (Self.view self.old).place.level 0 ≡ true }
        ensures taken { OnOk result (IsTaken (learns_source (Self.view self.old) port frame.now) (Self.view self.new) out.old out.new) }
        ensures known { IfOk result (λ known. not known ≡ has_no_address (Self.view self.new) port (source_of frame.now)) }
        ensures id { (Self.view self.new).id ≡ (Self.view self.old).id }
        ensures k { (Self.view self.new).k ≡ (Self.view self.old).k }
        ensures place { (Self.view self.new).place ≡ (Self.view self.old).place };

    /// A frame of a host whose source was learnt comes to an edge switch: it is taken or dropped, or it is
    /// rewritten to go on. The answer says what is left to do with it.
    fn ingress(&mut self, port: u8, frame: &mut Frame, out: &mut Outbox) -> Result<EdgeAct, Memory>
        requires edge { is_known (Self.view self.old).place.level 0 ≡ true }
        requires port { port < (Self.view self.old).k }
        requires long { 14 ≤ length frame.old }
        requires short { length frame.old ≤ 65553 }
        ensures begun { IfOk result (λ act. (choose : Choice) → IsTakenUpTo (left_to_do choose act frame.new (Self.view self.new)) (takes_in choose port frame.old (Self.view self.old)) out.old out.new) }
        ensures same { length frame.new ≡ length frame.old }
        ensures place { (Self.view self.new).place ≡ (Self.view self.old).place }
        ensures id { (Self.view self.new).id ≡ (Self.view self.old).id }
        ensures k { (Self.view self.new).k ≡ (Self.view self.old).k };

    /// A host has a newer address than one that was granted here. Where that is free, nothing changes.
    fn invalidate(&mut self, old: Pmac, to: Trap, out: &mut Outbox) -> Result<(), Memory>
        requires { is_granted (Self.view self.old) old ≡ true }
        ensures taken { OnOk result (IsTaken (invalidates (Self.view self.old) old to (held_here (Self.view self.old) old)) (Self.view self.new) out.old out.new) }
        ensures id { (Self.view self.new).id ≡ (Self.view self.old).id }
        ensures k { (Self.view self.new).k ≡ (Self.view self.old).k };

    /// The fabric manager releases an address: where it rests here, it is free from now on.
    fn release(&mut self, pmac: Pmac, out: &mut Outbox) -> Result<(), Memory>
        ensures taken { OnOk result (IsTaken (frees (Self.view self.old) pmac (granted (Self.view self.old) pmac)) (Self.view self.new) out.old out.new) }
        ensures id { (Self.view self.new).id ≡ (Self.view self.old).id }
        ensures k { (Self.view self.new).k ≡ (Self.view self.old).k };

    /// The fabric manager says the number of the pod. A number that this switch did not wait for changes
    /// nothing.
    fn hear_pod(&mut self, pod: u16, out: &mut Outbox) -> Result<(), Memory>
        ensures taken { OnOk result (IsTaken (hears_pod (Self.view self.old) pod) (Self.view self.new) out.old out.new) }
        ensures id { (Self.view self.new).id ≡ (Self.view self.old).id }
        ensures k { (Self.view self.new).k ≡ (Self.view self.old).k };

    /// The avoid list is replaced.
    fn hear_avoid_list(&mut self, list: &AvoidList) -> Result<(), Memory>
        ensures avoid { OnOk result (Self.view self.new ≡ record (Self.view self.old) { avoid = list.now }) }
        ensures id { (Self.view self.new).id ≡ (Self.view self.old).id }
        ensures k { (Self.view self.new).k ≡ (Self.view self.old).k };

    /// The part of a group's tree is replaced, or there is none any more.
    fn hear_tree_part(&mut self, group: u32, part: &Option<TreePart>) -> Result<(), Memory>
        ensures parts { OnOk result (Self.view self.new ≡ record (Self.view self.old) { parts = with_part group part.now (Self.view self.old).parts }) }
        ensures id { (Self.view self.new).id ≡ (Self.view self.old).id }
        ensures k { (Self.view self.new).k ≡ (Self.view self.old).k };

    /// A fabric manager begins anew, for the time of this number: the switch forgets its avoid list and all its
    /// parts of trees, and tells its report.
    fn hear_hello(&mut self, epoch: u32, out: &mut Outbox) -> Result<(), Memory>
        ensures taken { OnOk result (IsTaken (hears_hello (Self.view self.old) epoch) (Self.view self.new) out.old out.new) }
        ensures id { (Self.view self.new).id ≡ (Self.view self.old).id }
        ensures k { (Self.view self.new).k ≡ (Self.view self.old).k };

    /// A control frame comes at a port. One that cannot be read, or that a host sent, is ignored.
    fn control_comes(&mut self, port: u8, frame: &[u8], out: &mut Outbox) -> Result<(), Memory>
        requires { IsComing (Self.view self.old).k port frame.now }
        ensures taken { OnOk result (IsTaken (control_comes (Self.view self.old) port frame.now) (Self.view self.new) out.old out.new) }
        ensures id { (Self.view self.new).id ≡ (Self.view self.old).id }
        ensures k { (Self.view self.new).k ≡ (Self.view self.old).k };
}
