ghost use Rattle.std.specs.Prelude.{◌≡◌, ◌≤◌, length, is_some, IfOk, IfSome, OnOk};
ghost use Rattle.pl_node.specs.SwitchViews.{SwitchView};
ghost use Rattle.pl_delivery.specs.Sending.{HasLength, left_to_do, makes_any};
ghost use Rattle.pl_layouts.specs.declared.place.Place.{Place};
ghost use Rattle.pl_steps.specs.Taken.{IsTaken, IsTakenUpTo};
ghost use Rattle.pl_switch_rule.specs.Delivering.{comes_home, destination, makes, tells_sender, trap_for};
ghost use Rattle.pl_switch_rule.specs.Forwarding.{Choice};
ghost use Rattle.pl_switch_rule.specs.Granting.{granted, held_here};
ghost use Rattle.pl_switch_rule.specs.Messages.{frees, invalidates};
ghost use Rattle.pl_switch_rule.specs.Aging.{ages};
ghost use Rattle.pl_migrate.specs.AddressTables.{traps};
ghost use Rattle.pl_edge.specs.EdgeViews.{edge_in, place_by, MayBeAt};

use crate::EdgeTable;
use pl_delivery::{Sent, age, begin, egress, invalidate, probe, reply};
use pl_frame::Frame;
use pl_node::{Act, Cause, Grant, Memory, Outbox, Trap};
use pl_pmac::Pmac;

impl EdgeTable {
    /// A frame for this pod and position goes out to the host that has its address, or along the traps
    /// that stand for it: here, or upward. A switch that is not placed has granted no address.
    pub fn egress(&self, frame: Frame, out: &mut Outbox) -> Result<Sent, Memory>
        requires { 14 ≤ length frame }
        ensures taken { IfOk result (λ sent. (choose : Choice) (v : SwitchView) → MayBeAt self.now.address_table v.place → IsTakenUpTo (left_to_do choose sent (edge_in self.now v)) (comes_home choose (edge_in self.now v) frame) out.old out.new) }
        ensures length { IfOk result (HasLength (length frame)) }
    {
        match &self.address_table {
            Some(address_table) => egress(address_table, frame, out),
            None => {
                out.push(Act::Drop(Cause::NoAddress))?;
                Ok(Sent::Here)
            }
        }
    }

    /// A frame that is made begins here. It goes home as every frame for an address of this edge switch,
    /// or upward.
    pub fn begin(&self, frame: Frame, out: &mut Outbox) -> Result<Sent, Memory>
        requires { 14 ≤ length frame }
        ensures taken { IfOk result (λ sent. (choose : Choice) (v : SwitchView) → MayBeAt self.now.address_table v.place → IsTakenUpTo (left_to_do choose sent (edge_in self.now v)) (makes choose frame (edge_in self.now v)) out.old out.new) }
        ensures length { IfOk result (HasLength (length frame)) }
    {
        match &self.address_table {
            Some(address_table) => begin(address_table, self.alloc, frame, out),
            None => {
                out.push(Act::Make(Frame::copy(self.alloc, frame.bytes())?))?;
                Ok(Sent::Upward(frame))
            }
        }
    }

    /// The reply that tells the sender of a frame the newer address of the host, where the frame meets a
    /// trap and is no ARP frame: to be made behind what `egress` does with the frame.
    pub fn reply(&self, frame: &[u8]) -> Result<Option<Frame>, Memory>
        requires { 14 ≤ length frame.now }
        ensures tells { IfOk result (λ reply. (choose : Choice) (v : SwitchView) → MayBeAt self.now.address_table v.place → makes_any choose reply (edge_in self.now v) ≡ tells_sender choose frame.now (trap_for (edge_in self.now v) (destination frame.now)) (edge_in self.now v)) }
        ensures length { IfOk result (λ reply. IfSome reply (λ frame. length frame ≡ 42)) }
    {
        match &self.address_table {
            Some(address_table) => reply(address_table, self.alloc, frame),
            None => Ok(None),
        }
    }

    /// A host has a newer address than this one: a trap is set, what the host had joined at the port of
    /// the old one is forgotten, and where the old one was in use it is probed. An address that was never
    /// granted here, or is free, changes nothing.
    pub fn invalidate(&mut self, old: Pmac, to: Trap, out: &mut Outbox) -> Result<(), Memory>
        ensures taken { OnOk result ((v : SwitchView) → MayBeAt self.old.address_table v.place → IsTaken (invalidates (edge_in self.old v) old to (held_here (edge_in self.old v) old)) (edge_in self.new v) out.old out.new) }
        ensures place { (place : Place) → place_by self.new.address_table place ≡ place_by self.old.address_table place }
        ensures k { self.new.k ≡ self.old.k }
    {
        match self.set_trap(old, to)? {
            Some(grant) => {
                self.forget(old.port, grant.amac, out)?;
                probe(self.alloc, old, &grant, out)
            }
            None => Ok(()),
        }
    }

    /// A tick passes: the addresses age. Nothing is done before the switch is placed.
    pub fn tick(&mut self, out: &mut Outbox) -> Result<(), Memory>
        ensures taken { OnOk result ((v : SwitchView) → IsTaken (ages (edge_in self.old v)) (edge_in self.new v) out.old out.new) }
        ensures place { (place : Place) → place_by self.new.address_table place ≡ place_by self.old.address_table place }
        ensures placed { is_some self.new.address_table ≡ is_some self.old.address_table }
        ensures k { self.new.k ≡ self.old.k }
    {
        match &mut self.address_table {
            Some(address_table) => age(self.alloc, address_table, out),
            None => Ok(()),
        }
    }

    /// The manager releases an address: where it rests, it is free from now on. Any other stays as it is.
    pub fn release(&mut self, pmac: Pmac, out: &mut Outbox) -> Result<(), Memory>
        ensures taken { OnOk result ((v : SwitchView) → IsTaken (frees (edge_in self.old v) pmac (granted (edge_in self.old v) pmac)) (edge_in self.new v) out.old out.new) }
        ensures place { (place : Place) → place_by self.new.address_table place ≡ place_by self.old.address_table place }
        ensures k { self.new.k ≡ self.old.k }
    {
        match &mut self.address_table {
            Some(address_table) => address_table.release(pmac, out),
            None => Ok(()),
        }
    }

    // A trap is set for an address. The answer is what was granted under it, where it is not free.
    fn set_trap(&mut self, old: Pmac, to: Trap) -> Result<Option<Grant>, Memory>
        ensures granted { IfOk result (λ grant. (v : SwitchView) → MayBeAt self.old.address_table v.place → grant ≡ held_here (edge_in self.old v) old) }
        ensures set { IfOk result (λ grant. (v : SwitchView) → edge_in self.new v ≡ traps (edge_in self.old v) old to grant) }
        ensures place { (place : Place) → place_by self.new.address_table place ≡ place_by self.old.address_table place }
        ensures k { self.new.k ≡ self.old.k }
    {
        match &mut self.address_table {
            Some(address_table) => invalidate(address_table, old, to),
            None => Ok(None),
        }
    }
}
