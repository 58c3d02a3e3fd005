ghost use Rattle.std.specs.Prelude.{◌≡◌, ◌++◌, OnErr, OnOk};
ghost use Rattle.pl_steps.specs.Taken.{IsTaken};
ghost use Rattle.pl_switch_rule.specs.Messages.{hears_pod, with_part};
ghost use Rattle.pl_switch_rule.specs.Reporting.{each_told, hears_hello, report_for};

use crate::SwitchState;
use crate::copying::copy_part;
use crate::settling::settle;
use pl_node::{Act, AvoidList, Memory, Outbox, ToManager, TreePart};
use std::collections::BTreeMap;

impl SwitchState {
    /// The fabric manager says the number of the pod. A number that this switch did not wait for changes
    /// nothing.
    pub fn hear_pod(&mut self, pod: u16, out: &mut Outbox) -> Result<(), Memory>
        ensures taken { OnOk result (IsTaken (hears_pod self.old pod) self.new out.old out.new) }
        ensures id { self.new.id ≡ self.old.id }
        ensures k { self.new.k ≡ self.old.k }
        ensures avoid { self.new.avoid ≡ self.old.avoid }
    {
        let before = self.ports.standing();
        if !self.ports.take_pod(pod) {
            return Ok(());
        }
        settle(
            &mut self.ports,
            &mut self.proposer,
            &mut self.edge,
            &before,
            out,
        )
    }

    /// The avoid list is replaced.
    pub fn hear_avoid_list(&mut self, list: &AvoidList) -> Result<(), Memory>
        ensures avoid { OnOk result (self.new ≡ record self.old { avoid = list.now }) }
        ensures id { self.new.id ≡ self.old.id }
        ensures k { self.new.k ≡ self.old.k }
        ensures err { OnErr result (self.new ≡ self.old) }
    {
        self.avoid = list.copied(self.alloc)?;
        Ok(())
    }

    /// A fabric manager begins anew, for the time of this number: the switch forgets its avoid list and all its
    /// parts of trees, and tells its report. After want of memory all is as it was.
    pub fn hear_hello(&mut self, epoch: u32, out: &mut Outbox) -> Result<(), Memory>
        ensures taken { OnOk result (IsTaken (hears_hello self.old epoch) self.new out.old out.new) }
        ensures id { self.new.id ≡ self.old.id }
        ensures k { self.new.k ≡ self.old.k }
        ensures err { OnErr result (self.new ≡ self.old) }
    {
        self.report(epoch, out)?;
        self.epoch = epoch;
        self.avoid = AvoidList::new(self.alloc);
        self.parts = BTreeMap::new(self.alloc);
        Ok(())
    }

    // All that a fabric manager has to know of it.
    fn report(&self, epoch: u32, out: &mut Outbox) -> Result<(), Memory>
        ensures { OnOk result (out.new ≡ out.old ++ each_told (report_for epoch self.now)) }
    {
        out.push(Act::Tell(ToManager::Begin(epoch)))?;
        self.ports.report(out)?;
        self.edge.report(out)?;
        self.edge.report_groups(out)?;
        out.push(Act::Tell(ToManager::End(epoch)))?;
        Ok(())
    }

    /// The part of a group's tree is replaced, or there is none any more.
    pub fn hear_tree_part(&mut self, group: u32, part: &Option<TreePart>) -> Result<(), Memory>
        ensures parts { OnOk result (self.new ≡ record self.old { parts = with_part group part.now self.old.parts }) }
        ensures id { self.new.id ≡ self.old.id }
        ensures k { self.new.k ≡ self.old.k }
        ensures place { self.new.place ≡ self.old.place }
        ensures ports { self.new.ports ≡ self.old.ports }
        ensures avoid { self.new.avoid ≡ self.old.avoid }
    {
        match part {
            Some(part) => {
                let part = copy_part(self.alloc, part)?;
                self.parts.insert(group, part)?;
            }
            None => {
                self.parts.remove(&group);
            }
        }
        Ok(())
    }
}
