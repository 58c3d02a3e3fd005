ghost use Rattle.std.specs.Prelude.{◌≡◌, ◌<◌, length, slice_get, Some, OnOk};
ghost use Rattle.pl_frame.specs.declared.address.SwitchId.{SwitchId};
ghost use Rattle.pl_node.specs.ManagerFacts.{CanHear};
ghost use Rattle.std.specs.List.{AllByRecursion, fold};
ghost use Rattle.pl_wiring.specs.Labels.{switch_count};
ghost use Rattle.pl_node.specs.Accounting.{CanCome, IsShaped};
ghost use Rattle.pl_node.specs.HostInputs.HostAnswer.{Nothing};
ghost use Rattle.pl_node.specs.SwitchViews.{SwitchView};
ghost use Rattle.pl_world.specs.Changes.{sent_by_host};
ghost use Rattle.pl_world_parts.specs.OneStep.{input_from, input_of};
ghost use Rattle.pl_world.specs.OtherActs.{host_act_done, manager_act_done, reception_noted, skip_noted};
ghost use Rattle.pl_world.specs.WorldRule.{HostTurn, HostPlays, HostReceives, ManagerTurn, SwitchTurn, played_as};

use crate::world::World;
use pl_frame::{Frame, Memory};
use pl_journal::{Cause, Entry, Skip};
use pl_lists::Queue;
use pl_node::{
    HostAct, HostLogic, HostOutbox, ManagerAct, ManagerLogic, ManagerOutbox, Reception,
    SwitchLogic, ToManager,
};
use pl_wiring::{HostNo, SwitchNo};
use pl_world::{ActsProgress, Item, SpokenFrame};
use pl_world_parts::{HostCall, Incoming, arrive_at, host_call_at, play_at};

impl<S: SwitchLogic, M: ManagerLogic, H: HostLogic> World<S, M, H> {
    // Something comes at a switch. The switch's acts speak first of the frame that is said here.
    pub(crate) fn switch_hears(
        &mut self,
        s: SwitchNo,
        incoming: Incoming,
        first: SpokenFrame,
    ) -> Result<(), Memory>
        requires switch { s.0 < switch_count self.old.plan.k }
        requires coming { (v : SwitchView) → v.k ≡ self.old.plan.k → CanCome v (input_from incoming) }
        requires shaped { AllByRecursion IsShaped self.old.switches }
        ensures { OnOk result (SwitchTurn S.rule self.old s.0 (input_from incoming.entry) first self.new) }
    {
        let mut acts = Queue::new(self.alloc);
        let mut progress = ActsProgress {
            speech: first,
            late: Queue::new(self.alloc),
        };
        let (old, new) = self.switches.hear(s.0 as usize, incoming, &mut acts)?;
        self.finish(s, old, new, &mut acts, &mut progress)
    }

    // A host sends a frame: it gets a number, and waits in the host's queue.
    fn send(&mut self, h: HostNo, frame: Frame) -> Result<(), Memory>
        requires { h.0 < length self.old.plan.hosts }
        ensures done { OnOk result (self.new ≡ sent_by_host self.old h.0 frame) }
        ensures plan { OnOk result (self.new.plan ≡ self.old.plan) }
    {
        let number = self.next_number()?;
        let noted = Frame::copy(self.alloc, frame.bytes())?;
        self.begin(number, Entry::Sent(number, h, noted))?;
        self.from_hosts.put(h.0 as usize, Item::Data(number, frame))
    }

    fn send_all(&mut self, h: HostNo, acts: &mut HostOutbox) -> Result<(), Memory>
        requires { h.0 < length self.old.plan.hosts }
        ensures { OnOk result (self.new ≡ fold (host_act_done h.0) self.old acts.old) }
    {
        while let Some(act) = acts.take_first() {
            match act {
                HostAct::Send(frame) => self.send(h, frame)?,
            }
        }
        Ok(())
    }

    pub(crate) fn host_does(&mut self, h: HostNo, host_call: HostCall) -> Result<(), Memory>
        requires { h.0 < length self.old.plan.hosts }
        ensures { OnOk result (HostTurn H.rule self.old h.0 (input_of host_call) Nothing self.new) }
    {
        let mut acts = Queue::new(self.alloc);
        host_call_at(&mut self.hosts, h.0 as usize, host_call, &mut acts)?;
        self.send_all(h, &mut acts)
    }

    // A recorded frame is played, or passed over for a reason that the journal says.
    pub(crate) fn host_plays(
        &mut self,
        h: HostNo,
        frame: &[u8],
        original: u32,
        raw: bool,
    ) -> Result<(), Memory>
        requires { h.0 < length self.old.plan.hosts }
        ensures { OnOk result (HostPlays H.rule self.old h.0 (played_as raw frame.now original) self.new) }
    {
        let mut acts = Queue::new(self.alloc);
        let skip = play_at(
            &mut self.hosts,
            h.0 as usize,
            frame,
            original,
            raw,
            &mut acts,
        )?;
        self.note_skip(h, skip)?;
        self.send_all(h, &mut acts)
    }

    fn note_skip(&mut self, h: HostNo, skip: Option<Skip>) -> Result<(), Memory>
        ensures { OnOk result (self.new ≡ skip_noted self.old h.0 skip) }
    {
        match skip {
            None => Ok(()),
            Some(skip) => self.note(Entry::Skipped(h, skip)),
        }
    }

    // A data frame arrives at a host, or ends there.
    pub(crate) fn host_receives(
        &mut self,
        h: HostNo,
        number: u64,
        frame: Frame,
    ) -> Result<(), Memory>
        requires { h.0 < length self.old.plan.hosts }
        ensures { OnOk result (HostReceives H.rule self.old h.0 number frame self.new) }
    {
        let mut acts = Queue::new(self.alloc);
        let reception = arrive_at(&mut self.hosts, h.0 as usize, frame.bytes(), &mut acts)?;
        self.note_reception(h, number, frame, reception)?;
        self.send_all(h, &mut acts)
    }

    fn note_reception(
        &mut self,
        h: HostNo,
        number: u64,
        frame: Frame,
        reception: Reception,
    ) -> Result<(), Memory>
        ensures { OnOk result (self.new ≡ reception_noted self.old h.0 number frame reception) }
    {
        match reception {
            Reception::Kept => self.note(Entry::Arrived(number, h, frame)),
            Reception::NotMember => self.note(Entry::Dropped(number, Cause::NoMember)),
        }
    }

    // The manager hears a switch.
    pub(crate) fn manager_hears(&mut self, s: SwitchNo, told: &ToManager) -> Result<(), Memory>
        requires switch { s.0 < switch_count self.old.plan.k }
        requires hears { (id : SwitchId) → slice_get self.old.plan.ids s.0 ≡ Some id → CanHear self.old.manager id }
        ensures { OnOk result (ManagerTurn M.rule self.old s.0 told.now self.new) }
    {
        let mut acts = Queue::new(self.alloc);
        let id = self.wiring_index.wiring().id(s);
        self.manager.hears(id, told, &mut acts)?;
        self.manager_does(&mut acts)?;
        Ok(())
    }

    fn manager_does(&mut self, acts: &mut ManagerOutbox) -> Result<(), Memory>
        ensures { OnOk result (self.new ≡ fold manager_act_done self.old acts.old) }
    {
        while let Some(act) = acts.take_first() {
            self.do_manager_act(act)?;
        }
        Ok(())
    }

    fn do_manager_act(&mut self, act: ManagerAct) -> Result<(), Memory>
        ensures { OnOk result (self.new ≡ manager_act_done self.old act) }
    {
        match act {
            ManagerAct::Say(to, says) => self.say(to, says),
            ManagerAct::Number(pmac, number) => self.note(Entry::Registered(pmac, number)),
        }
    }
}
