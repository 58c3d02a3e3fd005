ghost use Rattle.std.specs.Prelude.{◌≡◌, ◌<◌, OnOk};
ghost use Rattle.std.specs.List.{AllByRecursion};
ghost use Rattle.pl_wiring.specs.Labels.{switch_count};
ghost use Rattle.pl_journal.specs.declared.entry.Entry.TheVariants as entry;
ghost use Rattle.pl_node.specs.Accounting.{IsFit};
ghost use Rattle.pl_world.specs.SwitchActs.{act_done, acts_done, amid, crossed_again, ended, goes_out, made, passed, place_noted, redirected, with_late};

use crate::world::World;
use pl_frame::{Frame, Memory};
use pl_journal::{Cause, Entry};
use pl_layouts::Place;
use pl_node::{Act, HostLogic, ManagerLogic, Outbox, SwitchLogic};
use pl_pmac::Pmac;
use pl_wiring::SwitchNo;
use pl_world::{ActsProgress, Item, SpokenFrame};

impl<S: SwitchLogic, M: ManagerLogic, H: HostLogic> World<S, M, H> {
    // What one act of a switch brings about.
    fn do_act(&mut self, s: SwitchNo, act: Act, progress: &mut ActsProgress) -> Result<(), Memory>
        requires switch { s.0 < switch_count self.old.plan.k }
        requires fit { IsFit self.old.plan.k act }
        ensures done { OnOk result (amid self.new progress.new ≡ act_done s.0 (amid self.old progress.old) act) }
        ensures plan { OnOk result (self.new.plan ≡ self.old.plan) }
    {
        match act {
            Act::Control(port, frame) => self.send_out(s, port, Item::Control(frame)),
            Act::Tell(told) => self.tell(s, told),
            Act::Grant { pmac, amac } => self.grant(s, pmac, amac),
            Act::Free(pmac) => self.note(Entry::Freed(pmac)),
            Act::Make(frame) => self.make(s, frame, progress),
            Act::Redirect { old, new } => self.redirect(old, new, progress),
            Act::Pass(port, frame) => self.pass(s, port, frame, progress),
            Act::Take => self.take(s, progress),
            Act::Drop(cause) => self.end(s, cause, progress),
        }
    }

    fn make(&mut self, s: SwitchNo, frame: Frame, progress: &mut ActsProgress) -> Result<(), Memory>
        ensures done { OnOk result (amid self.new progress.new ≡ made s.0 (amid self.old progress.old) frame) }
        ensures plan { OnOk result (self.new.plan ≡ self.old.plan) }
    {
        self.note_all(&mut progress.late)?;
        let number = self.next_number()?;
        self.begin(number, Entry::Made(number, s, frame))?;
        self.note(Entry::Crossed(number, s))?;
        progress.speech = SpokenFrame::Waiting(number, false);
        Ok(())
    }

    fn redirect(&mut self, old: Pmac, new: Pmac, progress: &mut ActsProgress) -> Result<(), Memory>
        ensures done { OnOk result (amid self.new progress.new ≡ redirected (amid self.old progress.old) old new progress.old.speech) }
        ensures plan { OnOk result (self.new.plan ≡ self.old.plan) }
    {
        match progress.speech {
            SpokenFrame::Waiting(number, _) => {
                self.note(Entry::Redirected(number, old, new))?;
                progress.speech = SpokenFrame::Waiting(number, true);
                Ok(())
            }
            _ => Ok(()),
        }
    }

    // A frame that was redirected crosses the switch once more before it goes on, or ends.
    fn cross_again(&mut self, s: SwitchNo, number: u64, again: bool) -> Result<(), Memory>
        ensures { OnOk result (self.new ≡ crossed_again self.old s.0 number again) }
    {
        if again {
            self.note(Entry::Crossed(number, s))?;
        }
        Ok(())
    }

    fn pass(
        &mut self,
        s: SwitchNo,
        port: u8,
        frame: Frame,
        progress: &mut ActsProgress,
    ) -> Result<(), Memory>
        requires switch { s.0 < switch_count self.old.plan.k }
        requires port { port < self.old.plan.k }
        ensures done { OnOk result (amid self.new progress.new ≡ passed s.0 (amid self.old progress.old) port frame progress.old.speech) }
        ensures plan { OnOk result (self.new.plan ≡ self.old.plan) }
    {
        match progress.speech {
            SpokenFrame::Waiting(number, again) => {
                self.cross_again(s, number, again)?;
                self.go_out(s, number, port, frame, progress)
            }
            SpokenFrame::Passed(number) => {
                let copy = self.next_number()?;
                self.begin(copy, Entry::Copied(number, copy))?;
                self.go_out(s, copy, port, frame, progress)?;
                progress.speech = SpokenFrame::Passed(number);
                Ok(())
            }
            _ => Ok(()),
        }
    }

    // The frame leaves by a port; where the link is failed it ends there.
    fn go_out(
        &mut self,
        s: SwitchNo,
        number: u64,
        port: u8,
        frame: Frame,
        progress: &mut ActsProgress,
    ) -> Result<(), Memory>
        requires switch { s.0 < switch_count self.old.plan.k }
        requires port { port < self.old.plan.k }
        ensures done { OnOk result (amid self.new progress.new ≡ goes_out s.0 (amid self.old progress.old) number port frame) }
        ensures plan { OnOk result (self.new.plan ≡ self.old.plan) }
    {
        if self.is_failed_at(s, port) {
            progress.late.push(Entry::Dropped(number, Cause::LinkDown))?;
        }
        self.send_out(s, port, Item::Data(number, frame))?;
        progress.speech = SpokenFrame::Passed(number);
        Ok(())
    }

    fn take(&mut self, s: SwitchNo, progress: &mut ActsProgress) -> Result<(), Memory>
        ensures done { OnOk result (amid self.new progress.new ≡ ended s.0 (amid self.old progress.old) (λ id. entry.Taken id s) progress.old.speech) }
        ensures plan { OnOk result (self.new.plan ≡ self.old.plan) }
    {
        match progress.speech {
            SpokenFrame::Waiting(number, again) => {
                self.cross_again(s, number, again)?;
                self.note(Entry::Taken(number, s))?;
                progress.speech = SpokenFrame::Over;
                Ok(())
            }
            _ => Ok(()),
        }
    }

    fn end(&mut self, s: SwitchNo, cause: Cause, progress: &mut ActsProgress) -> Result<(), Memory>
        ensures done { OnOk result (amid self.new progress.new ≡ ended s.0 (amid self.old progress.old) (λ id. entry.Dropped id cause) progress.old.speech) }
        ensures plan { OnOk result (self.new.plan ≡ self.old.plan) }
    {
        match progress.speech {
            SpokenFrame::Waiting(number, again) => {
                self.cross_again(s, number, again)?;
                self.note(Entry::Dropped(number, cause))?;
                progress.speech = SpokenFrame::Over;
                Ok(())
            }
            _ => Ok(()),
        }
    }

    fn do_acts(
        &mut self,
        s: SwitchNo,
        acts: &mut Outbox,
        progress: &mut ActsProgress,
    ) -> Result<(), Memory>
        requires switch { s.0 < switch_count self.old.plan.k }
        requires fit { AllByRecursion (IsFit self.old.plan.k) acts.old }
        ensures done { OnOk result (amid self.new progress.new ≡ acts_done s.0 (amid self.old progress.old) acts.old) }
    {
        while let Some(act) = acts.take_first() {
            self.do_act(s, act, progress)?;
        }
        Ok(())
    }

    // All that a step of a switch brings about, once it has another view.
    pub(crate) fn finish(
        &mut self,
        s: SwitchNo,
        old: Place,
        new: Place,
        acts: &mut Outbox,
        progress: &mut ActsProgress,
    ) -> Result<(), Memory>
        requires switch { s.0 < switch_count self.old.plan.k }
        requires fit { AllByRecursion (IsFit self.old.plan.k) acts.old }
        ensures { OnOk result (self.new ≡ place_noted s.0 old new (with_late (acts_done s.0 (amid self.old progress.old) acts.old))) }
    {
        self.do_acts(s, acts, progress)?;
        self.note_all(&mut progress.late)?;
        if old != new {
            self.note(Entry::Placed(s, new))?;
        }
        Ok(())
    }
}
