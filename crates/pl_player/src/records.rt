ghost use Rattle.std.specs.Prelude.{◌≡◌, IfOk, OnOk};
ghost use Rattle.pl_inputs.specs.Records.{records_of};
ghost use Rattle.pl_world.specs.declared.event.Event.TheVariants as event;
ghost use Rattle.pl_world.specs.Ready.{CanStep};
ghost use Rattle.pl_fabric.specs.Executions.{Makes};
ghost use Rattle.pl_script_rule.specs.Lines.{Asks, AsksNext, left_of};
ghost use Rattle.pl_script_rule.specs.Scenes.{Ends, OfWorld, Often, asked_more, asked_of};

use crate::player::Player;
use pl_frame::{Frame, Memory};
use pl_inputs::{Capture, one_more, record_at, record_count};
use pl_node::{HostLogic, ManagerLogic, SwitchLogic};
use pl_script::Count;
use pl_script_rule::Stop;
use pl_stage::Watcher;
use pl_wiring::HostNo;
use pl_world::{Event, StepError};

impl<S: SwitchLogic, M: ManagerLogic, H: HostLogic, W: Watcher<S, M, H>> Player<S, M, H, W> {
    /// How many records of a host were asked for.
    pub fn asked_of(&self, h: HostNo) -> u64
        ensures { result ≡ asked_of self.now h.0 }
    {
        self.asked.get(h.0 as usize).copied().unwrap_or(0)
    }

    // One more record of a host was asked for.
    fn ask_more(&mut self, h: HostNo) -> Result<(), Memory>
        ensures more { OnOk result (self.new ≡ asked_more self.old h.0) }
        ensures world { self.new.world ≡ self.old.world }
    {
        if let Some(asked) = self.asked.get_mut(h.0 as usize) {
            *asked = one_more(*asked)?;
        }
        Ok(())
    }

    // The event that a host plays a record.
    fn play_of(&self, h: HostNo, frame: &[u8], original: u32, raw: bool) -> Result<Event, Memory>
        ensures { IfOk result (λ play. play ≡ event.Play h frame.now original raw) }
    {
        let copy = Frame::copy(self.alloc(), frame)?;
        Ok(Event::Play {
            host: h,
            frame: copy,
            original,
            raw,
        })
    }

    // A host is asked for one more record, which is this, and plays it.
    fn play_next(&mut self, h: HostNo, frame: &[u8], original: u32, raw: bool) -> Result<(), Stop>
        requires orderly { CanStep self.old.world }
        ensures does { Ends result (λ end. OfWorld (Makes S.rule M.rule H.rule (event.Play h frame.now original raw)) (asked_more self.old h.0) end self.new) }
        ensures orderly { Ends result (λ _. CanStep self.new.world) }
    {
        let play = self.play_of(h, frame, original, raw)?;
        self.ask_more(h)?;
        self.happen(&play)
    }

    // A host is asked for its next record.
    fn ask_next(&mut self, captures: &[Capture], h: HostNo, raw: bool) -> Result<(), Stop>
        requires orderly { CanStep self.old.world }
        ensures does { Ends result (λ end. AsksNext S.rule M.rule H.rule (records_of captures.now) h raw self.old end self.new) }
        ensures orderly { Ends result (λ _. CanStep self.new.world) }
    {
        match record_at(captures, h, self.asked_of(h)) {
            None => Err(Stop::Refused(StepError::NothingThere)),
            Some(next) => self.play_next(h, next.frame, next.original, raw),
        }
    }

    // A host is asked for so many records.
    fn ask_often(
        &mut self,
        captures: &[Capture],
        h: HostNo,
        raw: bool,
        times: u64,
    ) -> Result<(), Stop>
        requires orderly { CanStep self.old.world }
        ensures does { Ends result (λ end. Often times (AsksNext S.rule M.rule H.rule (records_of captures.now) h raw) self.old end self.new) }
        ensures orderly { Ends result (λ _. CanStep self.new.world) }
    {
        for _ in 0..times {
            self.ask_next(captures, h, raw)?;
        }
        Ok(())
    }

    /// How many records of a host were not asked for.
    pub fn left_of(&self, captures: &[Capture], h: HostNo) -> u64
        ensures { result ≡ left_of (records_of captures.now) self.now h }
    {
        record_count(captures, h).saturating_sub(self.asked_of(h))
    }

    /// A host is asked for so many records, or for all that are left.
    pub(crate) fn ask(
        &mut self,
        captures: &[Capture],
        h: HostNo,
        raw: bool,
        count: Count,
    ) -> Result<(), Stop>
        requires orderly { CanStep self.old.world }
        ensures does { Ends result (λ end. Asks S.rule M.rule H.rule (records_of captures.now) h raw count self.old end self.new) }
        ensures orderly { Ends result (λ _. CanStep self.new.world) }
    {
        let times = match count {
            Count::N(times) => u64::from(times),
            Count::All => self.left_of(captures, h),
        };
        self.ask_often(captures, h, raw, times)
    }
}
