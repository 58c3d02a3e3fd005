ghost use Rattle.std.specs.Prelude.{◌≡◌, ◌+◌, ◌-◌, ◌*◌, ◌<◌, ◌≤◌, ◌^◌, ◌++◌, ◌∷◌, [], List, ℕ, IfOk, OnOk, length, take, drop};
ghost use Rattle.pl_wiring.specs.Plan.{Plan};
ghost use Rattle.pl_journal.specs.Text.{line_of};
ghost use Rattle.pl_journal.specs.declared.entry.Entry.{Entry};
ghost use Rattle.pl_journal_text.specs.Writable.{IsWritable};
ghost use Rattle.pl_checker.specs.Past.{HasDigits};
ghost use Rattle.pl_verify.specs.Judged.{IsJudged, IsVerdictOn};

use pl_checker::Past;
use pl_frame::Frame;
use pl_journal::{Entry, Memory};
use pl_verdict::Verdict;
use pl_wiring::Wiring;
use std::alloc::Global;

/// The entries that were heard: how many, what is kept of them, and the first that does not follow.
#[derive(Debug, Drop)]
pub(crate) struct Judge {
    pub(crate) past: Past,
    pub(crate) count: u64,
    pub(crate) wrong: Option<u64>,
}

impl Judge {
    pub(crate) fn new(alloc: Global, wiring: &Wiring) -> Result<Judge, Memory>
        ensures { IfOk result (λ judge. (text : List ℕ) → IsJudged wiring.now text [] judge) }
    {
        let past = Past::first(alloc, wiring)?;
        Ok(Judge {
            past,
            count: 0,
            wrong: None,
        })
    }

    /// One entry more is heard, whose line is this part of the text.
    pub(crate) fn hear(
        &mut self,
        alloc: Global,
        wiring: &Wiring,
        text: &[u8],
        at: usize,
        end: usize,
        entry: &Entry,
    ) -> Result<(), Memory>
        requires writable { IsWritable wiring.now entry.now }
        requires few { self.old.count + 1 < 2 ^ 64 }
        ensures judged { OnOk result ((journal : List Entry) → at ≤ end → end ≤ length text.now →
            take (end - at) (drop at text.now) ≡ line_of wiring.now entry.now → IsJudged wiring.now text.now journal self.old →
            IsJudged wiring.now text.now (journal ++ entry.now ∷ []) self.new) }
        ensures count { OnOk result (self.new.count ≡ self.old.count + 1) }
    {
        self.count += 1;
        if self.wrong.is_some() {
            return Ok(());
        }
        let follows = self.past.may_follow(alloc, wiring, text, entry)?;
        if !follows {
            self.wrong = Some(self.count);
            return Ok(());
        }
        let from = digits_at(wiring, entry, end);
        self.past.keep(wiring, self.count, from, entry)?;
        Ok(())
    }

    /// The verdict on them, if they are all.
    pub(crate) fn verdict(&self) -> Verdict
        ensures { (plan : Plan) (text : List ℕ) (journal : List Entry) → IsJudged plan text journal self.now → IsVerdictOn plan journal result }
    {
        match self.wrong {
            None => Verdict::Legal(self.count),
            Some(n) => Verdict::Illegal(n),
        }
    }
}

// Where the digits of the frame stand that an entry begins, by the end of its line.
fn digits_at(wiring: &Wiring, entry: &Entry, end: usize) -> usize
    requires { IsWritable wiring.now entry.now }
    ensures { (text : List ℕ) (at : ℕ) → at ≤ end → end ≤ length text →
        take (end - at) (drop at text) ≡ line_of wiring.now entry.now → HasDigits text result entry.now }
{
    match entry {
        Entry::Sent(_, _, frame) => before_newline(frame, end),
        Entry::Made(_, _, frame) => before_newline(frame, end),
        _ => 0,
    }
}

// Where a frame's digits stand before the newline that ends the line.
fn before_newline(frame: &Frame, end: usize) -> usize
    requires { length frame.now ≤ 65553 }
    ensures { result ≡ end - (2 * length frame.now + 1) }
{
    end.saturating_sub(2 * frame.bytes().len() + 1)
}
