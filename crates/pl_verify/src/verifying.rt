ghost use Rattle.std.specs.Prelude.{◌<◌, [], length};
ghost use Rattle.pl_verdict.specs.Verdicts.{Says};
ghost use Rattle.pl_verify.specs.Judged.{IsFurther, IsJudged, IsReadTo};

use crate::judge::Judge;
use crate::lines::line_end;
use pl_journal_text::read_line;
use pl_verdict::{Verdict, VerifyError};
use pl_wiring::Wiring;
use std::alloc::Global;

/// What is found of a saved journal of a wiring. It is read once from front to end; a bad line is told
/// before an entry that does not follow.
pub fn verify(alloc: Global, wiring: &Wiring, journal: &[u8]) -> Result<Verdict, VerifyError>
    ensures { Says wiring.now journal.now result }
{
    let mut judge = Judge::new(alloc, wiring)?;
    hear_all(alloc, wiring, journal, &mut judge)
}

// All lines are read and their entries heard by a judge that has heard none.
fn hear_all(
    alloc: Global,
    wiring: &Wiring,
    journal: &[u8],
    judge: &mut Judge,
) -> Result<Verdict, VerifyError>
    requires { IsJudged wiring.now journal.now [] judge.old }
    ensures { Says wiring.now journal.now result }
{
    let mut at = 0;
    while at < journal.len() {
        at = hear_line(alloc, wiring, journal, at, judge)?;
    }
    Ok(judge.verdict())
}

// The line that begins at a place is read and its entry heard; where the next one begins.
fn hear_line(
    alloc: Global,
    wiring: &Wiring,
    journal: &[u8],
    at: usize,
    judge: &mut Judge,
) -> Result<usize, VerifyError>
    requires more { at < length journal.now }
    requires so_far { IsReadTo wiring.now journal.now at judge.old }
    ensures { IsFurther wiring.now journal.now at judge.new result }
{
    let _k = wiring.k();
    let end = line_end(journal, at);
    let Some(entry) = read_line(alloc, wiring, &journal[at..end])? else {
        return Err(VerifyError::BadLine(judge.count + 1));
    };
    judge.hear(alloc, wiring, journal, at, end, &entry)?;
    Ok(end)
}
