ghost use Rattle.std.specs.Prelude.{◌≡◌, ◌↔◌, ℕ, List, Some, None};
ghost use Rattle.pl_inputs.specs.Met.{IsWithinLimits, task, texts};
ghost use Rattle.pl_inputs.specs.Words.{Asked, Check, Generate, Run, Task as Asking, Verify, task_of};
ghost use Rattle.pl_inputs.specs.declared.words.Generation.{Generation as Drawn};
ghost use Rattle.pl_playing.specs.Outcomes.{IsUntouched};
ghost use Rattle.pl_playing.specs.Plays.{answer_of};
ghost use Rattle.pl_playing.specs.Prepared.{NamesNoFault};
ghost use Rattle.pl_run.specs.Answers.{Answers};
ghost use Rattle.pl_run.specs.Checks.{AnswersCheck};
ghost use Rattle.pl_run.specs.Complete.{IsComplete, IsCompleteCheck, IsCompleteVerify};
ghost use Rattle.pl_run.specs.Faults.{TellsFaults};
ghost use Rattle.pl_run.specs.Generated.{AnswersGenerated};
ghost use Rattle.pl_run.specs.Prepared.{IsPrepared};
ghost use Rattle.pl_run.specs.Tasks.{AnswersTask};
ghost use Rattle.pl_run.specs.Verified.{AnswersVerify};

use crate::check::check;
use crate::generating::generate_and_run;
use crate::running::run;
use crate::verify::verify;
use pl_inputs::{Status, Task, task_of};
use pl_law_executions::{one_script_one_end, one_script_one_end_of_bridges};
use pl_shelf::Shelf;
use pl_verdict::a_text_has_one_verdict;
use std::alloc::Global;

/// Runs the program with these words, of which the first is its name and the second the command.
///
/// `run` takes the items `--topology`, `--script`, `--captures` and `--out`, which name what is read and
/// the folder to save into. It reads the topology, then the script, then in the order of the hosts the
/// capture of each that names one; it plays the script on a whole fabric, up to its last line or to the
/// first that is stopped; and then it saves each host's capture in order, the journal and, on standard
/// output, the summary. Nothing takes memory from the first name that is created on.
///
/// `bridge` takes the same items and does the same on learning bridges, on the tree that is left when before
/// the first line all links but those of the tree fail.
///
/// `check` takes `--topology`, reads it, and prints the line of its wiring on standard output.
///
/// `gen` takes `--k` (even, 4 to 24), `--number` (64 bits) and `--frames` (1 to 100,000). It makes a
/// topology, a script and captures, plays them as `run` does, and prints the summary alone.
///
/// `verify` takes `--topology` and `--journal`. It reads the topology and then the saved journal, says which
/// line of it is none of an entry, or which entry may not follow those before it, or prints how many it has.
pub fn portland<S: Shelf>(alloc: Global, words: &[&str], shelf: &mut S) -> Status
    // The words are no command, and nothing is done.
    ensures usage { (result ≡ Status.Usage) ↔ (task_of (texts words.now) ≡ None) }
    ensures nothing_done { result ≡ Status.Usage → IsUntouched
        (S.moment shelf.old) (S.moment shelf.new) }

    // They are one, and the answer tells what came of it.
    ensures answers { (asked : Asked) → task_of (texts words.now) ≡ Some (Run asked) → Answers
        (S.moment shelf.old) (S.moment shelf.new)
        asked result }
    ensures check { (topology : List ℕ) → task_of (texts words.now) ≡ Some (Check topology) → AnswersCheck
        (S.moment shelf.old) (S.moment shelf.new)
        topology result }
    ensures generated { (g : Drawn) → task_of (texts words.now) ≡ Some (Generate g) → AnswersGenerated
        (S.moment shelf.old) (S.moment shelf.new)
        g.k g.number g.frames result }
    ensures verified { (topology journal : List ℕ) → task_of (texts words.now) ≡ Some (Verify topology journal) → AnswersVerify
        (S.moment shelf.old) (S.moment shelf.new)
        topology journal result }

    // Over a shelf that tells what is read, with no failed call, it is the one that the bytes ask for.
    ensures complete { (asked : Asked) → task_of (texts words.now) ≡ Some (Run asked) → IsComplete
        (S.moment shelf.old) (S.moment shelf.new)
        asked result }
    ensures complete_check { (topology : List ℕ) → task_of (texts words.now) ≡ Some (Check topology) → IsCompleteCheck
        (S.moment shelf.old) (S.moment shelf.new)
        topology result }
    ensures complete_verify { (topology journal : List ℕ) → task_of (texts words.now) ≡ Some (Verify topology journal) → IsCompleteVerify
        (S.moment shelf.old) (S.moment shelf.new)
        topology journal result }

    // Where a count of failed calls is larger than before, it is `ReadFault`, or `WriteFault`, whatever memory is found.
    ensures faults { TellsFaults
        (S.moment shelf.old) (S.moment shelf.new)
        result }

    // It is neither, where the shelf promises that all that is read can be, and has room for all that is saved.
    ensures prepared { (t : Asking) → task_of (texts words.now) ≡ Some t →
        IsPrepared (S.capacity shelf.old) (S.moment shelf.old).held t → NamesNoFault result }
{
    let Some(task) = task_of(words) else {
        return Status::Usage;
    };
    one_script_one_end();
    one_script_one_end_of_bridges();
    a_text_has_one_verdict();
    status_of(perform(alloc, &task, shelf))
}

fn status_of(ended: Result<(), Status>) -> Status
    ensures { result ≡ answer_of ended }
{
    match ended {
        Ok(()) => Status::Done,
        Err(status) => status,
    }
}

fn perform<S: Shelf>(alloc: Global, asked: &Task<'_>, shelf: &mut S) -> Result<(), Status>
    requires { IsWithinLimits asked.now }
    ensures answers { AnswersTask
        (S.moment shelf.old) (S.moment shelf.new)
        (task asked.now) (answer_of result) }
    ensures prepared { IsPrepared (S.capacity shelf.old) (S.moment shelf.old).held (task asked.now) → NamesNoFault (answer_of result) }
{
    match asked {
        Task::Run(files) => run(alloc, files, shelf),
        Task::Check { topology } => check(alloc, topology, shelf),
        Task::Generate(generation) => generate_and_run(alloc, *generation, shelf),
        Task::Verify { topology, journal } => verify(alloc, topology, journal, shelf),
    }
}
