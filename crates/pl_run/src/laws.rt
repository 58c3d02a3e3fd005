ghost use Rattle.std.specs.Prelude.{◌≡◌, length};
ghost use Rattle.pl_shelf.specs.Held.{ShelfMoment};
ghost use Rattle.pl_inputs.specs.Inputs.{Inputs};
ghost use Rattle.pl_inputs.specs.Words.{Asked};
ghost use Rattle.pl_inputs.specs.declared.status.Status.TheVariants as answer;
ghost use Rattle.pl_inputs.specs.declared.words.Network.TheVariants.{Fabric};
ghost use Rattle.pl_journal.specs.Text.{journal_text};
ghost use Rattle.pl_output.specs.Receipts.{journal_name};
ghost use Rattle.pl_run.specs.Complete.{AnswersButForMemory, IsCompleteVerify, NoFaults};
ghost use Rattle.pl_run.specs.Fabric.{IsPlayed, fits_of};
ghost use Rattle.pl_run.specs.Laws.{HasSaved};
ghost use Rattle.pl_verdict.specs.Verdicts.{IsLegal};

use pl_inputs::Status;
use pl_verdict::a_saved_journal_is_legal;

/// The text of a journal that a run on the fabric saves is legal, and has as many entries as were written.
pub fn each_run_saves_a_legal_journal()
    ensures { (i : Inputs) (is : IsPlayed Fabric i) → fits_of Fabric i is →
        IsLegal i.plan (journal_text i.plan is.scene.world.journal) (length is.scene.world.journal) }
{
    a_saved_journal_is_legal();
}

/// So a run that was saved and then is checked by `verify` is answered with `Done`, unless memory runs out.
pub fn each_saved_run_is_verified()
    ensures { (old between new : ShelfMoment) (asked : Asked) (result : Status) → HasSaved old between asked →
        NoFaults between new → IsCompleteVerify between new asked.topology (journal_name asked.out) result →
        AnswersButForMemory result answer.Done }
{
    a_saved_journal_is_legal();
}
