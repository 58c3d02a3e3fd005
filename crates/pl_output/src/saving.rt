ghost use Rattle.std.specs.Prelude.{◌≡◌, ℕ, List, [], ◌∷◌, All, IfErr, OnOk, OnErr, string_bytes};
ghost use Rattle.pl_shelf.specs.Faults.{CountsWrites};
ghost use Rattle.pl_shelf.specs.Held.{standard_output};
ghost use Rattle.pl_journal.specs.Ranges.{Fits};
ghost use Rattle.pl_journal.specs.Text.{IsNamed, journal_text};
ghost use Rattle.pl_output.specs.InTurn.{BreaksInTurn, BreaksOne, SavedInTurn, SavesOne};
ghost use Rattle.pl_output.specs.Receipts.{saved_texts};
ghost use Rattle.pl_output.specs.Room.{HasRoom, HaveRoom, HaveRoomInTurn};
ghost use Rattle.pl_journal.specs.Savable.{IsSavable};
ghost use Rattle.pl_output.specs.Saved.{AreSaved, BreaksOff};
ghost use Rattle.pl_output.specs.Texts.{AreTexts, savings_of};

use crate::printing::{Piece, save_journal};
use captures::save_captures;
use pl_journal::Journal;
use pl_shelf::{Shelf, save};
use pl_wiring::{Name, Wiring};
pub use texts::Texts;

mod captures;
mod inbox;
mod receipt;
mod receiving;
mod texts;

/// Saves the texts of a run: each host's capture in the order of the hosts, the journal, and the
/// summary on standard output. Takes no memory, and answers the name at which a write failed. Where all
/// is saved, each entry of the journal was printed, and so is one that its types can hold.
pub fn save_all<S: Shelf>(
    shelf: &mut S,
    wiring: &Wiring,
    journal: &Journal,
    texts: Texts,
) -> Result<(), Name>
    requires savable { All (IsSavable wiring.now) journal.now }
    ensures ok { (out : List ℕ) → AreTexts out wiring.now journal.now texts →
        OnOk result (AreSaved (S.moment shelf.old).held (S.moment shelf.new).held
        (saved_texts out wiring.now journal.now (string_bytes texts.summary))) }
    ensures err { (out : List ℕ) → AreTexts out wiring.now journal.now texts →
        IfErr result (λ name. BreaksOff (S.moment shelf.old).held (S.moment shelf.new).held
        (saved_texts out wiring.now journal.now (string_bytes texts.summary)) name) }
    ensures fits { OnOk result (All Fits journal.now) }
    ensures faults { CountsWrites result (S.moment shelf.old) (S.moment shelf.new) }
    ensures capacity { S.capacity shelf.new ≡ S.capacity shelf.old }
    ensures unfit { (out : List ℕ) → AreTexts out wiring.now journal.now texts →
        OnErr result (HaveRoom (S.capacity shelf.old) (S.moment shelf.old).held
        (saved_texts out wiring.now journal.now (string_bytes texts.summary)) → ⊥) }
{
    // The wiring's invariant is that no two hosts have one name.
    let _hosts = wiring.hosts();
    save_in_turn(shelf, wiring, journal, texts)
}

fn save_in_turn<S: Shelf>(
    shelf: &mut S,
    wiring: &Wiring,
    journal: &Journal,
    texts: Texts,
) -> Result<(), Name>
    requires savable { All (IsSavable wiring.now) journal.now }
    ensures ok { OnOk result (SavedInTurn (S.moment shelf.old).held
        (savings_of wiring.now journal.now texts) (S.moment shelf.new).held) }
    ensures err { IfErr result (λ name.
        BreaksInTurn (S.moment shelf.old).held (savings_of wiring.now journal.now texts) name
        (S.moment shelf.new).held) }
    ensures fits { OnOk result (All Fits journal.now) }
    ensures faults { CountsWrites result (S.moment shelf.old) (S.moment shelf.new) }
    ensures capacity { S.capacity shelf.new ≡ S.capacity shelf.old }
    ensures unfit { OnErr result (HaveRoomInTurn (S.capacity shelf.old) (S.moment shelf.old).held
        (savings_of wiring.now journal.now texts) → ⊥) }
{
    let Texts {
        inboxes,
        journal: journal_name,
        output,
        summary,
        mut piece,
    } = texts;
    save_captures(shelf, journal, inboxes, &mut piece)?;
    save_entries(shelf, journal_name, wiring, journal, &mut piece)?;
    save_summary(shelf, output, &summary)
}

fn save_entries<S: Shelf>(
    shelf: &mut S,
    name: Name,
    wiring: &Wiring,
    journal: &Journal,
    piece: &mut Piece,
) -> Result<(), Name>
    requires named { All (IsNamed wiring.now) journal.now }
    ensures ok { OnOk result (SavesOne (S.moment shelf.old).held (S.moment shelf.new).held
        (record { name = name; text = journal_text wiring.now journal.now })) }
    ensures named { IfErr result (λ told. name ≡ told) }
    ensures err { OnErr result (BreaksOne (S.moment shelf.old).held (S.moment shelf.new).held
        (record { name = name; text = journal_text wiring.now journal.now })) }
    ensures fits { OnOk result (All Fits journal.now) }
    ensures faults { CountsWrites result (S.moment shelf.old) (S.moment shelf.new) }
    ensures capacity { S.capacity shelf.new ≡ S.capacity shelf.old }
    ensures unfit { OnErr result (HasRoom (S.capacity shelf.old) (S.moment shelf.old).held
        (record { name = name; text = journal_text wiring.now journal.now }) → ⊥) }
{
    match save_journal(shelf, name.text(), wiring, journal, piece) {
        Ok(()) => Ok(()),
        Err(_) => Err(name),
    }
}

fn save_summary<S: Shelf>(shelf: &mut S, output: Name, summary: &str) -> Result<(), Name>
    ensures ok { OnOk result (SavesOne (S.moment shelf.old).held (S.moment shelf.new).held
        (record { name = output; text = summary.now })) }
    ensures named { IfErr result (λ told. output ≡ told) }
    ensures err { OnErr result (BreaksOne (S.moment shelf.old).held (S.moment shelf.new).held
        (record { name = output; text = summary.now })) }
    ensures faults { CountsWrites result (S.moment shelf.old) (S.moment shelf.new) }
    ensures capacity { S.capacity shelf.new ≡ S.capacity shelf.old }
    ensures unfit { OnErr result (HasRoom (S.capacity shelf.old) (S.moment shelf.old).held
        (record { name = output; text = summary.now }) → ⊥) }
{
    match save(shelf, output.text(), summary.as_bytes()) {
        Ok(()) => Ok(()),
        Err(_) => Err(output),
    }
}

/// Saves one text: on standard output it stands behind what was there. Takes no memory, and answers the
/// name where a write failed: it is then as it was, or got a proper front of the text.
pub fn print<S: Shelf>(shelf: &mut S, output: Name, text: &str) -> Result<(), Name>
    ensures ok { OnOk result (AreSaved (S.moment shelf.old).held (S.moment shelf.new).held
        (record { name = output; text = text.now } ∷ [])) }
    ensures err { IfErr result (λ name. BreaksOff (S.moment shelf.old).held (S.moment shelf.new).held
        (record { name = output; text = text.now } ∷ []) name) }
    ensures faults { CountsWrites result (S.moment shelf.old) (S.moment shelf.new) }
    ensures capacity { S.capacity shelf.new ≡ S.capacity shelf.old }
    ensures unfit { OnErr result (HasRoom (S.capacity shelf.old) (S.moment shelf.old).held
        (record { name = output; text = text.now }) → ⊥) }
{
    save_summary(shelf, output, text)
}
