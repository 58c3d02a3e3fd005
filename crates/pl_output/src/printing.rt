ghost use Rattle.std.specs.Prelude.{◌≡◌, ◌⊎◌, ◌++◌, All, OnOk, OnErr, codes};
ghost use Rattle.pl_shelf.specs.Held.{Same, Changes, IsCutOff, created, with_end};
ghost use Rattle.pl_shelf.specs.Capacity.{FitsBehind, IsFull};
ghost use Rattle.pl_shelf.specs.Faults.{CountsWrites};
ghost use Rattle.pl_journal.specs.Ranges.{Fits};
ghost use Rattle.pl_journal.specs.Text.{IsNamed, journal_text, parted, texts};
ghost use Rattle.pl_output.specs.Printed.{BreaksOff, IsPrinted};

pub use piece::Piece;
use pl_journal::{Entry, Journal, Words};
use pl_shelf::{SaveError, Shelf};
use pl_wiring::Wiring;

mod field;
mod hexadecimal;
mod label;
mod piece;

/// Creates the name and prints the journal to it, a line for each entry. It takes no memory: the text
/// goes out by way of the piece, whose content is forgotten. A `Fault` may come of the creation or of
/// the printing: the name is as it was, or a proper front of the text stands in it.
pub fn save_journal<S: Shelf>(
    shelf: &mut S,
    name: &str,
    wiring: &Wiring,
    journal: &Journal,
    piece: &mut Piece,
) -> Result<(), SaveError>
    requires { All (IsNamed wiring.now) journal.now }
    ensures ok { OnOk result (Changes (S.moment shelf.old).held (S.moment shelf.new).held name.now
        (with_end (created name.now ((S.moment shelf.old).held name.now)) (journal_text wiring.now journal.now))) }
    ensures err { OnErr result (Same (S.moment shelf.old).held (S.moment shelf.new).held
        ⊎ IsCutOff (S.moment shelf.old).held (S.moment shelf.new).held name.now
        (created name.now ((S.moment shelf.old).held name.now)) (journal_text wiring.now journal.now)) }
    ensures fits { OnOk result (All Fits journal.now) }
    ensures faults { CountsWrites result (S.moment shelf.old) (S.moment shelf.new) }
    ensures capacity { S.capacity shelf.new ≡ S.capacity shelf.old }
    ensures unfit { OnErr result (FitsBehind (S.capacity shelf.old name.now)
        (created name.now ((S.moment shelf.old).held name.now)) (journal_text wiring.now journal.now) → ⊥) }
{
    shelf.create(name)?;
    append_entries(shelf, name, wiring, journal.as_slice(), piece)
}

// Adds the lines of the entries at the end of what the name holds.
fn append_entries<S: Shelf>(
    shelf: &mut S,
    name: &str,
    wiring: &Wiring,
    entries: &[Entry],
    piece: &mut Piece,
) -> Result<(), SaveError>
    requires { All (IsNamed wiring.now) entries.now }
    ensures ok { OnOk result (Changes (S.moment shelf.old).held (S.moment shelf.new).held name.now
        (with_end ((S.moment shelf.old).held name.now) (journal_text wiring.now entries.now))) }
    ensures err { OnErr result (IsCutOff (S.moment shelf.old).held (S.moment shelf.new).held name.now
        ((S.moment shelf.old).held name.now) (journal_text wiring.now entries.now)) }
    ensures fits { OnOk result (All Fits entries.now) }
    ensures faults { CountsWrites result (S.moment shelf.old) (S.moment shelf.new) }
    ensures capacity { S.capacity shelf.new ≡ S.capacity shelf.old }
    ensures full { OnErr result (IsFull (S.capacity shelf.new name.now) ((S.moment shelf.new).held name.now)) }
{
    piece.clear();
    print_entries(shelf, name, wiring, entries, piece)?;
    piece.send(shelf, name)
}

fn print_entries<S: Shelf>(
    shelf: &mut S,
    name: &str,
    wiring: &Wiring,
    entries: &[Entry],
    piece: &mut Piece,
) -> Result<(), SaveError>
    requires { All (IsNamed wiring.now) entries.now }
    ensures ok { OnOk result (IsPrinted (S.moment shelf.old).held (S.moment shelf.new).held name.now
        piece.old piece.new (journal_text wiring.now entries.now)) }
    ensures err { OnErr result (BreaksOff (S.moment shelf.old).held (S.moment shelf.new).held name.now
        piece.old (journal_text wiring.now entries.now)) }
    ensures fits { OnOk result (All Fits entries.now) }
    ensures faults { CountsWrites result (S.moment shelf.old) (S.moment shelf.new) }
    ensures capacity { S.capacity shelf.new ≡ S.capacity shelf.old }
    ensures full { OnErr result (IsFull (S.capacity shelf.new name.now) ((S.moment shelf.new).held name.now)) }
{
    for entry in entries {
        print_line(shelf, name, &entry.words(wiring), piece)?;
    }
    Ok(())
}

// The words, parted by blanks, and a newline.
fn print_line<S: Shelf>(
    shelf: &mut S,
    name: &str,
    words: &Words,
    piece: &mut Piece,
) -> Result<(), SaveError>
    ensures ok { OnOk result (IsPrinted (S.moment shelf.old).held (S.moment shelf.new).held name.now
        piece.old piece.new (parted (texts words.now) ++ codes "\n")) }
    ensures err { OnErr result (BreaksOff (S.moment shelf.old).held (S.moment shelf.new).held name.now
        piece.old (parted (texts words.now) ++ codes "\n")) }
    ensures faults { CountsWrites result (S.moment shelf.old) (S.moment shelf.new) }
    ensures capacity { S.capacity shelf.new ≡ S.capacity shelf.old }
    ensures full { OnErr result (IsFull (S.capacity shelf.new name.now) ((S.moment shelf.new).held name.now)) }
{
    piece.print_words(shelf, name, words)?;
    piece.print_byte(shelf, name, b'\n')
}
