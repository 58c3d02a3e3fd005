ghost use Rattle.std.specs.Prelude.{◌≡◌, OnOk, OnErr};
ghost use Rattle.pl_shelf.specs.Capacity.{IsFull};
ghost use Rattle.pl_shelf.specs.Faults.{CountsWrites};
ghost use Rattle.pl_journal.specs.Text.{field_text, parted, text_after_blank, texts};
ghost use Rattle.pl_output.specs.Printed.{BreaksOff, IsPrinted};

use crate::printing::Piece;
use pl_journal::{Field, Words};
use pl_shelf::{SaveError, Shelf};

impl Piece {
    /// Prints the words, parted by blanks.
    pub fn print_words<S: Shelf>(
        &mut self,
        shelf: &mut S,
        name: &str,
        words: &Words,
    ) -> Result<(), SaveError>
        ensures ok { OnOk result (IsPrinted (S.moment shelf.old).held (S.moment shelf.new).held name.now
            self.old self.new (parted (texts words.now))) }
        ensures err { OnErr result (BreaksOff (S.moment shelf.old).held (S.moment shelf.new).held name.now
            self.old (parted (texts words.now))) }
        ensures faults { CountsWrites result (S.moment shelf.old) (S.moment shelf.new) }
        ensures capacity { S.capacity shelf.new ≡ S.capacity shelf.old }
        ensures full { OnErr result (IsFull (S.capacity shelf.new name.now) ((S.moment shelf.new).held name.now)) }
    {
        self.print(shelf, name, words.word.as_bytes())?;
        for field in words.fields.as_slice() {
            self.print_after_blank(shelf, name, *field)?;
        }
        Ok(())
    }

    // A field behind a blank, or nothing.
    fn print_after_blank<S: Shelf>(
        &mut self,
        shelf: &mut S,
        name: &str,
        field: Option<Field>,
    ) -> Result<(), SaveError>
        ensures ok { OnOk result (IsPrinted (S.moment shelf.old).held (S.moment shelf.new).held name.now
            self.old self.new (text_after_blank field.entry)) }
        ensures err { OnErr result (BreaksOff (S.moment shelf.old).held (S.moment shelf.new).held name.now
            self.old (text_after_blank field.entry)) }
        ensures faults { CountsWrites result (S.moment shelf.old) (S.moment shelf.new) }
        ensures capacity { S.capacity shelf.new ≡ S.capacity shelf.old }
        ensures full { OnErr result (IsFull (S.capacity shelf.new name.now) ((S.moment shelf.new).held name.now)) }
    {
        match field {
            None => Ok(()),
            Some(field) => {
                self.print_byte(shelf, name, b' ')?;
                self.print_field(shelf, name, field)
            }
        }
    }

    pub fn print_field<S: Shelf>(
        &mut self,
        shelf: &mut S,
        name: &str,
        field: Field,
    ) -> Result<(), SaveError>
        ensures ok { OnOk result (IsPrinted (S.moment shelf.old).held (S.moment shelf.new).held name.now
            self.old self.new (field_text field.entry)) }
        ensures err { OnErr result (BreaksOff (S.moment shelf.old).held (S.moment shelf.new).held name.now
            self.old (field_text field.entry)) }
        ensures faults { CountsWrites result (S.moment shelf.old) (S.moment shelf.new) }
        ensures capacity { S.capacity shelf.new ≡ S.capacity shelf.old }
        ensures full { OnErr result (IsFull (S.capacity shelf.new name.now) ((S.moment shelf.new).held name.now)) }
    {
        match field {
            Field::Number(n) => self.print_number(shelf, name, n),
            Field::Unknown => self.print_byte(shelf, name, b'-'),
            Field::Address(mac) => self.print_address(shelf, name, mac),
            Field::Switch(label) => self.print_label(shelf, name, label),
            Field::Text(text) => self.print(shelf, name, text.as_bytes()),
            Field::Bytes(bytes) => self.print_hexadecimal(shelf, name, bytes),
        }
    }
}
