ghost use Rattle.std.specs.Prelude.{◌≡◌, ◌+◌, ◌≤◌, ◌∷◌, ◌++◌, OnOk, OnErr, codes, decimal, length};
ghost use Rattle.pl_shelf.specs.Capacity.{IsFull};
ghost use Rattle.pl_shelf.specs.Faults.{CountsWrites};
ghost use Rattle.pl_wiring.specs.Labels.{label_text};
ghost use Rattle.pl_output.specs.Printed.{BreaksOff, IsPrinted};

use crate::printing::Piece;
use pl_shelf::{SaveError, Shelf};
use pl_wiring::Label;

/// How many digits a number of 64 bits has at the most.
const NUMBER_LEN: usize = 20;

/// A letter, two numbers and the point between them.
const LABEL_LEN: usize = 2 + 2 * NUMBER_LEN;

impl Piece {
    /// Prints a label, as `e0.1`.
    pub fn print_label<S: Shelf>(
        &mut self,
        shelf: &mut S,
        name: &str,
        label: Label,
    ) -> Result<(), SaveError>
        ensures ok { OnOk result (IsPrinted (S.moment shelf.old).held (S.moment shelf.new).held name.now
            self.old self.new (label_text label)) }
        ensures err { OnErr result (BreaksOff (S.moment shelf.old).held (S.moment shelf.new).held name.now
            self.old (label_text label)) }
        ensures faults { CountsWrites result (S.moment shelf.old) (S.moment shelf.new) }
        ensures capacity { S.capacity shelf.new ≡ S.capacity shelf.old }
        ensures full { OnErr result (IsFull (S.capacity shelf.new name.now) ((S.moment shelf.new).held name.now)) }
    {
        self.make_room(shelf, name, LABEL_LEN)?;
        self.put_label(label);
        Ok(())
    }

    // Puts a label there.
    fn put_label(&mut self, label: Label)
        requires { length self.old + 42 ≤ 65536 }
        ensures { self.new ≡ self.old ++ label_text label }
    {
        let (letter, first, second) = parts(label);
        self.put_byte(letter);
        self.put_number(first);
        self.put_byte(b'.');
        self.put_number(second);
    }

    /// Prints a number in decimal.
    pub fn print_number<S: Shelf>(
        &mut self,
        shelf: &mut S,
        name: &str,
        n: u64,
    ) -> Result<(), SaveError>
        ensures ok { OnOk result (IsPrinted (S.moment shelf.old).held (S.moment shelf.new).held name.now
            self.old self.new (decimal n)) }
        ensures err { OnErr result (BreaksOff (S.moment shelf.old).held (S.moment shelf.new).held name.now
            self.old (decimal n)) }
        ensures faults { CountsWrites result (S.moment shelf.old) (S.moment shelf.new) }
        ensures capacity { S.capacity shelf.new ≡ S.capacity shelf.old }
        ensures full { OnErr result (IsFull (S.capacity shelf.new name.now) ((S.moment shelf.new).held name.now)) }
    {
        self.make_room(shelf, name, NUMBER_LEN)?;
        self.put_number(n);
        Ok(())
    }

    // Puts a number there. Most numbers of a label have one digit.
    fn put_number(&mut self, n: u64)
        requires { length self.old + 20 ≤ 65536 }
        ensures text { self.new ≡ self.old ++ decimal n }
        ensures short { length self.new ≤ length self.old + 20 }
    {
        if n < 10 {
            self.put_byte(b'0' + n as u8);
            return;
        }
        let mut buffer = itoa::Buffer::new();
        self.put(buffer.format(n).as_bytes());
    }
}

// The letter of a kind of switches, and the two numbers of a label.
fn parts(label: Label) -> (u8, u64, u64)
    ensures { label_text label ≡ result.0 ∷ decimal result.1 ++ codes "." ++ decimal result.2 }
{
    match label {
        Label::Edge(pod, number) => (b'e', u64::from(pod), u64::from(number)),
        Label::Aggregation(pod, number) => (b'a', u64::from(pod), u64::from(number)),
        Label::Core(group, number) => (b'c', u64::from(group), u64::from(number)),
    }
}
