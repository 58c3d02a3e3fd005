ghost use Rattle.std.specs.Prelude.{◌≡◌, ◌<◌, ◌∷◌, ◌++◌, codes, decimal, false, if◌then◌else◌, option_to_list, true, IfOk};
ghost use Rattle.std.specs.Option.{option_map};
ghost use Rattle.pl_frame.specs.Address.{ip4_text};
ghost use Rattle.pl_journal.specs.Text.{field_text, field_texts, texts};
ghost use Rattle.pl_shelf.specs.Held.{standard_output};
ghost use Rattle.pl_log_lines.specs.Pages.{Prints, behind, line_begin, line_end, more_words};
ghost use Rattle.pl_log_lines.specs.Rows.{below_line, below_of, entry_line, event_line, quoted, word_text, words_text};

use crate::row::{Row, Word, number, text};
use pl_frame::{Ip4, Memory};
use pl_journal::{Field, Words};
use pl_output::Piece;
use pl_shelf::Shelf;
use std::alloc::Global;
use std::marker::Model;

/// The name of standard output.
const OUTPUT: &str = "-";

/// Standard output as lines of words: parted by blanks, or each line as a JSON array of its words. After a write
/// that failed nothing more is written.
#[derive(Drop)]
pub struct Page<D: Shelf + Drop> {
    shelf: D,
    piece: Piece,
    json: bool,
    failed: bool,
}

impl<D: Shelf + Drop> Model for Page<D> {
    ghost use Rattle.std.specs.Prelude.{◌≡◌, ◌<◌, true};
    ghost use Rattle.pl_shelf.specs.Held.{standard_output, with_end};
    ghost use Rattle.pl_log_lines.specs.Pages.{PageView};

    ghost Value = { PageView };

    ghost view = { λ page. record {
      text = with_end ((D.moment page.shelf).held standard_output) page.piece;
      json = page.json;
      failed = page.failed;
    } };

    // Where a write failed the shelf has counted one.
    ghost invariant = { λ page. page.failed ≡ true → 0 < (D.moment page.shelf).write_faults };
}

impl<D: Shelf + Drop> Page<D> {
    #[tactic(auto, using(crate::proofs::Printing::nothing_printed))]
    pub fn new(alloc: Global, shelf: D, json: bool) -> Result<Page<D>, Memory>
        ensures text { IfOk result (λ page. page.text ≡ (D.moment shelf).held standard_output) }
        ensures form { IfOk result (λ page. page.json ≡ json) }
    {
        Ok(Page {
            shelf,
            piece: Piece::new(alloc)?,
            json,
            failed: false,
        })
    }

    /// A line of the journal, as it stands in the journal.
    pub fn print_entry(&mut self, words: &Words<'_>)
        ensures { Prints self.old self.new (entry_line self.old.json (texts words.now)) }
    {
        self.begin(b"", "journal", &text(words.word));
        self.fields(words.fields.as_slice());
        self.end();
    }

    /// The line of an event: the number of its step, and its words.
    pub(crate) fn print_event(&mut self, step: u64, words: &[Option<Word<'_>>])
        ensures { Prints self.old self.new (event_line self.old.json step (words_text words.now)) }
    {
        self.begin(b"@ ", "event", &number(step));
        self.words(words);
        self.end();
    }

    /// A line below an event.
    pub(crate) fn print_row(&mut self, row: &Row<'_>)
        ensures { Prints self.old self.new (below_line self.old.json (below_of None row.now)) }
    {
        self.begin(b"  ", "below", &text(row.verb.text()));
        self.next(&text(row.kind.text()));
        self.words(row.words.as_slice());
        self.end();
    }

    /// All is written, and the shelf is given back; whether no write failed.
    pub fn close(mut self) -> (D, bool)
        ensures failed { result.1 ≡ true → self.failed ≡ false }
        ensures text { result.1 ≡ true → (D.moment result.0).held standard_output ≡ self.text }
        ensures faults { result.1 ≡ false → 0 < (D.moment result.0).write_faults }
    {
        if self.failed {
            return (self.shelf, false);
        }
        let done = self.piece.send(&mut self.shelf, OUTPUT);
        (self.shelf, done.is_ok())
    }

    // How a line begins, with its first word.
    fn begin(&mut self, mark: &[u8], sort: &str, first: &Word<'_>)
        ensures { Prints self.old self.new (line_begin self.old.json mark.now sort.now (word_text first.now)) }
    {
        if !self.is_json() {
            self.put(mark);
            self.say(first);
            return;
        }
        self.put(b"[");
        self.quote(&text(sort));
        self.next(first);
    }

    fn end(&mut self)
        ensures { Prints self.old self.new (line_end self.old.json) }
    {
        let end = end_of(self.is_json());
        self.put(end);
    }

    // Words behind the first one.
    #[tactic(auto, using(crate::proofs::Printing::words_on, crate::proofs::Printing::words_end))]
    fn words(&mut self, words: &[Option<Word<'_>>])
        ensures { Prints self.old self.new (more_words self.old.json (words_text words.now)) }
    {
        for word in words {
            self.next_if_any(*word);
        }
    }

    #[tactic(auto, using(crate::proofs::Printing::words_on, crate::proofs::Printing::words_end))]
    fn fields(&mut self, fields: &[Option<Field<'_>>])
        ensures { Prints self.old self.new (more_words self.old.json (field_texts fields.now)) }
    {
        for field in fields {
            self.next_if_any(word_of(*field));
        }
    }

    #[tactic(auto, using(crate::proofs::Printing::one_more, crate::proofs::Printing::prints_nothing))]
    fn next_if_any(&mut self, word: Option<Word<'_>>)
        ensures { Prints self.old self.new (more_words self.old.json (option_to_list (option_map word_text word.entry))) }
    {
        let Some(word) = word else {
            return;
        };
        self.next(&word);
    }

    // A word behind the first one.
    fn next(&mut self, word: &Word<'_>)
        ensures { Prints self.old self.new (behind self.old.json (word_text word.now)) }
    {
        if !self.is_json() {
            self.put(b" ");
            self.say(word);
            return;
        }
        self.put(b",");
        self.quote(word);
    }

    // A word as a JSON string.
    fn quote(&mut self, word: &Word<'_>)
        ensures { Prints self.old self.new (quoted (word_text word.now)) }
    {
        self.put(b"\"");
        self.say(word);
        self.put(b"\"");
    }

    fn say(&mut self, word: &Word<'_>)
        ensures { Prints self.old self.new (word_text word.now) }
    {
        match word {
            Word::Field(field) => self.field(*field),
            Word::Ip(ip) => self.ip(*ip),
        }
    }

    fn ip(&mut self, ip: Ip4)
        ensures { Prints self.old self.new (ip4_text ip) }
    {
        self.number(ip.0 / 16_777_216);
        self.number_behind_point(ip.0 / 65_536 % 256);
        self.number_behind_point(ip.0 / 256 % 256);
        self.number_behind_point(ip.0 % 256);
    }

    fn number_behind_point(&mut self, n: u32)
        ensures { Prints self.old self.new (codes "." ++ decimal n) }
    {
        self.put(b".");
        self.number(n);
    }

    fn number(&mut self, n: u32)
        ensures { Prints self.old self.new (decimal n) }
    {
        self.field(Field::Number(u64::from(n)));
    }

    fn field(&mut self, field: Field<'_>)
        ensures { Prints self.old self.new (field_text field.entry) }
    {
        if self.failed {
            return;
        }
        let done = self.piece.print_field(&mut self.shelf, OUTPUT, field);
        self.failed = done.is_err();
    }

    fn is_json(&self) -> bool
        ensures { result ≡ self.now.json }
    {
        self.json
    }

    fn put(&mut self, bytes: &[u8])
        ensures { Prints self.old self.new bytes.now }
    {
        if self.failed {
            return;
        }
        let done = self.piece.print(&mut self.shelf, OUTPUT, bytes);
        self.failed = done.is_err();
    }
}

fn end_of(json: bool) -> &'static [u8]
    ensures { result.now ≡ line_end json }
{
    if json { b"]\n" } else { b"\n" }
}

fn word_of<'a>(field: Option<Field<'a>>) -> Option<Word<'a>>
    ensures { option_map word_text result ≡ option_map field_text field.entry }
{
    match field {
        None => None,
        Some(field) => Some(Word::Field(field)),
    }
}
