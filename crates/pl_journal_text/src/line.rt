ghost use Rattle.std.specs.Prelude.{◌≡◌, ◌≢◌, ◌∷◌, ◌++◌, [], List, ℕ, Some, IfOk, IfSome, IfNone};
ghost use Rattle.std.specs.Str.{IsUtf8};
ghost use Rattle.pl_journal.specs.Text.{line_of};
ghost use Rattle.pl_journal.specs.declared.entry.Entry.{Entry};
ghost use Rattle.pl_journal_text.specs.Fields.{IsOfVerb, fields_text};
ghost use Rattle.pl_journal_text.specs.Reading.{Reads};
ghost use Rattle.pl_journal_text.specs.Writable.{IsWritable};

use crate::from_text::cut;
use crate::rows;
use crate::verb::Verb;
use pl_journal::{Entry, Memory};
use pl_wiring::Wiring;
use std::alloc::Global;
use std::str;

/// The entry that is written as this line, with its newline; none exactly where no entry is.
pub fn read_line(alloc: Global, wiring: &Wiring, line: &[u8]) -> Result<Option<Entry>, Memory>
    ensures exact { IfOk result (Reads (line_of wiring.now) (IsWritable wiring.now) line.now) }
    ensures back { IfOk result (λ read. (entry : Entry) → IsWritable wiring.now entry →
        line.now ≡ line_of wiring.now entry → read ≡ Some entry) }
{
    let _k = wiring.k();
    entry_of(alloc, wiring, line)
}

fn entry_of(alloc: Global, wiring: &Wiring, line: &[u8]) -> Result<Option<Entry>, Memory>
    ensures { IfOk result (Reads (line_of wiring.now) (IsWritable wiring.now) line.now) }
{
    let _k = wiring.k();
    let Some(text) = text_of(line) else {
        return Ok(None);
    };
    let Some(front) = before_newline(text) else {
        return Ok(None);
    };
    let Some((word, fields)) = cut(front) else {
        return Ok(None);
    };
    let Some(verb) = Verb::named(word) else {
        return Ok(None);
    };
    read_fields(alloc, wiring, verb, fields)
}

fn text_of(line: &[u8]) -> Option<&str>
    ensures found { IfSome result (λ text. text.now ≡ line.now) }
    ensures none { IfNone result (¬ IsUtf8 line.now) }
{
    str::from_utf8(line).ok()
}

fn before_newline(text: &str) -> Option<&str>
    ensures found { IfSome result (λ front. text.now ≡ front.now ++ 10 ∷ []) }
    ensures none { IfNone result ((front : List ℕ) → text.now ≢ front ++ 10 ∷ []) }
{
    text.strip_suffix('\n')
}

// The entry with these fields behind the verb.
fn read_fields(
    alloc: Global,
    wiring: &Wiring,
    verb: Verb,
    fields: &str,
) -> Result<Option<Entry>, Memory>
    ensures { IfOk result (Reads (fields_text wiring.now) (IsOfVerb wiring.now verb) fields.now) }
{
    match verb {
        Verb::Line => rows::line(alloc, wiring, fields),
        Verb::Sent => rows::sent(alloc, wiring, fields),
        Verb::Skipped => rows::skipped(alloc, wiring, fields),
        Verb::Made => rows::made(alloc, wiring, fields),
        Verb::Crossed => rows::crossed(alloc, wiring, fields),
        Verb::Redirected => rows::redirected(alloc, wiring, fields),
        Verb::Copied => rows::copied(alloc, wiring, fields),
        Verb::Arrived => rows::arrived(alloc, wiring, fields),
        Verb::Taken => rows::taken(alloc, wiring, fields),
        Verb::Dropped => rows::dropped(alloc, wiring, fields),
        Verb::Granted => rows::granted(alloc, wiring, fields),
        Verb::Registered => rows::registered(alloc, wiring, fields),
        Verb::Freed => rows::freed(alloc, wiring, fields),
        Verb::Placed => rows::placed(alloc, wiring, fields),
        Verb::LinkDown => rows::link_down(alloc, wiring, fields),
        Verb::LinkUp => rows::link_up(alloc, wiring, fields),
        Verb::Moved => rows::moved(alloc, wiring, fields),
        Verb::Restarted => rows::restarted(alloc, wiring, fields),
        Verb::Settled => rows::settled(alloc, wiring, fields),
        Verb::Unsettled => rows::unsettled(alloc, wiring, fields),
    }
}
