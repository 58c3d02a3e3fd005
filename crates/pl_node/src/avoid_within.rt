ghost use Rattle.std.specs.Prelude.{◌≡◌, ◌↔◌, ◌+◌, ◌-◌, ◌*◌, ◌&&◌, ◌||◌, ◌<◌, ◌≤◌, min, not, IsTrue};
ghost use Rattle.std.specs.List.{list_any, range_with_len};
ghost use Rattle.pl_node.specs.AvoidRows.{AreApart, AreListed, entries_of, is_listed, listed_in, stands_for};
ghost use Rattle.pl_node.specs.Hidden.{hidden_at, shown};

use crate::AvoidBits;
use crate::avoid_row::{AvoidRow, NUMBERS};
use crate::hidden::{Hidden, hidden_at};
use pl_frame::SwitchId;

/// Whether another list has all that rows and the entries beside them have and that is not hidden.
pub(crate) fn are_within(
    rows: &[AvoidRow],
    others: &[(SwitchId, u16, u8)],
    hidden: Option<Hidden>,
    other: &AvoidBits,
) -> bool
    ensures { IsTrue result ↔ AreListed (λ x. is_listed x (shown hidden (listed_in rows.now others.now))) other.now }
{
    are_rows_within(rows, hidden, other) && are_others_within(others, hidden, other)
}

fn are_rows_within(rows: &[AvoidRow], hidden: Option<Hidden>, other: &AvoidBits) -> bool
    ensures { IsTrue result ↔ AreListed
        (λ x. list_any (λ row. is_listed x (entries_of row)) rows.now && not (hidden_at hidden x.1 x.2)) other.now }
{
    for row in rows {
        if !is_row_within(&row.shown(hidden), other) {
            return false;
        }
    }
    true
}

fn is_row_within(row: &AvoidRow, other: &AvoidBits) -> bool
    ensures { IsTrue result ↔ AreListed (λ x. is_listed x (entries_of row.now)) other.now }
{
    other.has_row(row) || is_beyond_within(row, other)
}

// The same by the bits beyond those of the other list.
fn is_beyond_within(row: &AvoidRow, other: &AvoidBits) -> bool
    ensures { IsTrue result ↔ AreListed (λ x. is_listed x (entries_of row.now)) other.now }
{
    is_all_within(&other.beyond(row), other)
}

// The same by its bits, of which one is tried first: mostly a list that has not all of them lacks that one.
fn is_all_within(row: &AvoidRow, other: &AvoidBits) -> bool
    ensures { IsTrue result ↔ AreListed (λ x. is_listed x (entries_of row.now)) other.now }
{
    is_first_within(row, other) && are_numbers_within(row, other)
}

fn is_first_within(row: &AvoidRow, other: &AvoidBits) -> bool
    ensures { AreListed (λ x. is_listed x (entries_of row.now)) other.now → IsTrue result }
{
    match row.first() {
        Some(number) => is_number_within(row, number, other),
        None => true,
    }
}

fn are_numbers_within(row: &AvoidRow, other: &AvoidBits) -> bool
    ensures { IsTrue result ↔ AreListed (λ x. is_listed x (entries_of row.now)) other.now }
{
    for word in 0..5 {
        if !is_word_within(row, word, other) {
            return false;
        }
    }
    true
}

// The same by one word of the bits.
fn is_word_within(row: &AvoidRow, word: usize, other: &AvoidBits) -> bool
    requires { word < 5 }
    ensures { IsTrue result ↔ AreListed
        (λ x. list_any (stands_for row.now x) (range_with_len (word * 64) (min (word * 64 + 64) 288 - word * 64))) other.now }
{
    row.is_clear(word) || is_range_within(row, word * 64, (word * 64 + 64).min(NUMBERS), other)
}

fn is_range_within(row: &AvoidRow, from: usize, end: usize, other: &AvoidBits) -> bool
    requires order { from ≤ end }
    requires within { end ≤ 288 }
    ensures { IsTrue result ↔ AreListed (λ x. list_any (stands_for row.now x) (range_with_len from (end - from))) other.now }
{
    for number in from..end {
        if !is_number_within(row, number, other) {
            return false;
        }
    }
    true
}

fn is_number_within(row: &AvoidRow, number: usize, other: &AvoidBits) -> bool
    requires { number < 288 }
    ensures { IsTrue result ↔ AreListed (λ x. stands_for row.now x number) other.now }
{
    !row.has(number) || other.contains(&row.entry(number))
}

fn are_others_within(
    others: &[(SwitchId, u16, u8)],
    hidden: Option<Hidden>,
    other: &AvoidBits,
) -> bool
    ensures { IsTrue result ↔ AreListed (λ x. is_listed x others.now && not (hidden_at hidden x.1 x.2)) other.now }
{
    for entry in others {
        if !is_other_within(entry, hidden, other) {
            return false;
        }
    }
    true
}

fn is_other_within(entry: &(SwitchId, u16, u8), hidden: Option<Hidden>, other: &AvoidBits) -> bool
    ensures { result ≡ (hidden_at hidden entry.now.1 entry.now.2 || is_listed entry.now other.now) }
{
    hidden_at(hidden, entry.1, entry.2) || other.contains(entry)
}

/// Whether rows and the entries beside them show nothing that is hidden elsewhere.
pub(crate) fn are_apart(
    rows: &[AvoidRow],
    others: &[(SwitchId, u16, u8)],
    hidden: Option<Hidden>,
    also: Option<Hidden>,
) -> bool
    ensures { IsTrue result ↔ AreApart (λ x. is_listed x (shown hidden (listed_in rows.now others.now))) also }
{
    are_rows_apart(rows, hidden, also) && are_others_apart(others, hidden, also)
}

fn are_rows_apart(rows: &[AvoidRow], hidden: Option<Hidden>, also: Option<Hidden>) -> bool
    ensures { IsTrue result ↔ AreApart
        (λ x. list_any (λ row. is_listed x (entries_of row)) rows.now && not (hidden_at hidden x.1 x.2)) also }
{
    for row in rows {
        if !is_row_apart(&row.shown(hidden), also) {
            return false;
        }
    }
    true
}

fn is_row_apart(row: &AvoidRow, also: Option<Hidden>) -> bool
    ensures { IsTrue result ↔ AreApart (λ x. is_listed x (entries_of row.now)) also }
{
    for number in 0..NUMBERS {
        if !is_number_apart(row, number, also) {
            return false;
        }
    }
    true
}

fn is_number_apart(row: &AvoidRow, number: usize, also: Option<Hidden>) -> bool
    requires { number < 288 }
    ensures { IsTrue result ↔ AreApart (λ x. stands_for row.now x number) also }
{
    !row.has(number) || is_clear_of(row.entry(number), also)
}

// Whether an entry is not hidden.
fn is_clear_of(entry: (SwitchId, u16, u8), also: Option<Hidden>) -> bool
    ensures { result ≡ not (hidden_at also entry.1 entry.2) }
{
    !hidden_at(also, entry.1, entry.2)
}

fn are_others_apart(
    others: &[(SwitchId, u16, u8)],
    hidden: Option<Hidden>,
    also: Option<Hidden>,
) -> bool
    ensures { IsTrue result ↔ AreApart (λ x. is_listed x others.now && not (hidden_at hidden x.1 x.2)) also }
{
    for entry in others {
        if !is_other_apart(entry, hidden, also) {
            return false;
        }
    }
    true
}

fn is_other_apart(entry: &(SwitchId, u16, u8), hidden: Option<Hidden>, also: Option<Hidden>) -> bool
    ensures { result ≡ (hidden_at hidden entry.now.1 entry.now.2 || not (hidden_at also entry.now.1 entry.now.2)) }
{
    hidden_at(hidden, entry.1, entry.2) || is_clear_of(*entry, also)
}
