ghost use Rattle.std.specs.Prelude.{◌≡◌, ◌==◌, ◌&&◌, ◌||◌, ◌<◌, ◌/◌, ◌%◌, ℕ, IfSome, IsTrue, OnErr, OnOk, false, true, length, not, slice_index, slice_index_or};
ghost use Rattle.std.specs.List.{list_any};
ghost use Rattle.pl_bits.specs.Bits.{has_bit, is_set};
ghost use Rattle.pl_frame.specs.declared.address.SwitchId.{SwitchId};
ghost use Rattle.pl_layouts.specs.Equality.{same_switch};
ghost use Rattle.pl_node.specs.declared.avoid_row.AvoidRow.{AvoidRow};
ghost use Rattle.pl_node.specs.Hidden.{hidden_at, hides};
ghost use Rattle.pl_node.specs.AvoidRows.{entry_of, number_of, row_has, rows_have, some_has};

use crate::Memory;
use crate::hidden::Hidden;
use pl_bits::bit_of;
use pl_frame::SwitchId;

/// What a neighbour cannot reach, a bit for each pod below 24 and position below 12.
#[derive(Clone, Copy, Debug, PartialEq, Eq)]
pub struct AvoidRow {
    pub neighbour: SwitchId,
    pub words: [u64; 5],
}

/// How many bits of a row stand for a pod and a position.
pub(crate) const NUMBERS: usize = 288;

impl AvoidRow {
    /// A row of no bits.
    pub fn of(neighbour: SwitchId) -> AvoidRow
        ensures neighbour { result.neighbour ≡ neighbour }
        ensures none { (n : ℕ) → has_bit result.words n ≡ false }
    {
        AvoidRow {
            neighbour,
            words: [0; 5],
        }
    }

    /// The number of the bit of a pod and a position, where they have one.
    pub fn number_of(pod: u16, position: u8) -> Option<usize>
        ensures number { result ≡ number_of pod position }
        ensures below { IfSome result (λ number. number < 288) }
    {
        if pod < 24 && position < 12 {
            return Some(usize::from(pod) * 12 + usize::from(position));
        }
        None
    }

    /// Whether a bit is set.
    pub fn has(&self, number: usize) -> bool
        requires { number < 288 }
        ensures { result ≡ has_bit self.now.words number }
    {
        bit_of(&self.words, number)
    }

    /// A bit that is set, if one is found.
    pub(crate) fn first(&self) -> Option<usize>
        ensures { IfSome result (λ n. (n < 288) × (has_bit self.now.words n ≡ true)) }
    {
        for word in 0..5 {
            if let Some(number) = self.first_in(word) {
                return Some(number);
            }
        }
        None
    }

    fn first_in(&self, word: usize) -> Option<usize>
        requires { word < 5 }
        ensures { IfSome result (λ n. (n < 288) × (has_bit self.now.words n ≡ true)) }
    {
        let number = word * 64 + self.words[word].trailing_zeros() as usize;
        if number < NUMBERS && self.has(number) {
            return Some(number);
        }
        None
    }

    /// Whether a word of it has no bit.
    pub(crate) fn is_clear(&self, word: usize) -> bool
        requires { word < 5 }
        ensures { IsTrue result → slice_index self.now.words word ≡ 0 }
    {
        self.words[word] == 0
    }

    /// What a bit stands for.
    pub(crate) fn entry(&self, number: usize) -> (SwitchId, u16, u8)
        requires { number < 288 }
        ensures { result ≡ entry_of self.now.neighbour number }
    {
        (self.neighbour, (number / 12) as u16, (number % 12) as u8)
    }

    /// The row with one more bit.
    pub fn with(self, number: usize) -> AvoidRow
        requires { number < 288 }
        ensures neighbour { result.neighbour ≡ self.neighbour }
        ensures bits { (n : ℕ) → has_bit result.words n ≡ ((n == number) || has_bit self.words n) }
    {
        let mut words = self.words;
        words[number / 64] |= 1 << (number % 64);
        AvoidRow {
            neighbour: self.neighbour,
            words,
        }
    }

    /// The row without the bits of another.
    pub(crate) fn without(&self, other: &AvoidRow) -> AvoidRow
        ensures neighbour { result.neighbour ≡ self.now.neighbour }
        ensures bits { (n : ℕ) → n < 288 → has_bit result.words n ≡ (has_bit self.now.words n && not (has_bit other.now.words n)) }
    {
        AvoidRow {
            neighbour: self.neighbour,
            words: words_without(&self.words, &other.words),
        }
    }
}

impl AvoidRow {
    /// The row without what is hidden.
    pub(crate) fn shown(&self, hidden: Option<Hidden>) -> AvoidRow
        ensures neighbour { result.neighbour ≡ self.now.neighbour }
        ensures bits { (n : ℕ) → n < 288 → has_bit result.words n ≡ (has_bit self.now.words n && not (hidden_at hidden (n / 12) (n % 12))) }
    {
        match hidden {
            Some(hidden) => self.without(&AvoidRow::hiding(self.neighbour, hidden)),
            None => *self,
        }
    }

    // The bits of what is hidden.
    fn hiding(neighbour: SwitchId, hidden: Hidden) -> AvoidRow
        ensures neighbour { result.neighbour ≡ neighbour }
        ensures bits { (n : ℕ) → n < 288 → has_bit result.words n ≡ hides hidden (n / 12) (n % 12) }
    {
        let none = AvoidRow::of(neighbour);
        match hidden.position {
            Some(position) => with_address(none, hidden.pod, position),
            None => with_pod(none, hidden.pod),
        }
    }
}

// The row with the bit of a pod and a position, if they have one.
fn with_address(row: AvoidRow, pod: u16, position: u8) -> AvoidRow
    ensures neighbour { result.neighbour ≡ row.neighbour }
    ensures bits { (n : ℕ) → n < 288 → has_bit result.words n ≡ (((pod == n / 12) && (position == n % 12)) || has_bit row.words n) }
{
    match AvoidRow::number_of(pod, position) {
        Some(number) => row.with(number),
        None => row,
    }
}

// The row with the bits of all positions of a pod.
fn with_pod(row: AvoidRow, pod: u16) -> AvoidRow
    ensures neighbour { result.neighbour ≡ row.neighbour }
    ensures bits { (n : ℕ) → n < 288 → has_bit result.words n ≡ ((pod == n / 12) || has_bit row.words n) }
{
    let mut row = row;
    for position in 0..12u8 {
        row = with_address(row, pod, position);
    }
    row
}

fn words_without(words: &[u64; 5], others: &[u64; 5]) -> [u64; 5]
    ensures { (i bit : ℕ) → i < 5 → bit < 64 → is_set (slice_index result i) bit
        ≡ (is_set (slice_index words.now i) bit && not (is_set (slice_index others.now i) bit)) }
{
    let mut left = *words;
    for i in 0..5 {
        left[i] = bits_without(words[i], others[i]);
    }
    left
}

fn bits_without(word: u64, other: u64) -> u64
    ensures { (bit : ℕ) → bit < 64 → is_set result bit ≡ (is_set word bit && not (is_set other bit)) }
{
    word & !other
}

/// Sets a bit in the row of a neighbour.
pub(crate) fn put(
    rows: &mut Vec<AvoidRow>,
    neighbour: SwitchId,
    number: usize,
) -> Result<(), Memory>
    requires { number < 288 }
    ensures ok { OnOk result ((u : SwitchId) (n : ℕ) → list_any (row_has u n) rows.new.items
        ≡ ((same_switch neighbour u && (n == number)) || list_any (row_has u n) rows.old.items)) }
    ensures err { OnErr result (rows.new.items ≡ rows.old.items) }
{
    match row_at(rows.as_slice(), neighbour) {
        Some(i) => {
            set_at(rows, i, neighbour, number);
            Ok(())
        }
        None => {
            rows.push(AvoidRow::of(neighbour).with(number))?;
            Ok(())
        }
    }
}

// The same in the row at an index, which is that neighbour's.
fn set_at(rows: &mut Vec<AvoidRow>, i: usize, neighbour: SwitchId, number: usize)
    requires number { number < 288 }
    requires row { i < length rows.old.items }
    requires neighbour { (d : AvoidRow) → (slice_index_or rows.old.items i d).neighbour ≡ neighbour }
    ensures { (u : SwitchId) (n : ℕ) → list_any (row_has u n) rows.new.items
        ≡ ((same_switch neighbour u && (n == number)) || list_any (row_has u n) rows.old.items) }
{
    rows[i] = rows[i].with(number);
}

// The row of a neighbour.
fn row_at(rows: &[AvoidRow], neighbour: SwitchId) -> Option<usize>
    ensures { IfSome result (λ i. (i < length rows.now) × ((d : AvoidRow) → (slice_index_or rows.now i d).neighbour ≡ neighbour)) }
{
    for i in 0..rows.len() {
        if rows[i].neighbour == neighbour {
            return Some(i);
        }
    }
    None
}

/// Whether some row has an entry.
pub(crate) fn rows_have(rows: &[AvoidRow], entry: (SwitchId, u16, u8)) -> bool
    ensures { result ≡ rows_have entry.0 (number_of entry.1 entry.2) rows.now }
{
    match AvoidRow::number_of(entry.1, entry.2) {
        Some(number) => has_number(rows, entry.0, number),
        None => false,
    }
}

fn has_number(rows: &[AvoidRow], neighbour: SwitchId, number: usize) -> bool
    requires { number < 288 }
    ensures { result ≡ list_any (row_has neighbour number) rows.now }
{
    for row in rows {
        if row_has(row, neighbour, number) {
            return true;
        }
    }
    false
}

fn row_has(row: &AvoidRow, neighbour: SwitchId, number: usize) -> bool
    requires { number < 288 }
    ensures { result ≡ row_has neighbour number row.now }
{
    row.neighbour.0 == neighbour.0 && row.has(number)
}

/// Whether some row has a bit, if there is one.
pub(crate) fn some_has(rows: &[AvoidRow], number: Option<usize>) -> bool
    requires { IfSome number (λ n. n < 288) }
    ensures { result ≡ some_has number rows.now }
{
    match number {
        Some(number) => some_has_bit(rows, number),
        None => false,
    }
}

fn some_has_bit(rows: &[AvoidRow], number: usize) -> bool
    requires { number < 288 }
    ensures { result ≡ list_any (λ row. has_bit row.words number) rows.now }
{
    for row in rows {
        if row.has(number) {
            return true;
        }
    }
    false
}
