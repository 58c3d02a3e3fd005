ghost use Rattle.std.specs.Prelude.{◌≡◌, ◌↔◌, ◌<◌, [], IfOk, IsTrue, false, length, replicate, slice_index_or, slice_set, true};
ghost use Rattle.pl_bits.specs.Rows.{either_row, trues};

use crate::Memory;
use crate::words::{add_words, are_same, bit_of, count_bits, set_bit};
use std::alloc::Global;
use std::marker::Model;

/// A value for each of so many numbers, a bit each. Contracts see the list of them.
#[derive(Debug, Drop)]
pub struct Row {
    len: usize,
    words: Vec<u64>,
}

impl Model for Row {
    ghost use Rattle.std.specs.Prelude.{Bool, List};
    ghost use Rattle.pl_bits.specs.Bits.{HasWords, bits_of};

    ghost Value = { List Bool };

    ghost view = { λ row. bits_of row.words.items row.len };

    ghost invariant = { λ row. HasWords row.len row.words.items };
}

impl Row {
    /// A row of `len` values, all false.
    pub fn new(alloc: Global, len: usize) -> Result<Row, Memory>
        ensures { IfOk result (λ row. row ≡ replicate len false) }
    {
        let words = vec![in alloc; 0u64; len / 64 + 1]?;
        Ok(Row { len, words })
    }

    /// A row of no values, which takes no memory.
    pub fn none(alloc: Global) -> Row
        ensures { result ≡ [] }
    {
        Row {
            len: 0,
            words: Vec::new(alloc),
        }
    }

    /// How many values there are, true or false.
    pub fn len(&self) -> usize
        ensures { result ≡ length self.now }
    {
        self.len
    }

    /// Whether there are no values.
    pub fn is_empty(&self) -> bool
        ensures { IsTrue result ↔ (self.now ≡ []) }
    {
        self.len == 0
    }

    /// Value number i; past the last one false.
    pub fn value(&self, i: usize) -> bool
        ensures { result ≡ slice_index_or self.now i false }
    {
        i < self.len && bit_of(self.words.as_slice(), i)
    }

    /// Value number i becomes true.
    pub fn set(&mut self, i: usize)
        requires { i < length self.old }
        ensures { self.new ≡ slice_set self.old i true }
    {
        set_bit(&mut self.words, i);
    }

    /// What is true in another row becomes true here too. Of two rows that differ in length the values
    /// past the end of the shorter one are lost.
    pub fn add(&mut self, more: &Row)
        ensures { self.new ≡ either_row self.old more.now }
    {
        add_words(&mut self.words, more.words.as_slice());
        self.len = self.len.min(more.len);
    }

    /// Whether this is known to be the same as another row. Two rows that became shorter by `add` may be
    /// the same and not known to be.
    pub fn is(&self, other: &Row) -> bool
        ensures { IsTrue result → self.now ≡ other.now }
    {
        self.len == other.len && are_same(self.words.as_slice(), other.words.as_slice())
    }

    /// How many values are true.
    pub fn count(&self) -> usize
        ensures { result ≡ trues self.now }
    {
        count_bits(self.words.as_slice(), self.len)
    }
}
