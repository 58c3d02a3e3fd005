ghost use Rattle.std.specs.Prelude.{◌≡◌, ℕ, ◌^◌, ◌<◌, ◌==◌, true, false, IfOk, IfSome, length, not, replicate, slice_index, slice_set};
ghost use Rattle.pl_bits.specs.Bits.{has_bit, is_set};
ghost use Rattle.pl_queue_array.specs.Bits.{is_marked, next_marked, IsLeast, IsNextIndex};

use pl_bits::{bit_of, clear_bit, set_bit};
use pl_lists::Memory;
use std::alloc::Global;
use std::marker::Model;

/// A set of indices below a number that stays, seen as a mark for each index. A bit of `filled` stands for
/// a word of `words` that is not 0, so that the next index is found without a look at each word.
#[derive(Drop)]
pub(crate) struct WordSet {
    len: usize,
    words: Vec<u64>,
    filled: Vec<u64>,
}

impl Model for WordSet {
    ghost use Rattle.std.specs.Prelude.{Bool, List};
    ghost use Rattle.pl_bits.specs.Bits.{bits_of};
    ghost use Rattle.pl_queue_array.specs.Bits.{IsTwoLevel};

    ghost Value = { List Bool };

    ghost view = { λ set. bits_of set.words.items set.len };

    ghost invariant = { λ set. IsTwoLevel set.len set.words.items set.filled.items };
}

impl WordSet {
    /// The set of no index, of those below `len`.
    pub(crate) fn new(alloc: Global, len: usize) -> Result<WordSet, Memory>
        ensures { IfOk result (λ set. set ≡ replicate len false) }
    {
        let words = vec![in alloc; 0u64; len / 64 + 1]?;
        let filled = vec![in alloc; 0u64; len / 4096 + 1]?;
        Ok(WordSet { len, words, filled })
    }

    /// How many indices there are, in the set or not.
    pub(crate) fn len(&self) -> usize
        ensures { result ≡ length self.now }
    {
        self.len
    }

    pub(crate) fn contains(&self, at: usize) -> bool
        requires { at < length self.now }
        ensures { result ≡ is_marked self.now at }
    {
        bit_of(self.words.as_slice(), at)
    }

    pub(crate) fn insert(&mut self, at: usize)
        requires { at < length self.old }
        ensures { self.new ≡ slice_set self.old at true }
    {
        set_bit(&mut self.words, at);
        set_bit(&mut self.filled, at / 64);
    }

    pub(crate) fn remove(&mut self, at: usize)
        requires { at < length self.old }
        ensures { self.new ≡ slice_set self.old at false }
    {
        clear_bit(&mut self.words, at);
        if self.words[at / 64] == 0 {
            clear_bit(&mut self.filled, at / 64);
        }
    }

    /// The least index of the set that is at least `from`; none where there is none.
    pub(crate) fn next(&self, from: usize) -> Option<usize>
        ensures { result ≡ next_marked self.now from }
    {
        if from >= self.len {
            return None;
        }
        next_of_two_levels(self.words.as_slice(), self.filled.as_slice(), from)
    }
}

// The lowest bit that is set in a word that is not 0.
fn lowest_bit(word: u64) -> usize
    requires { 0 < word }
    ensures least { IsLeast (is_set word) 0 result }
    ensures within { result < 64 }
{
    word.trailing_zeros() as usize
}

// The lowest bit from `from` on that is set in a word.
fn next_in_word(word: u64, from: usize) -> Option<usize>
    requires { from < 64 }
    ensures next { IsNextIndex (is_set word) from result }
    ensures within { IfSome result (λ bit. bit < 64) }
{
    let left = word >> from;
    if left == 0 {
        return None;
    }
    Some(from + lowest_bit(left))
}

// The lowest bit from `from` on that is set in a row of words, found by a look at each word.
fn next_of_words(words: &[u64], from: usize) -> Option<usize>
    requires { (at : ℕ) → has_bit words.now at ≡ true → at < 2 ^ 64 }
    ensures { IsNextIndex (has_bit words.now) from result }
{
    let first = from / 64;
    if first >= words.len() {
        return None;
    }
    if let Some(bit) = next_in_word(words[first], from % 64) {
        return Some(first * 64 + bit);
    }
    for word in first + 1..words.len() {
        if words[word] != 0 {
            let bit = lowest_bit(words[word]);
            return Some(word * 64 + bit);
        }
    }
    None
}

// The same, found by a look at the words above.
fn next_of_two_levels(words: &[u64], filled: &[u64], from: usize) -> Option<usize>
    requires within { (at : ℕ) → has_bit words.now at ≡ true → at < 2 ^ 64 }
    requires small { length words.now < 2 ^ 64 }
    requires summary { (word : ℕ) → has_bit filled.now word ≡ not (slice_index words.now word == 0) }
    ensures { IsNextIndex (has_bit words.now) from result }
{
    let first = from / 64;
    if first >= words.len() {
        return None;
    }
    if let Some(bit) = next_in_word(words[first], from % 64) {
        return Some(first * 64 + bit);
    }
    match next_of_words(filled, first + 1) {
        Some(word) => {
            let bit = lowest_bit(words[word]);
            Some(word * 64 + bit)
        }
        None => None,
    }
}
