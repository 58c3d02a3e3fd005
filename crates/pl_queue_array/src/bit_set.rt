ghost use Rattle.std.specs.Prelude.{◌≡◌, ◌<◌, ◌≤◌, true, false, IfOk, length, replicate, slice_get, slice_set};
ghost use Rattle.pl_queue_array.specs.Bits.{is_marked, next_marked};
ghost use Rattle.pl_queue_array.specs.Tallies.{marked_indices};

use crate::tally::Tally;
use crate::words::WordSet;
use pl_lists::Memory;
use std::alloc::Global;
use std::marker::Model;

/// A set of indices below a number that stays. Contracts see a mark for each index, which is true where
/// the index is in the set. The next index of the set from one on is found in nearly constant time, and
/// the index of a number in the logarithm of how many indices there are.
#[derive(Drop)]
pub struct BitSet {
    words: WordSet,
    tally: Tally,
}

impl Model for BitSet {
    ghost use Rattle.std.specs.Prelude.{◌≡◌, Bool, List};

    ghost Value = { List Bool };

    ghost view = { λ set. set.words };

    ghost invariant = { λ set. set.tally ≡ set.words };
}

impl BitSet {
    /// The set of no index, of those below `len`.
    pub fn new(alloc: Global, len: usize) -> Result<BitSet, Memory>
        ensures { IfOk result (λ set. set ≡ replicate len false) }
    {
        let words = WordSet::new(alloc, len)?;
        let tally = Tally::new(alloc, len)?;
        Ok(BitSet { words, tally })
    }

    /// How many indices there are, in the set or not.
    pub fn len(&self) -> usize
        ensures { result ≡ length self.now }
    {
        self.words.len()
    }

    pub fn contains(&self, at: usize) -> bool
        requires { at < length self.now }
        ensures { result ≡ is_marked self.now at }
    {
        self.words.contains(at)
    }

    pub fn insert(&mut self, at: usize)
        requires { at < length self.old }
        ensures { self.new ≡ slice_set self.old at true }
    {
        self.words.insert(at);
        self.tally.set(at, true);
    }

    pub fn remove(&mut self, at: usize)
        requires { at < length self.old }
        ensures { self.new ≡ slice_set self.old at false }
    {
        self.words.remove(at);
        self.tally.set(at, false);
    }

    /// The least index of the set that is at least `from`; none where there is none.
    pub fn next(&self, from: usize) -> Option<usize>
        ensures { result ≡ next_marked self.now from }
    {
        self.words.next(from)
    }

    /// How many indices are in the set, in constant time.
    pub fn count(&self) -> usize
        ensures count { result ≡ length (marked_indices self.now) }
        ensures within { result ≤ length self.now }
    {
        self.tally.count()
    }

    /// Number i of the indices of the set, in rising order; none past the last.
    pub fn nth(&self, i: usize) -> Option<usize>
        ensures { result ≡ slice_get (marked_indices self.now) i }
    {
        self.tally.nth(i)
    }
}
