ghost use Rattle.std.specs.Prelude.{◌≡◌, ◌↔◌, ◌<◌, ◌≤◌, ◌++◌, ◌∷◌, [], IfOk, IfSome, IsTrue, MatchOption, OnErr, OnOk, length, replicate, slice_get, slice_set, true};
ghost use Rattle.std.specs.Option.{option_copied};
ghost use Rattle.pl_queues.specs.Queues.{filled_indices, has_items, items_at, next_filled};

use crate::lists::Lists;
use crate::{BitSet, Iter, Memory};
use std::alloc::Global;
use std::marker::Model;

/// A queue array. Contracts see the list of them, each the list of its items, the first one
/// first. A set of indices says which of them have items, so that the next of these is found at once.
#[derive(Drop)]
pub struct Queues<T> {
    queues: Lists<T>,
    filled: BitSet,
}

impl<T> Model for Queues<T> {
    ghost use Rattle.std.specs.Prelude.{◌≡◌, List, map};
    ghost use Rattle.pl_queues.specs.Queues.{has_items};

    ghost Value = { List (List T) };

    ghost view = { λ queue_array. queue_array.queues };

    ghost invariant = { λ queue_array. queue_array.filled ≡ map has_items queue_array.queues };
}

impl<T> Queues<T> {
    /// How many queues there are.
    pub fn len(&self) -> usize
        ensures { result ≡ length self.now }
    {
        self.queues.len()
    }

    pub fn len_at(&self, at: usize) -> usize
        requires { at < length self.now }
        ensures { result ≡ length (items_at self.now at) }
    {
        self.queues.len_at(at)
    }

    pub fn is_empty_at(&self, at: usize) -> bool
        requires { at < length self.now }
        ensures { IsTrue result ↔ (items_at self.now at ≡ []) }
    {
        self.queues.len_at(at) == 0
    }

    /// The items of a queue, to look at, the first one first.
    pub fn iter(&self, at: usize) -> Iter<'_, T>
        requires { at < length self.now }
        ensures { result ≡ items_at self.now at }
    {
        self.queues.iter(at)
    }

    /// The first item of a queue; none where it is empty.
    pub fn first(&self, at: usize) -> Option<&T>
        requires { at < length self.now }
        ensures { option_copied result ≡ slice_get (items_at self.now at) 0 }
    {
        self.queues.first(at)
    }

    /// The first index from `from` on whose queue has items; none where there is none.
    pub fn next_filled(&self, from: usize) -> Option<usize>
        ensures next { result ≡ next_filled self.now from }
        ensures there { IfSome result (λ at. (from ≤ at) × (at < length self.now) × (has_items (items_at self.now at) ≡ true)) }
    {
        self.filled.next(from)
    }

    /// How many queues have items, in constant time.
    pub fn filled_count(&self) -> usize
        ensures count { result ≡ length (filled_indices self.now) }
        ensures within { result ≤ length self.now }
    {
        self.filled.count()
    }

    /// Number i of the indices whose queues have items, in rising order; none past the last.
    pub fn filled_index(&self, i: usize) -> Option<usize>
        ensures number { result ≡ slice_get (filled_indices self.now) i }
        ensures there { IfSome result (λ at. at < length self.now) }
    {
        self.filled.nth(i)
    }

    /// Takes the first item of a queue; none where it is empty.
    pub fn take(&mut self, at: usize) -> Option<T>
        requires { at < length self.old }
        ensures { MatchOption result ((items_at self.old at ≡ []) × (self.new ≡ self.old))
            (λ x. (items_at self.old at ≡ x ∷ items_at self.new at) × (self.new ≡ slice_set self.old at (items_at self.new at))) }
    {
        let taken = self.queues.take(at);
        if self.queues.len_at(at) == 0 {
            self.filled.remove(at);
        }
        taken
    }

    /// Takes all items of a queue, the first one first, and puts them behind those that are there.
    pub fn clear_into(&mut self, at: usize, to: &mut Vec<T>) -> Result<(), Memory>
        requires { at < length self.old }
        ensures items { OnOk result (to.new.items ≡ to.old.items ++ items_at self.old at) }
        ensures left { OnOk result (self.new ≡ slice_set self.old at []) }
        ensures err { OnErr result ((self.new ≡ self.old) × (to.new.items ≡ to.old.items)) }
    {
        self.queues.clear_into(at, to)?;
        self.filled.remove(at);
        Ok(())
    }
}

impl<T: Drop> Queues<T> {
    // Takes all items of a queue away.
    #[tactic(auto, using(crate::proofs::QueueArrays::marks_emptied))]
    fn clear_at(&mut self, at: usize)
        requires { at < length self.old }
        ensures { self.new ≡ slice_set self.old at [] }
    {
        self.queues.clear_at(at);
        self.filled.remove(at);
    }

    /// Takes all items of all queues away.
    pub fn clear(&mut self)
        ensures { self.new ≡ replicate (length self.old) [] }
    {
        for at in 0..self.queues.len() {
            self.clear_at(at);
        }
    }

    /// As many empty queues as asked for.
    pub fn new(alloc: Global, count: usize) -> Result<Queues<T>, Memory>
        ensures { IfOk result (λ queue_array. queue_array ≡ replicate count []) }
    {
        let filled = BitSet::new(alloc, count)?;
        let queues = Lists::new(alloc, count)?;
        Ok(Queues { queues, filled })
    }

    /// Puts an item behind the last of a queue.
    #[tactic(auto, using(crate::proofs::QueueArrays::marks_put))]
    pub fn put(&mut self, at: usize, item: T) -> Result<(), Memory>
        requires { at < length self.old }
        ensures ok { OnOk result (self.new ≡ slice_set self.old at (items_at self.old at ++ item ∷ [])) }
        ensures err { OnErr result (self.new ≡ self.old) }
    {
        self.queues.put(at, item)?;
        self.filled.insert(at);
        Ok(())
    }
}
