ghost use Rattle.std.specs.Prelude.{◌≡◌, ◌<◌, ◌≤◌, ◌+◌, ◌++◌, ◌∷◌, [], cond, count_by, option_to_list, IfOk, MatchOption, OnErr, OnOk, length, replicate, slice_set};
ghost use Rattle.pl_queues.specs.Counts.{counted_in, most};
ghost use Rattle.pl_queues.specs.Queues.{items_at};

use crate::{Iter, Memory, Queues};
use pl_queues::Counted;
use std::alloc::{AllocError, Global};
use std::marker::Model;

/// A queue array that keeps how many items count. Contracts see it as they see `Queues`.
#[derive(Drop)]
pub struct CountedQueues<T: Counted> {
    queues: Queues<T>,
    counted: u64,
}

impl<T: Counted> Model for CountedQueues<T> {
    ghost use Rattle.std.specs.Prelude.{List};
    ghost use Rattle.pl_queues.specs.Counts.{IsKeptCount};

    ghost Value = { List (List T) };

    ghost view = { λ queue_array. queue_array.queues };

    ghost invariant = { λ queue_array. IsKeptCount T.counts queue_array.queues queue_array.counted };
}

impl<T: Counted> CountedQueues<T> {
    /// The queues, to look at.
    pub fn queues(&self) -> &Queues<T>
        ensures { result.now ≡ self.now }
    {
        &self.queues
    }

    /// How many items of all queues count.
    pub fn counted(&self) -> u64
        ensures counted { result ≡ counted_in T.counts self.now }
        ensures within { result ≤ most }
    {
        self.counted
    }

    /// Takes the first item of a queue; none where it is empty.
    pub fn take(&mut self, at: usize) -> Option<T>
        requires { at < length self.old }
        ensures { MatchOption result ((items_at self.old at ≡ []) × (self.new ≡ self.old))
            (λ x. (items_at self.old at ≡ x ∷ items_at self.new at) × (self.new ≡ slice_set self.old at (items_at self.new at))) }
    {
        let taken = self.queues.take(at);
        self.counted -= count_taken(&taken);
        taken
    }

    /// Takes all items of a queue, the first one first, and puts them behind those that are there.
    pub fn clear_into(&mut self, at: usize, to: &mut Vec<T>) -> Result<(), Memory>
        requires { at < length self.old }
        ensures items { OnOk result (to.new.items ≡ to.old.items ++ items_at self.old at) }
        ensures left { OnOk result (self.new ≡ slice_set self.old at []) }
        ensures err { OnErr result ((self.new ≡ self.old) × (to.new.items ≡ to.old.items)) }
    {
        let less = count_items(self.queues.iter(at));
        self.queues.clear_into(at, to)?;
        self.counted -= less;
        Ok(())
    }
}

impl<T: Counted + Drop> CountedQueues<T> {
    /// Takes all items of all queues away.
    pub fn clear(&mut self)
        ensures { self.new ≡ replicate (length self.old) [] }
    {
        self.queues.clear();
        self.counted = 0;
    }

    /// As many empty queues as asked for.
    pub fn new(alloc: Global, count: usize) -> Result<CountedQueues<T>, Memory>
        ensures { IfOk result (λ queue_array. queue_array ≡ replicate count []) }
    {
        let queues = Queues::new(alloc, count)?;
        Ok(CountedQueues { queues, counted: 0 })
    }

    /// Puts an item behind the last of a queue. Where more items would count than can be, this is as want
    /// of memory.
    pub fn put(&mut self, at: usize, item: T) -> Result<(), Memory>
        requires { at < length self.old }
        ensures ok { OnOk result (self.new ≡ slice_set self.old at (items_at self.old at ++ item ∷ [])) }
        ensures err { OnErr result (self.new ≡ self.old) }
    {
        let counted = with_one_more(self.counted, &item)?;
        self.queues.put(at, item)?;
        self.counted = counted;
        Ok(())
    }
}

const MOST: u64 = 1 << 62;

/// 1 for what counts, and 0 for what does not.
pub fn one_if(counts: bool) -> u64
    ensures { result ≡ cond counts 1 0 }
{
    if counts { 1 } else { 0 }
}

// A count, with an item more that may count.
fn with_one_more<T: Counted>(counted: u64, item: &T) -> Result<u64, Memory>
    requires { counted ≤ most }
    ensures { IfOk result (λ n. (n ≡ counted + cond (T.counts item.now) 1 0) × (n ≤ most)) }
{
    let more = counted + one_if(item.counts());
    if more > MOST {
        Err(AllocError)
    } else {
        Ok(more)
    }
}

fn count_taken<T: Counted>(taken: &Option<T>) -> u64
    ensures { result ≡ count_by T.counts (option_to_list taken.now) }
{
    match taken {
        None => 0,
        Some(item) => one_if(item.counts()),
    }
}

// How many items count.
fn count_items<T: Counted>(items: Iter<'_, T>) -> u64
    ensures { result ≡ count_by T.counts items.entry }
{
    let _few = items.len();
    let mut count = 0;
    for item in items {
        count += one_if(item.counts());
    }
    count
}
