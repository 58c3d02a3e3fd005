ghost use Rattle.std.specs.Prelude.{◌≡◌, ◌<◌, ◌++◌, ◌∷◌, [], IfOk, MatchOption, OnErr, OnOk, length, replicate, slice_get, slice_set};
ghost use Rattle.std.specs.Option.{option_copied};
ghost use Rattle.pl_queues.specs.Queues.{items_at, put_at};

use crate::Iter;
use pl_lists::{Memory, Queue};
use std::alloc::Global;
use std::marker::Model;

/// Lists side by side, each a ring of its own. Contracts see the list of them, each the list of its items, the
/// first one first.
#[derive(Drop)]
pub(crate) struct Lists<T> {
    lists: Vec<Queue<T>>,
}

impl<T> Model for Lists<T> {
    ghost use Rattle.std.specs.Prelude.{List};

    ghost Value = { List (List T) };

    ghost view = { λ all. all.lists.items };
}

impl<T> Lists<T> {
    pub(crate) fn len(&self) -> usize
        ensures { result ≡ length self.now }
    {
        self.lists.len()
    }

    pub(crate) fn len_at(&self, at: usize) -> usize
        requires { at < length self.now }
        ensures { result ≡ length (items_at self.now at) }
    {
        self.lists[at].len()
    }

    /// The items of a list, the first one first.
    pub(crate) fn iter(&self, at: usize) -> Iter<'_, T>
        requires { at < length self.now }
        ensures { result ≡ items_at self.now at }
    {
        Iter::new(&self.lists[at])
    }

    /// The first item of a list; none where it is empty.
    pub(crate) fn first(&self, at: usize) -> Option<&T>
        requires { at < length self.now }
        ensures { option_copied result ≡ slice_get (items_at self.now at) 0 }
    {
        self.lists[at].get(0)
    }

    /// Takes the first item of a list; none where it is empty.
    pub(crate) fn take(&mut self, at: usize) -> Option<T>
        requires { at < length self.old }
        ensures { MatchOption result ((items_at self.old at ≡ []) × (self.new ≡ self.old))
            (λ x. (items_at self.old at ≡ x ∷ items_at self.new at) × (self.new ≡ slice_set self.old at (items_at self.new at))) }
    {
        let list = &mut self.lists[at];
        let taken = list.take_first();
        list.give_back();
        taken
    }

    /// Takes all items of a list, the first one first, and puts them behind those that are there.
    pub(crate) fn clear_into(&mut self, at: usize, to: &mut Vec<T>) -> Result<(), Memory>
        requires { at < length self.old }
        ensures items { OnOk result (to.new.items ≡ to.old.items ++ items_at self.old at) }
        ensures left { OnOk result (self.new ≡ slice_set self.old at []) }
        ensures err { OnErr result ((self.new ≡ self.old) × (to.new.items ≡ to.old.items)) }
    {
        move_all(&mut self.lists[at], to)
    }
}

impl<T: Drop> Lists<T> {
    /// Takes all items of a list away.
    pub(crate) fn clear_at(&mut self, at: usize)
        requires { at < length self.old }
        ensures { self.new ≡ slice_set self.old at [] }
    {
        self.lists[at].clear();
    }

    /// As many empty lists as asked for.
    pub(crate) fn new(alloc: Global, count: usize) -> Result<Lists<T>, Memory>
        ensures { IfOk result (λ all. all ≡ replicate count []) }
    {
        let mut lists = Vec::with_capacity(alloc, count)?;
        for _ in 0..count {
            lists.push(Queue::new(alloc))?;
        }
        Ok(Lists { lists })
    }

    /// Puts an item behind the last of a list.
    pub(crate) fn put(&mut self, at: usize, item: T) -> Result<(), Memory>
        requires { at < length self.old }
        ensures ok { OnOk result (self.new ≡ put_at self.old at item) }
        ensures err { OnErr result (self.new ≡ self.old) }
    {
        self.lists[at].push(item)
    }
}

// All items of a queue are put behind those that are there.
fn move_all<T>(queue: &mut Queue<T>, to: &mut Vec<T>) -> Result<(), Memory>
    ensures items { OnOk result (to.new.items ≡ to.old.items ++ queue.old) }
    ensures left { OnOk result (queue.new ≡ []) }
    ensures err { OnErr result ((queue.new ≡ queue.old) × (to.new.items ≡ to.old.items)) }
{
    to.reserve(queue.len())?;
    while let Some(item) = queue.take_first() {
        to.push_reserved(item);
    }
    queue.give_back();
    Ok(())
}
