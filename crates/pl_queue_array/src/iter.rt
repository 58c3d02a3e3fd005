use pl_lists::Queue;
use std::marker::Model;

/// The items of a queue that are still to come, the first one first. Contracts see the list of them.
#[derive(Drop)]
pub struct Iter<'a, T> {
    queue: &'a Queue<T>,
    next: usize,
}

impl<'a, T> Model for Iter<'a, T> {
    ghost use Rattle.std.specs.Prelude.{List, ◌≤◌, drop, length};

    ghost Value = { List T };

    ghost view = { λ it. drop it.next it.queue.now };

    ghost invariant = { λ it. it.next ≤ length it.queue.now };
}

impl<'a, T> Iter<'a, T> {
    ghost use Rattle.std.specs.Prelude.{◌≡◌, length};

    pub(crate) fn new(queue: &'a Queue<T>) -> Iter<'a, T>
        ensures { result ≡ queue.now }
    {
        Iter { queue, next: 0 }
    }

    /// How many are still to come.
    pub fn len(&self) -> usize
        ensures { result ≡ length self.now }
    {
        self.queue.len() - self.next
    }
}

impl<'a, T> Iterator for Iter<'a, T> {
    ghost use Rattle.std.specs.Iterator.{YieldsFirstRef, item_count};

    type Item = &'a T;

    ghost next_gives = { YieldsFirstRef (λ it. it) };

    ghost remaining = { item_count (λ it. it) };

    fn next(&mut self) -> Option<&'a T> {
        let queue = self.queue;
        let _few = queue.len();
        match queue.get(self.next) {
            Some(item) => {
                self.next += 1;
                Some(item)
            }
            None => None,
        }
    }
}
