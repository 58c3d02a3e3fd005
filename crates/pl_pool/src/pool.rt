ghost use Rattle.std.specs.Prelude.{◌≡◌, ◌+◌, ◌-◌, ◌<◌, ◌≤◌, [], ◌∷◌, ◌++◌, length, max, replicate, IfErr, IfOk, IsOk, MatchOption, OnErr, OnOk, slice_set};
ghost use Rattle.std.specs.Option.{option_copied};
ghost use Rattle.pl_pool.specs.Pool.{HaveOwnKeys, IsFirst, IsFree, first_key, has_key, item_at, items_of, key_after, list_at, moved_back, with_list, without};

use crate::links::{Ends, Node};
use crate::nodes::{is_in, item_of, make_room, next_in, one_more, put_last, take_out, to_back};
use crate::{Iter, Key, Memory};
use slab::Slab;
use std::alloc::Global;
use std::marker::Model;

/// A fixed number of lists over the nodes of one slab. Contracts see each list as the pairs of key and item, the
/// first one first, and how many more pushes need no memory.
#[derive(Drop)]
pub struct Pool<T> {
    nodes: Slab<Node<T>>,
    ends: Vec<Ends>,
    spare: usize,
}

impl<T> Model for Pool<T> {
    ghost use Rattle.pl_pool.specs.Pool.{Lists, lists_code};

    ghost Value = { Lists T };

    ghost coded = { lists_code T.code };

    ghost use Rattle.pl_pool.specs.Chains.{IsPool, lists_of};

    ghost view = { λ pool. record { lists = lists_of pool.nodes pool.ends.items; spare = pool.spare } };

    ghost invariant = { λ pool. IsPool pool.nodes pool.ends.items pool.spare };
}

impl<T> Pool<T> {
    /// As many empty lists as asked for.
    pub fn new(alloc: Global, lists: u32) -> Result<Pool<T>, Memory>
        ensures { IfOk result (λ pool. pool ≡ record { lists = replicate lists []; spare = 0 }) }
    {
        let mut ends = Vec::with_capacity(alloc, lists as usize)?;
        for _ in 0..lists {
            ends.push_reserved(Ends {
                first: 0,
                last: 0,
                len: 0,
            });
        }
        Ok(Pool {
            nodes: Slab::new(alloc),
            ends,
            spare: 0,
        })
    }

    /// How many lists there are.
    pub fn lists(&self) -> usize
        ensures number { result ≡ length self.now.lists }
        ensures keys { HaveOwnKeys self.now }
    {
        self.ends.len()
    }

    /// How many more pushes need no memory.
    pub fn spare(&self) -> usize
        ensures { result ≡ self.now.spare }
    {
        self.spare
    }

    /// Makes room for at least `n` more pushes.
    pub fn reserve(&mut self, n: usize) -> Result<(), Memory>
        ensures ok { OnOk result (self.new ≡ record self.old { spare = max self.old.spare n }) }
        ensures err { OnErr result (self.new ≡ self.old) }
        ensures had { n ≤ self.old.spare → IsOk result }
    {
        if self.spare < n {
            self.nodes.reserve(n)?;
            self.spare = n;
        }
        Ok(())
    }

    pub fn len(&self, list: u32) -> usize
        requires { list < length self.now.lists }
        ensures { result ≡ length (list_at self.now list) }
    {
        self.ends[list as usize].len
    }

    /// The key of the first item; none where the list is empty.
    pub fn first(&self, list: u32) -> Option<Key>
        requires { list < length self.now.lists }
        ensures { result ≡ first_key (list_at self.now list) }
    {
        let ends = self.ends[list as usize];
        if ends.len == 0 {
            None
        } else {
            Some(Key { slot: ends.first })
        }
    }

    /// The next key; none where the key is not in that list or is its last.
    pub fn after(&self, list: u32, key: Key) -> Option<Key>
        requires { list < length self.now.lists }
        ensures { result ≡ key_after (list_at self.now list) key }
    {
        let ends = self.ends[list as usize];
        match next_in(&self.nodes, list, ends.last, key.slot) {
            None => None,
            Some(slot) => Some(Key { slot }),
        }
    }

    /// The item; none where the key is not in that list.
    pub fn get(&self, list: u32, key: Key) -> Option<&T>
        requires { list < length self.now.lists }
        ensures { option_copied result ≡ item_at (list_at self.now list) key }
    {
        item_of(&self.nodes, list, key.slot)
    }

    /// The items of a list, the first one first.
    pub fn iter(&self, list: u32) -> Iter<'_, T>
        requires { list < length self.now.lists }
        ensures { result ≡ items_of (list_at self.now list) }
    {
        let ends = self.ends[list as usize];
        Iter {
            nodes: &self.nodes,
            next: ends.first,
            left: ends.len,
        }
    }

    /// Puts an item behind the last of a list, and answers its key. Where there is no memory, the item comes back;
    /// that cannot be while something is spare.
    pub fn push_back(&mut self, list: u32, item: T) -> Result<Key, T>
        requires { list < length self.old.lists }
        ensures ok { IfOk result (λ key. self.new ≡ record { lists = slice_set self.old.lists list (list_at self.old list ++ (key, item) ∷ []); spare = self.old.spare - 1 }) }
        ensures free { IfOk result (λ key. IsFree self.old key) }
        ensures room { 0 < self.old.spare → IsOk result }
        ensures err { IfErr result (λ back. (back ≡ item) × (self.new ≡ self.old)) }
    {
        let Ok(left) = make_room(&mut self.nodes, self.spare) else {
            return Err(item);
        };
        self.spare = left;
        let slot = put_last(&mut self.nodes, &mut self.ends, list, item);
        Ok(Key { slot })
    }

    /// Takes the first item of a list; none where it is empty.
    pub fn pop_front(&mut self, list: u32) -> Option<T>
        requires { list < length self.old.lists }
        ensures { MatchOption result ((list_at self.old list ≡ []) × (self.new ≡ self.old))
            (λ item. IsFirst (list_at self.old list) item (list_at self.new list)
            × (self.new ≡ record { lists = slice_set self.old.lists list (list_at self.new list); spare = self.old.spare + 1 })) }
    {
        let ends = self.ends[list as usize];
        if ends.len == 0 {
            return None;
        }
        let item = take_out(&mut self.nodes, &mut self.ends, list, ends.first);
        self.spare = one_more(&self.nodes, self.spare);
        Some(item)
    }

    /// Takes the item under a key out of a list; none where the key is not in that list.
    pub fn unlink(&mut self, list: u32, key: Key) -> Option<T>
        requires { list < length self.old.lists }
        ensures item { result ≡ item_at (list_at self.old list) key }
        ensures left { MatchOption result (self.new ≡ self.old)
            (λ _. self.new ≡ record { lists = slice_set self.old.lists list (without (list_at self.old list) key); spare = self.old.spare + 1 }) }
    {
        if !is_in(&self.nodes, list, key.slot) {
            return None;
        }
        let item = take_out(&mut self.nodes, &mut self.ends, list, key.slot);
        self.spare = one_more(&self.nodes, self.spare);
        Some(item)
    }

    /// Moves the item under a key behind the last of its list, and answers whether the key is in that list.
    pub fn move_back(&mut self, list: u32, key: Key) -> bool
        requires { list < length self.old.lists }
        ensures there { result ≡ has_key (list_at self.old list) key }
        ensures moved { self.new ≡ with_list self.old list (moved_back (list_at self.old list) key) }
    {
        if !is_in(&self.nodes, list, key.slot) {
            return false;
        }
        to_back(&mut self.nodes, &mut self.ends, list, key.slot);
        true
    }

    /// Takes all items of a list, the first one first, and puts them behind those that are there.
    pub fn clear_into(&mut self, list: u32, to: &mut Vec<T>) -> Result<(), Memory>
        requires { list < length self.old.lists }
        ensures items { OnOk result (to.new.items ≡ to.old.items ++ items_of (list_at self.old list)) }
        ensures left { OnOk result (self.new ≡ record { lists = slice_set self.old.lists list []; spare = self.old.spare + length (list_at self.old list) }) }
        ensures err { OnErr result ((self.new ≡ self.old) × (to.new.items ≡ to.old.items)) }
    {
        to.reserve(self.len(list))?;
        while let Some(item) = self.pop_front(list) {
            to.push_reserved(item);
        }
        Ok(())
    }
}
