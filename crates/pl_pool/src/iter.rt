use crate::links::Node;
use slab::Slab;
use std::marker::Model;

/// The items of a list that are still to come, the first one first. Contracts see the list of them.
#[derive(Drop)]
pub struct Iter<'a, T> {
    pub(crate) nodes: &'a Slab<Node<T>>,
    pub(crate) next: usize,
    pub(crate) left: usize,
}

impl<'a, T> Model for Iter<'a, T> {
    ghost use Rattle.std.specs.Prelude.{List};
    ghost use Rattle.pl_pool.specs.Chains.{AreThere, items_from};

    ghost Value = { List T };

    ghost view = { λ it. items_from it.nodes.now it.next it.left };

    ghost invariant = { λ it. AreThere it.nodes.now it.next it.left };
}

impl<'a, T> Iter<'a, T> {
    ghost use Rattle.std.specs.Prelude.{◌≡◌, length};

    /// How many are still to come.
    pub fn len(&self) -> usize
        ensures { result ≡ length self.now }
    {
        self.left
    }
}

impl<'a, T> Iterator for Iter<'a, T> {
    ghost use Rattle.std.specs.Iterator.{YieldsFirstRef, item_count};

    type Item = &'a T;

    ghost next_gives = { YieldsFirstRef (λ it. it) };

    ghost remaining = { item_count (λ it. it) };

    fn next(&mut self) -> Option<&'a T> {
        if self.left == 0 {
            return None;
        }
        let nodes = self.nodes;
        let node = &nodes[self.next];
        self.next = node.next;
        self.left -= 1;
        Some(&node.item)
    }
}
