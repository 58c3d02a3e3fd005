//! The lists of a pool as chains in one slab: a node comes to a list, leaves it, or goes to its end.
ghost use Rattle.std.specs.Prelude.{◌≡◌, ◌↔◌, ℕ, ◌+◌, ◌-◌, ◌<◌, ◌≤◌, List, [], ◌∷◌, ◌++◌, length, None, Some, IfOk, IsOk, IsTrue, slice_index_or, slice_set};
ghost use Rattle.std.specs.Option.{option_copied};
ghost use Rattle.slab.specs.Slab.{HasRoomFor, get, slab_len};
ghost use Rattle.pl_pool.specs.Chains.{IsPool, ends_at, entries, item_if, item_in, lists_of, next_if, owner_of, slots_of};

use crate::Memory;
use crate::links::{Ends, Node, attach, detach};
use slab::Slab;

/// Whether a node is in a list.
pub(crate) fn is_in<T>(nodes: &Slab<Node<T>>, list: u32, slot: usize) -> bool
    ensures { IsTrue result ↔ (owner_of nodes.now slot ≡ Some list) }
{
    match nodes.get(slot) {
        None => false,
        Some(node) => node.list == list,
    }
}

/// The item of a node that is in this list.
pub(crate) fn item_of<T>(nodes: &Slab<Node<T>>, list: u32, slot: usize) -> Option<&T>
    ensures { option_copied result ≡ item_if list (get nodes.now slot) }
{
    match nodes.get(slot) {
        None => None,
        Some(node) => {
            if node.list == list {
                Some(&node.item)
            } else {
                None
            }
        }
    }
}

/// What comes behind a node of this list, whose last node is told.
pub(crate) fn next_in<T>(
    nodes: &Slab<Node<T>>,
    list: u32,
    last: usize,
    slot: usize,
) -> Option<usize>
    ensures { result ≡ next_if list last slot (get nodes.now slot) }
{
    match nodes.get(slot) {
        None => None,
        Some(node) => {
            if node.list == list && slot != last {
                Some(node.next)
            } else {
                None
            }
        }
    }
}

/// What is spare after one more push, for which there is room then.
pub(crate) fn make_room<T>(nodes: &mut Slab<Node<T>>, spare: usize) -> Result<usize, Memory>
    requires { slab_len nodes.old + spare ≤ nodes.old.capacity }
    ensures ok { IfOk result (λ left. (left ≡ spare - 1) × (slab_len nodes.old + (left + 1) ≤ nodes.new.capacity)) }
    ensures succeeds { 0 < spare → IsOk result }
    ensures kept { nodes.new ≡ record nodes.old { capacity = nodes.new.capacity } }
    ensures capacity { nodes.old.capacity ≤ nodes.new.capacity }
{
    if spare > 0 {
        return Ok(spare - 1);
    }
    nodes.reserve(1)?;
    Ok(0)
}

/// What is spare once a node has left.
pub(crate) fn one_more<T>(nodes: &Slab<Node<T>>, spare: usize) -> usize
    requires { slab_len nodes.now + (spare + 1) ≤ nodes.now.capacity }
    ensures { result ≡ spare + 1 }
{
    prove!(spare < nodes.capacity());
    spare + 1
}

/// Takes a node out of its list and of the slab.
pub(crate) fn take_out<T>(
    nodes: &mut Slab<Node<T>>,
    all: &mut Vec<Ends>,
    list: u32,
    slot: usize,
) -> T
    requires owned { owner_of nodes.old slot ≡ Some list }
    requires pool { (spare : ℕ) × IsPool nodes.old all.old.items spare }
    ensures item { item_in nodes.old slot ≡ Some result }
    ensures pool { (spare : ℕ) → IsPool nodes.old all.old.items spare → IsPool nodes.new all.new.items (spare + 1) }
    ensures lists { (xs ys : List ℕ) → slots_of nodes.old (ends_at all.old.items list) ≡ xs ++ slot ∷ ys
        → lists_of nodes.new all.new.items ≡ slice_set (lists_of nodes.old all.old.items) list (entries (item_in nodes.old) (xs ++ ys)) }
{
    let mut ends = all[list as usize];
    detach(nodes, &mut ends, slot);
    all[list as usize] = ends;
    let Node {
        item,
        list: _,
        prev: _,
        next: _,
    } = nodes.remove(slot);
    item
}

/// Moves a node to the end of its list.
pub(crate) fn to_back<T>(nodes: &mut Slab<Node<T>>, all: &mut Vec<Ends>, list: u32, slot: usize)
    requires owned { owner_of nodes.old slot ≡ Some list }
    requires pool { (spare : ℕ) × IsPool nodes.old all.old.items spare }
    ensures pool { (spare : ℕ) → IsPool nodes.old all.old.items spare → IsPool nodes.new all.new.items spare }
    ensures lists { (xs ys : List ℕ) → slots_of nodes.old (ends_at all.old.items list) ≡ xs ++ slot ∷ ys
        → lists_of nodes.new all.new.items ≡ slice_set (lists_of nodes.old all.old.items) list (entries (item_in nodes.old) ((xs ++ ys) ++ slot ∷ [])) }
{
    let mut ends = all[list as usize];
    detach(nodes, &mut ends, slot);
    attach(nodes, &mut ends, slot);
    all[list as usize] = ends;
}

/// Puts an item behind the last of a list, where there is room, and answers its slot.
pub(crate) fn put_last<T>(
    nodes: &mut Slab<Node<T>>,
    all: &mut Vec<Ends>,
    list: u32,
    item: T,
) -> usize
    requires within { list < length all.old.items }
    requires pool { (spare : ℕ) × IsPool nodes.old all.old.items spare }
    requires room { HasRoomFor nodes.old 1 }
    ensures free { get nodes.old result ≡ None }
    ensures pool { (spare : ℕ) → IsPool nodes.old all.old.items (spare + 1) → IsPool nodes.new all.new.items spare }
    ensures lists { lists_of nodes.new all.new.items
        ≡ slice_set (lists_of nodes.old all.old.items) list (slice_index_or (lists_of nodes.old all.old.items) list [] ++ (record { slot = result }, item) ∷ []) }
{
    let mut ends = all[list as usize];
    let slot = nodes.insert_reserved(Node {
        item,
        list,
        prev: 0,
        next: 0,
    });
    prove!(ends.len < nodes.len());
    attach(nodes, &mut ends, slot);
    all[list as usize] = ends;
    slot
}
