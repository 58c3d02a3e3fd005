//! The chains of nodes in a slab: how a node leaves a chain, and how it comes to its end.
ghost use Rattle.std.specs.Prelude.{◌≡◌, ◌≢◌, ℕ, ◌+◌, ◌^◌, ◌<◌, List, [], ◌∷◌, ◌++◌, Some};
ghost use Rattle.slab.specs.Slab.{ContainsKey};
ghost use Rattle.pl_pool.specs.Chains.{IsAmong, IsChainIn, KeepsOthers, LeadsBack, LeadsOn, Relinks, next_of, owner_of, prev_of};

use slab::Slab;

/// An item, the list that it is in, and the nodes before and behind it there.
#[derive(Drop)]
pub(crate) struct Node<T> {
    pub(crate) item: T,
    pub(crate) list: u32,
    pub(crate) prev: usize,
    pub(crate) next: usize,
}

/// The first and the last node of a list, and how many it has.
#[derive(Clone, Copy, Drop)]
pub(crate) struct Ends {
    pub(crate) first: usize,
    pub(crate) last: usize,
    pub(crate) len: usize,
}

fn set_next<T>(nodes: &mut Slab<Node<T>>, slot: usize, next: usize)
    requires { ContainsKey nodes.old slot }
    ensures { LeadsOn nodes.old nodes.new slot next }
{
    nodes[slot].next = next;
}

fn set_prev<T>(nodes: &mut Slab<Node<T>>, slot: usize, prev: usize)
    requires { ContainsKey nodes.old slot }
    ensures { LeadsBack nodes.old nodes.new slot prev }
{
    nodes[slot].prev = prev;
}

// A node leaves that has `prev` before it and `next` behind it: what is before it leads on past it.
fn lead_past<T>(nodes: &mut Slab<Node<T>>, ends: &mut Ends, slot: usize, prev: usize, next: usize)
    requires { ends.old.first ≢ slot → ContainsKey nodes.old prev }
    ensures relinks { Relinks nodes.old nodes.new }
    ensures prevs { (other : ℕ) → prev_of nodes.new other ≡ prev_of nodes.old other }
    ensures rest { (ends.new.last ≡ ends.old.last) × (ends.new.len ≡ ends.old.len) }
    ensures first { ends.old.first ≡ slot → (nodes.new ≡ nodes.old) × (ends.new ≡ record ends.old { first = next }) }
    ensures inside { ends.old.first ≢ slot → (ends.new ≡ ends.old) × LeadsOn nodes.old nodes.new prev next }
{
    if ends.first == slot {
        ends.first = next;
    } else {
        set_next(nodes, prev, next);
    }
}

// The same from behind.
fn lead_back_past<T>(
    nodes: &mut Slab<Node<T>>,
    ends: &mut Ends,
    slot: usize,
    prev: usize,
    next: usize,
)
    requires { ends.old.last ≢ slot → ContainsKey nodes.old next }
    ensures relinks { Relinks nodes.old nodes.new }
    ensures nexts { (other : ℕ) → next_of nodes.new other ≡ next_of nodes.old other }
    ensures rest { (ends.new.first ≡ ends.old.first) × (ends.new.len ≡ ends.old.len) }
    ensures last { ends.old.last ≡ slot → (nodes.new ≡ nodes.old) × (ends.new ≡ record ends.old { last = prev }) }
    ensures inside { ends.old.last ≢ slot → (ends.new ≡ ends.old) × LeadsBack nodes.old nodes.new next prev }
{
    if ends.last == slot {
        ends.last = prev;
    } else {
        set_prev(nodes, next, prev);
    }
}

/// Takes a node out of its chain. It stays in the slab.
pub(crate) fn detach<T>(nodes: &mut Slab<Node<T>>, ends: &mut Ends, slot: usize)
    requires { (list : ℕ) × (slots : List ℕ) × IsChainIn nodes.old list ends.old slots × IsAmong slot slots }
    ensures relinks { Relinks nodes.old nodes.new }
    ensures left { (list : ℕ) (xs ys : List ℕ) → IsChainIn nodes.old list ends.old (xs ++ slot ∷ ys)
        → IsChainIn nodes.new list ends.new (xs ++ ys) × KeepsOthers nodes.old nodes.new list }
    ensures shorter { ends.new.len + 1 ≡ ends.old.len }
    ensures fits { ends.new.len + 1 < 2 ^ 64 }
{
    let node = &nodes[slot];
    let prev = node.prev;
    let next = node.next;
    lead_past(nodes, ends, slot, prev, next);
    lead_back_past(nodes, ends, slot, prev, next);
    ends.len -= 1;
}

// The last node of a chain leads on to one more, or that is the first.
fn lead_on<T>(nodes: &mut Slab<Node<T>>, ends: &mut Ends, slot: usize)
    requires { 0 < ends.old.len → ContainsKey nodes.old ends.old.last }
    ensures relinks { Relinks nodes.old nodes.new }
    ensures prevs { (other : ℕ) → prev_of nodes.new other ≡ prev_of nodes.old other }
    ensures len { ends.new.len ≡ ends.old.len }
    ensures first { ends.old.len ≡ 0 → (nodes.new ≡ nodes.old) × (ends.new ≡ record ends.old { first = slot }) }
    ensures inside { 0 < ends.old.len → (ends.new ≡ ends.old) × LeadsOn nodes.old nodes.new ends.old.last slot }
{
    if ends.len == 0 {
        ends.first = slot;
    } else {
        set_next(nodes, ends.last, slot);
    }
}

/// Puts a node that is in no chain at the end of one.
pub(crate) fn attach<T>(nodes: &mut Slab<Node<T>>, ends: &mut Ends, slot: usize)
    requires chain { (list : ℕ) × (slots : List ℕ) × IsChainIn nodes.old list ends.old slots }
    requires there { ContainsKey nodes.old slot }
    requires fits { ends.old.len + 1 < 2 ^ 64 }
    ensures relinks { Relinks nodes.old nodes.new }
    ensures longer { (list : ℕ) (slots : List ℕ) → IsChainIn nodes.old list ends.old slots → owner_of nodes.old slot ≡ Some list
        → ¬ IsAmong slot slots → IsChainIn nodes.new list ends.new (slots ++ slot ∷ []) × KeepsOthers nodes.old nodes.new list }
    ensures len { ends.new.len ≡ ends.old.len + 1 }
{
    set_prev(nodes, slot, ends.last);
    lead_on(nodes, ends, slot);
    ends.last = slot;
    ends.len += 1;
}
