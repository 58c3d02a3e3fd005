ghost use Rattle.std.specs.Prelude.{◌≡◌, ℕ, ◌+◌, ◌<◌, ◌≤◌, Some, cond, false, IfOk, length, replicate, slice_get, slice_index, slice_set};
ghost use Rattle.std.specs.List.{filter, range_with_len};
ghost use Rattle.pl_queue_array.specs.Tallies.{is_counted, leaves_of, marked_indices, IsSummed};

use crate::counted::one_if;
use pl_lists::Memory;
use std::alloc::{AllocError, Global};
use std::marker::Model;

const MOST: usize = 1 << 40;

/// Marks of indices below a number that stays, with how many of them are set. Contracts see the marks.
/// The counts stand in a tree, of which `width` leaves are the indices, so that the index of a mark by its
/// number is found on one way down.
#[derive(Drop)]
pub(crate) struct Tally {
    len: usize,
    levels: usize,
    width: usize,
    tree: Vec<usize>,
}

impl Model for Tally {
    ghost use Rattle.std.specs.Prelude.{Bool, List};
    ghost use Rattle.pl_queue_array.specs.Tallies.{marks_in, IsTallyTree};

    ghost Value = { List Bool };

    ghost view = { λ tally. marks_in tally.width tally.tree.items tally.len };

    ghost invariant = { λ tally. IsTallyTree tally.len tally.levels tally.width tally.tree.items };
}

impl Tally {
    /// No mark is set. Where there are more indices than can be counted, this is as want of memory.
    pub(crate) fn new(alloc: Global, len: usize) -> Result<Tally, Memory>
        ensures { IfOk result (λ tally. tally ≡ replicate len false) }
    {
        let Shape { levels, width } = Shape::of(len)?;
        let tree = vec![in alloc; 0usize; 2 * width]?;
        Ok(Tally {
            len,
            levels,
            width,
            tree,
        })
    }

    pub(crate) fn set(&mut self, at: usize, mark: bool)
        requires { at < length self.old }
        ensures { self.new ≡ slice_set self.old at mark }
    {
        put_leaf(&mut self.tree, self.width, at, one_if(mark) as usize);
    }

    /// How many marks are set.
    pub(crate) fn count(&self) -> usize
        ensures { result ≡ length (marked_indices self.now) }
    {
        self.tree[1]
    }

    /// The index of number i of those that are marked, in rising order; none past the last.
    pub(crate) fn nth(&self, i: usize) -> Option<usize>
        ensures { result ≡ slice_get (marked_indices self.now) i }
    {
        if i >= self.tree[1] {
            return None;
        }
        Some(leaf_below(self.tree.as_slice(), self.levels, self.width, i))
    }
}

// How many levels a tree has, and how many leaves.
#[derive(Drop)]
struct Shape {
    levels: usize,
    width: usize,
}

impl Shape {
    fn of(len: usize) -> Result<Shape, Memory>
        ensures leaves { IfOk result (λ shape. shape.width ≡ leaves_of shape.levels) }
        ensures room { IfOk result (λ shape. len ≤ shape.width) }
        ensures small { IfOk result (λ shape. shape.width ≤ 2199023255552) }
    {
        let mut levels = 0;
        let mut width = 1;
        while width < len {
            if width > MOST {
                return Err(AllocError);
            }
            width += width;
            levels += 1;
        }
        Ok(Shape { levels, width })
    }
}

// A leaf gets a count, and the nodes above it are counted anew.
fn put_leaf(tree: &mut Vec<usize>, width: usize, at: usize, count: usize)
    requires summed { IsSummed width tree.old.items }
    requires small { width ≤ 2199023255552 }
    requires within { at < width }
    requires one { count ≤ 1 }
    ensures summed { IsSummed width tree.new.items }
    ensures leaves { (j : ℕ) → slice_index tree.new.items (width + j) ≡ slice_index (slice_set tree.old.items (width + at) count) (width + j) }
{
    let mut node = width + at;
    tree[node] = count;
    while node > 1 {
        node /= 2;
        tree[node] = tree[2 * node] + tree[2 * node + 1];
    }
}

// The index of number i of those that are counted.
fn leaf_below(tree: &[usize], levels: usize, width: usize, i: usize) -> usize
    requires summed { IsSummed width tree.now }
    requires small { width ≤ 2199023255552 }
    requires leaves { width ≡ leaves_of levels }
    requires some { i < slice_index tree.now 1 }
    ensures { slice_get (filter (is_counted width tree.now) (range_with_len 0 width)) i ≡ Some result }
{
    let mut node = 1;
    let mut left = i;
    for _ in 0..levels {
        let below = 2 * node;
        let counted = tree[below];
        if left < counted {
            node = below;
        } else {
            left -= counted;
            node = below + 1;
        }
    }
    node - width
}
