ghost use Rattle.std.specs.Prelude.{◌≤◌, length};

use pl_pool::{Key, Memory, Pool};
use std::alloc::Global;
use std::test::Fail;

#[test]
fn items_leave_by_their_keys_and_in_order(rt: HostRuntime) -> Result<(), Fail> {
    if plays_two_lists(rt.alloc())? && plays_three_lists(rt.alloc())? {
        Ok(())
    } else {
        Err(Fail::from("a call answered something else"))
    }
}

// Of 1, 2 and 3 in the first of two lists, the second leaves by its key and the first goes to the end.
fn plays_two_lists(alloc: Global) -> Result<bool, Memory> {
    let mut pool: Pool<u8> = Pool::new(alloc, 2)?;
    pool.reserve(3)?;
    if pool.lists() != 2 || pool.spare() < 3 || pool.first(0).is_some() {
        return Ok(false);
    }
    let (Ok(first), Ok(second), Ok(third)) = (
        pool.push_back(0, 1),
        pool.push_back(0, 2),
        pool.push_back(0, 3),
    ) else {
        return Ok(false);
    };
    if !shows_three(&pool, first, second, third) {
        return Ok(false);
    }
    two_leave(alloc, &mut pool, first, second)
}

// The keys and the items of the first list, and none of them in the second.
fn shows_three(pool: &Pool<u8>, first: Key, second: Key, third: Key) -> bool
    requires { 2 ≤ length pool.now.lists }
{
    pool.len(0) == 3
        && pool.len(1) == 0
        && pool.first(0) == Some(first)
        && pool.after(0, first) == Some(second)
        && pool.after(0, second) == Some(third)
        && pool.after(0, third).is_none()
        && pool.after(1, first).is_none()
        && pool.get(0, second) == Some(&2)
        && pool.get(1, second).is_none()
}

fn two_leave(alloc: Global, pool: &mut Pool<u8>, first: Key, second: Key) -> Result<bool, Memory>
    requires { 2 ≤ length pool.old.lists }
{
    if pool.unlink(0, second) != Some(2) || !pool.move_back(0, first) {
        return Ok(false);
    }
    let mut in_order = pool.iter(0);
    if in_order.next() != Some(&3) || in_order.next() != Some(&1) || in_order.len() != 0 {
        return Ok(false);
    }
    if pool.pop_front(0) != Some(3) || pool.pop_front(0) != Some(1) || pool.pop_front(0).is_some() {
        return Ok(false);
    }
    let mut taken = Vec::new(alloc);
    pool.clear_into(1, &mut taken)?;
    Ok(pool.len(1) == 0 && taken.is_empty())
}

// Room for four items in three lists: an item leaves its own list alone, and once.
fn plays_three_lists(alloc: Global) -> Result<bool, Memory> {
    let mut pool: Pool<u8> = Pool::new(alloc, 3)?;
    pool.reserve(4)?;
    let (Ok(first), Ok(_), Ok(_), Ok(_)) = (
        pool.push_back(0, 1),
        pool.push_back(1, 2),
        pool.push_back(0, 3),
        pool.push_back(2, 4),
    ) else {
        return Ok(false);
    };
    one_leaves(alloc, &mut pool, first)
}

fn one_leaves(alloc: Global, pool: &mut Pool<u8>, first: Key) -> Result<bool, Memory>
    requires { 3 ≤ length pool.old.lists }
{
    if pool.unlink(1, first).is_some()
        || pool.unlink(0, first) != Some(1)
        || pool.unlink(0, first).is_some()
        || pool.move_back(0, first)
    {
        return Ok(false);
    }
    let mut taken = Vec::new(alloc);
    pool.clear_into(0, &mut taken)?;
    Ok(taken.as_slice() == [3].as_slice() && pool.len(0) == 0 && pool.len(2) == 1)
}
