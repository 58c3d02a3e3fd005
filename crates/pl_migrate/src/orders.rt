//! The lists of an address table: where addresses stand by what they are used for, and how they move.
ghost use Rattle.std.specs.Prelude.{◌≡◌, ◌↔◌, ◌<◌, ◌≤◌, ◌+◌, ◌-◌, ◌∷◌, ◌++◌, [], IsTrue, Some, true, length, slice_get, slice_index_or, slice_set};
ghost use Rattle.pl_pool.specs.Pool.{IsFree, has_key, item_at, list_at};
ghost use Rattle.pl_migrate.specs.Orders.{IsChanged, IsMoved};
ghost use Rattle.pl_migrate.specs.PortGrants.{TakesPlaceOf};
ghost use Rattle.pl_migrate.specs.Tenancies.{IsDue, IsNext, addresses_in, list_of, tenancy_at};

use crate::port_grants::PortGrants;
use crate::tenancy::{ASKED, FREE, FRESH, TRAPPED, Tenancy};
use pl_pmac::Pmac;
use pl_pool::{Key, Pool};

/// What is kept of an address; none where it was never granted.
pub(crate) fn tenancy_at(ports: &[PortGrants], pmac: Pmac) -> Option<Tenancy>
    ensures { result ≡ tenancy_at ports.now pmac }
{
    ports.get(usize::from(pmac.port))?.get(pmac.vmid)
}

/// The first address of a list; none where it is empty.
pub(crate) fn first_of(orders: &Pool<Pmac>, list: u32) -> Option<Pmac>
    requires { list < length orders.now.lists }
    ensures { result ≡ slice_get (addresses_in orders.now list) 0 }
{
    let key = orders.first(list)?;
    orders.get(list, key).copied()
}

/// Of the free addresses of a port the one that was freed first.
pub(crate) fn first_free(orders: &Pool<Pmac>, port: u8) -> Option<Pmac>
    requires { 4 + port < length orders.now.lists }
    ensures { result ≡ slice_get (addresses_in orders.now (4 + port)) 0 }
{
    first_of(orders, FREE + u32::from(port))
}

/// The first address of a list, where it has been used as it is for so many ticks.
pub(crate) fn first_due(
    ports: &[PortGrants],
    orders: &Pool<Pmac>,
    list: u32,
    now: u64,
    ticks: u64,
) -> Option<(Pmac, Tenancy)>
    requires { list < length orders.now.lists }
    ensures { IsDue ports.now (addresses_in orders.now list) now ticks result }
{
    let pmac = first_of(orders, list)?;
    let tenancy = tenancy_at(ports, pmac)?;
    if has_lasted(&tenancy, now, ticks) {
        Some((pmac, tenancy))
    } else {
        None
    }
}

/// The next address that is to rest, since it has been used as it is for so many ticks: of those in use the
/// one that was used first, else of those with a trap the one that was set first.
pub(crate) fn next_to_rest(
    ports: &[PortGrants],
    orders: &Pool<Pmac>,
    now: u64,
    ticks: u64,
) -> Option<(Pmac, Tenancy)>
    requires { 4 ≤ length orders.now.lists }
    ensures { IsNext ports.now orders.now now ticks result }
{
    match first_due(ports, orders, ASKED, now, ticks) {
        Some(due) => Some(due),
        None => match first_due(ports, orders, FRESH, now, ticks) {
            Some(due) => Some(due),
            None => first_due(ports, orders, TRAPPED, now, ticks),
        },
    }
}

// Whether an address has been used as it is for so many ticks.
fn has_lasted(tenancy: &Tenancy, now: u64, ticks: u64) -> bool
    ensures { IsTrue result ↔ (ticks ≤ now - tenancy.now.since) }
{
    now.saturating_sub(tenancy.since) >= ticks
}

/// What an address is used for changes: it goes behind the last of those that are used so, under a new key.
pub(crate) fn change(
    ports: &mut Vec<PortGrants>,
    orders: &mut Pool<Pmac>,
    pmac: Pmac,
    old: Tenancy,
    new: Tenancy,
)
    requires there { tenancy_at ports.old.items pmac ≡ Some old }
    requires placed { item_at (list_at orders.old (list_of pmac.port old.standing)) old.key ≡ Some pmac }
    requires from { list_of pmac.port old.standing < length orders.old.lists }
    requires to { list_of pmac.port new.standing < length orders.old.lists }
    requires unused { TakesPlaceOf (slice_index_or ports.old.items pmac.port []) new (Some old) }
    ensures { IsChanged ports.old.items ports.new.items orders.old orders.new pmac old new }
{
    let from = old.standing.list(pmac.port);
    let to = new.standing.list(pmac.port);
    let key = move_to(orders, from, old.key, to);
    ports[usize::from(pmac.port)].replace(pmac.vmid, Tenancy { key, ..new });
}

// Moves an address behind the last of a list. Its node is given back and taken again, so that this needs no
// memory.
fn move_to(orders: &mut Pool<Pmac>, from: u32, key: Key, to: u32) -> Key
    requires from { from < length orders.old.lists }
    requires to { to < length orders.old.lists }
    requires there { has_key (list_at orders.old from) key ≡ true }
    ensures { (pmac : Pmac) → item_at (list_at orders.old from) key ≡ Some pmac → IsMoved orders.old orders.new from key to result pmac }
{
    match orders.unlink(from, key) {
        Some(pmac) => put_back(orders, to, pmac),
        None => unreachable!(),
    }
}

fn put_back(orders: &mut Pool<Pmac>, list: u32, pmac: Pmac) -> Key
    requires list { list < length orders.old.lists }
    requires room { 0 < orders.old.spare }
    ensures put { orders.new.lists ≡ slice_set orders.old.lists list (list_at orders.old list ++ (result, pmac) ∷ []) }
    ensures free { IsFree orders.old result }
{
    match orders.push_back(list, pmac) {
        Ok(key) => key,
        Err(_) => unreachable!(),
    }
}
