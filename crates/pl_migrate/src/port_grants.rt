ghost use Rattle.std.specs.Prelude.{◌≡◌, ◌-◌, ◌<◌, ◌≤◌, ◌∷◌, ◌++◌, [], None, length, OnErr, OnOk, slice_set};
ghost use Rattle.pl_pool.specs.Pool.{list_at};
ghost use Rattle.pl_migrate.specs.Orders.{IsEntered};
ghost use Rattle.pl_migrate.specs.PortGrants.{is_used_by, used_vmid, ArePortGrants, AtMostOne, TakesPlaceOf};
ghost use Rattle.pl_migrate.specs.Tenancies.{tenancy_number};

use crate::tenancy::{FRESH, Standing, Tenancy};
use pl_frame::{Ip4, Mac};
use pl_node::Memory;
use pl_pmac::Pmac;
use pl_pool::Pool;
use std::alloc::{AllocError, Global};
use std::marker::Model;

/// What is kept of the addresses that were granted at one port. Contracts see the list of it, in the order
/// of the vmids, which begin at 1.
#[derive(Drop)]
pub(crate) struct PortGrants {
    tenancies: Vec<Tenancy>,
}

impl Model for PortGrants {
    ghost use Rattle.std.specs.Prelude.{List};
    ghost use Rattle.pl_migrate.specs.declared.tenancy.Tenancy.{Tenancy};
    ghost use Rattle.pl_migrate.specs.PortGrants.{ArePortGrants};

    ghost Value = { List Tenancy };

    ghost view = { λ port. port.tenancies.items };

    ghost invariant = { λ port. ArePortGrants port.tenancies.items };
}

impl PortGrants {
    pub(crate) fn new(alloc: Global) -> PortGrants
        ensures { result ≡ [] }
    {
        PortGrants {
            tenancies: Vec::new(alloc),
        }
    }

    pub(crate) fn len(&self) -> usize
        ensures len { result ≡ length self.now }
        ensures within { result ≤ 65535 }
    {
        self.tenancies.len()
    }

    pub(crate) fn get(&self, vmid: u16) -> Option<Tenancy>
        ensures { result ≡ tenancy_number self.now vmid }
    {
        if vmid == 0 {
            return None;
        }
        self.tenancies.get(usize::from(vmid) - 1).copied()
    }

    /// The vmid of the address that a host has in use here.
    pub(crate) fn in_use(&self, amac: Mac) -> Option<u16>
        ensures found { result ≡ used_vmid self.now amac }
        ensures only { AtMostOne (is_used_by amac) self.now }
    {
        newest_in_use(self.tenancies.as_slice(), amac)
    }

    /// Grants the next address, which is this one, to a host that has none in use here. It stands behind all
    /// others in use.
    pub(crate) fn push(
        &mut self,
        orders: &mut Pool<Pmac>,
        pmac: Pmac,
        amac: Mac,
        ip: Option<Ip4>,
        now: u64,
    ) -> Result<(), Memory>
        requires room { length self.old < 65535 }
        requires unused { used_vmid self.old amac ≡ None }
        requires lists { 4 ≤ length orders.old.lists }
        ensures ok { OnOk result (IsEntered self.old self.new orders.old orders.new pmac amac ip now) }
        ensures err { OnErr result ((self.new ≡ self.old) × (orders.new ≡ orders.old)) }
    {
        self.tenancies.reserve(1)?;
        let Ok(key) = orders.push_back(FRESH, pmac) else {
            return Err(AllocError);
        };
        self.tenancies.push_reserved(Tenancy {
            amac,
            ip,
            standing: Standing::Fresh,
            since: now,
            key,
        });
        Ok(())
    }

    /// Changes what is kept of an address that was granted.
    pub(crate) fn replace(&mut self, vmid: u16, tenancy: Tenancy)
        requires { TakesPlaceOf self.old tenancy (tenancy_number self.old vmid) }
        ensures { self.new ≡ slice_set self.old (vmid - 1) tenancy }
    {
        self.tenancies[usize::from(vmid) - 1] = tenancy;
    }
}

// The vmid of the address in use, looked for from the newest one back: a host mostly has the newest.
fn newest_in_use(tenancies: &[Tenancy], amac: Mac) -> Option<u16>
    requires { ArePortGrants tenancies.now }
    ensures { result ≡ used_vmid tenancies.now amac }
{
    for n in (0..tenancies.len()).rev() {
        if is_used_by(&tenancies[n], amac) {
            return Some(n as u16 + 1);
        }
    }
    None
}

fn is_used_by(tenancy: &Tenancy, amac: Mac) -> bool
    ensures { result ≡ is_used_by amac tenancy.now }
{
    tenancy.standing.is_in_use() && tenancy.amac == amac
}
