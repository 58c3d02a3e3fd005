ghost use Rattle.std.specs.Prelude.{◌≡◌, ◌∷◌, ◌++◌, [], true, IsOk, OnOk};
ghost use Rattle.pl_node.specs.declared.acts.Act.TheVariants.{Tell};
ghost use Rattle.pl_node.specs.declared.messages.ToManager.TheVariants.{Aged};
ghost use Rattle.pl_delivery.specs.Aging.{Probes, TellsAged};
ghost use Rattle.pl_migrate.specs.AddressTables.{address_table_in, granted_in, is_address_in_use};
ghost use Rattle.pl_migrate.specs.Keeping.{FallDueInOrder, IsCaughtUp, KeepsGrants};
ghost use Rattle.pl_steps.specs.Taken.{IsTakenByPart};
ghost use Rattle.pl_switch_rule.specs.Aging.{ages, probe_of};

use crate::invalidation::probe;
use pl_migrate::AddressTable;
use pl_node::{Act, Memory, Outbox, ToManager};
use pl_pmac::Pmac;
use std::alloc::Global;

/// A tick passes: all addresses are older. Each host that used its address last 270 ticks ago is probed,
/// where its IPv4 address is known; then each address in use for 300 ticks without a frame comes to rest,
/// and each whose trap has stood as long, and the manager is told. Where there is no memory for a message
/// the addresses age all the same, so that nothing is left over for a later tick.
pub fn age(alloc: Global, address_table: &mut AddressTable, out: &mut Outbox) -> Result<(), Memory>
    requires { IsCaughtUp address_table.old }
    ensures taken { OnOk result (IsTakenByPart address_table_in ages address_table.old address_table.new out.old out.new) }
    ensures caught_up { IsCaughtUp address_table.new }
    ensures kept { KeepsGrants address_table.old address_table.new }
{
    address_table.age()?;
    address_table.falls_due_in_order();
    let probed = probe_all(alloc, address_table, out);
    tell_all_aged(probed, address_table, out)
}

// The hosts that are to be asked are probed, in the order of last use.
fn probe_all(
    alloc: Global,
    address_table: &mut AddressTable,
    out: &mut Outbox,
) -> Result<(), Memory>
    requires { FallDueInOrder address_table.old }
    ensures { Probes address_table.old address_table.new out.old out.new result }
{
    let mut done = Ok(());
    while let Some(pmac) = address_table.next_probe() {
        done = probe_next(done, alloc, address_table, pmac, out);
    }
    done
}

// The host of an address in use is probed, if all before it were.
fn probe_next(
    done: Result<(), Memory>,
    alloc: Global,
    address_table: &AddressTable,
    pmac: Pmac,
    out: &mut Outbox,
) -> Result<(), Memory>
    requires { is_address_in_use address_table.now pmac ≡ true }
    ensures { OnOk result (IsOk done × (out.new ≡ out.old ++ probe_of pmac (granted_in address_table.now pmac))) }
{
    done?;
    match address_table.granted(pmac) {
        Some(grant) => probe(alloc, pmac, &grant, out),
        None => Ok(()),
    }
}

// The manager is told of each address that comes to rest.
fn tell_all_aged(
    probed: Result<(), Memory>,
    address_table: &mut AddressTable,
    out: &mut Outbox,
) -> Result<(), Memory>
    ensures { TellsAged address_table.old address_table.new out.old out.new probed result }
{
    let mut done = probed;
    while let Some((pmac, number)) = address_table.next_aged() {
        done = tell_next(done, pmac, number, out);
    }
    done
}

// The manager is told of an address, if it was told of all before it.
fn tell_next(
    done: Result<(), Memory>,
    pmac: Pmac,
    number: u64,
    out: &mut Outbox,
) -> Result<(), Memory>
    ensures { OnOk result (IsOk done × (out.new ≡ out.old ++ Tell (Aged pmac number) ∷ [])) }
{
    done?;
    out.push(Act::Tell(ToManager::Aged { pmac, number }))
}
