ghost use Rattle.std.specs.Prelude.{◌≡◌, ◌∷◌, [], if◌then◌else◌, IfOk, IsOk, OnErr, OnOk, find, map, not, option_map, None, Some, false};
ghost use Rattle.std.specs.List.{filter, list_any};
ghost use Rattle.std.specs.Map.{lookup};
ghost use Rattle.std.specs.Option.{option_and_then};
ghost use Rattle.indexmap.specs.IndexMap.{values};
ghost use Rattle.pl_frame.specs.declared.address.Mac.{Mac};
ghost use Rattle.pl_layouts.specs.Equality.{same_mac, same_pmac};
ghost use Rattle.pl_node.specs.ManagerViews.{is_led_to, newest, registration};
ghost use Rattle.pl_manager_rule.specs.ManagerRule.{ages_now, is_registered, learnt_as, recalled};
ghost use Rattle.pl_registry.specs.Addresses.{IsLed, IsLedFrom, is_trap_to, learnt_at, learnt_of, registration_of, told_at, was_newest_of, with_address_as};

use indexmap::IndexMap;
use pl_frame::{Ip4, Mac, SwitchId};
use pl_node::Memory;
use pl_pmac::Pmac;
use std::alloc::Global;
use std::marker::Model;

/// What a switch tells with a pseudo address: itself, the host, and the IPv4 address, where it is told.
#[derive(Clone, Copy, Debug)]
pub(crate) struct Told {
    pub(crate) switch: SwitchId,
    pub(crate) amac: Mac,
    pub(crate) ip: Option<Ip4>,
}

/// The newer address to which an address leads, and the number of that one.
#[derive(Clone, Copy, Debug)]
pub(crate) struct Recall {
    pub(crate) new: Pmac,
    pub(crate) number: u64,
}

/// What is known of a pseudo address: the switch that told it first, the host, the IPv4 address that was
/// told last with it, its number, where it leads since its host has a newer one, and whether it has aged
/// since.
#[derive(Clone, Copy, Debug)]
pub(crate) struct Known {
    pub(crate) switch: SwitchId,
    pub(crate) amac: Mac,
    pub(crate) ip: Option<Ip4>,
    pub(crate) number: u64,
    pub(crate) recall: Option<Recall>,
    pub(crate) aged: bool,
}

/// A pseudo address, its host, its registration number and the switch that told it first.
#[derive(Clone, Copy, Debug)]
pub(crate) struct Registered {
    pub(crate) pmac: Pmac,
    pub(crate) amac: Mac,
    pub(crate) number: u64,
    pub(crate) switch: SwitchId,
}

/// The pseudo addresses in the order in which they were first learnt, and the newest of each host. One that
/// was forgotten is not among them. Contracts see the list of them, the newest first.
#[derive(Debug, Drop)]
pub(crate) struct Addresses {
    known: IndexMap<Pmac, Known>,
    newest: IndexMap<Mac, Registered>,
}

impl Model for Addresses {
    ghost use Rattle.std.specs.Prelude.{List};
    ghost use Rattle.pl_node.specs.ManagerViews.{LearntAddress};
    ghost use Rattle.pl_registry.specs.Addresses.{FindAddresses, newest_first};

    ghost Value = { List LearntAddress };

    ghost view = { λ addresses. newest_first addresses.known.entries };

    ghost invariant = { λ addresses. FindAddresses addresses.known.entries addresses.newest.entries };
}

impl Addresses {
    pub(crate) fn new(alloc: Global) -> Addresses
        ensures { result ≡ [] }
    {
        Addresses {
            known: IndexMap::new(alloc),
            newest: IndexMap::new(alloc),
        }
    }

    /// The host of a pseudo address.
    pub(crate) fn host_of(&self, pmac: Pmac) -> Option<Mac>
        ensures { result ≡ option_map (λ r. r.amac) (registration (learnt_of self.now) pmac) }
    {
        let known = self.known_at(pmac)?;
        Some(known.amac)
    }

    /// The IPv4 address that was told last with a pseudo address.
    pub(crate) fn ip_of(&self, pmac: Pmac) -> Option<Ip4>
        ensures { result ≡ option_and_then (λ a. a.ip) (find (λ a. same_pmac a.pmac pmac) self.now) }
    {
        let known = self.known_at(pmac)?;
        known.ip
    }

    /// The newest address of a host.
    pub(crate) fn newest(&self, amac: Mac) -> Option<Registered>
        ensures { option_map registration_of result ≡ newest (learnt_of self.now) amac }
    {
        self.newest.get(&amac).copied()
    }

    /// A switch tells a pseudo address, which gets this number where it is not known. The answer is whether
    /// that is so.
    pub(crate) fn learn(&mut self, pmac: Pmac, told: Told, number: u64) -> Result<bool, Memory>
        ensures ok { OnOk result (self.new ≡ with_address_as number (learnt_of self.old) (told_at pmac told)) }
        ensures new { IfOk result (λ new. new ≡ not (is_registered self.old pmac)) }
        ensures err { OnErr result (self.new ≡ self.old) }
    {
        match self.known.get(&pmac).copied() {
            Some(known) => {
                let ip = told.ip.or(known.ip);
                self.known.insert(pmac, Known { ip, ..known })?;
                Ok(false)
            }
            None => {
                self.add(pmac, told, number)?;
                Ok(true)
            }
        }
    }

    // A pseudo address that was not known. Memory is taken for both tables before either is changed.
    fn add(&mut self, pmac: Pmac, told: Told, number: u64) -> Result<(), Memory>
        requires { is_registered self.old pmac ≡ false }
        ensures ok { OnOk result (self.new ≡ learnt_as number (told_at pmac told)
            ∷ recalled (newest (learnt_of self.old) told.amac) pmac number self.old) }
        ensures err { OnErr result (self.new ≡ self.old) }
    {
        self.known.reserve(1)?;
        self.newest.reserve(1)?;
        let registered = Registered {
            pmac,
            amac: told.amac,
            number,
            switch: told.switch,
        };
        let old = self.newest.insert(told.amac, registered)?;
        self.known.insert(pmac, first_known(told, number))?;
        lead_from(&mut self.known, old, Recall { new: pmac, number })?;
        Ok(())
    }

    /// What is known of a pseudo address.
    pub(crate) fn known_at(&self, pmac: Pmac) -> Option<Known>
        ensures address { find (λ a. same_pmac a.pmac pmac) self.now ≡ option_map (learnt_at pmac) result }
        ensures host { option_map (λ r. r.amac) (registration (learnt_of self.now) pmac) ≡ option_map (λ k. k.amac) result }
    {
        self.known.get(&pmac).copied()
    }

    /// It was told that an address has aged.
    pub(crate) fn set_aged(&mut self, pmac: Pmac) -> Result<(), Memory>
        ensures ok { OnOk result (self.new ≡ map (ages_now pmac) self.old) }
        ensures err { OnErr result (self.new ≡ self.old) }
    {
        match self.known.get(&pmac).copied() {
            Some(known) => {
                self.known.insert(
                    pmac,
                    Known {
                        aged: true,
                        ..known
                    },
                )?;
                Ok(())
            }
            None => Ok(()),
        }
    }

    /// Whether a trap that stands leads to an address: all of them are gone through.
    pub(crate) fn is_led_to(&self, pmac: Pmac) -> bool
        ensures { result ≡ is_led_to (learnt_of self.now) pmac }
    {
        is_any_trap_to(&self.known, pmac)
    }

    /// An address is forgotten. The others stay in their order.
    pub(crate) fn forget(&mut self, pmac: Pmac)
        ensures { self.new ≡ filter (λ a. not (same_pmac a.pmac pmac)) self.old }
    {
        let known = self.known.shift_remove(&pmac);
        leave_newest(&mut self.newest, known);
    }
}

// What was known of an address that is forgotten: where it led to no newer one, its host has no newest one.
fn leave_newest(newest: &mut IndexMap<Mac, Registered>, known: Option<Known>)
    ensures { (mac : Mac) → lookup (same_mac mac) newest.new.entries ≡ if was_newest_of mac known then None else lookup (same_mac mac) newest.old.entries }
{
    if let Some(known) = known {
        leave_host(newest, known);
    }
}

fn leave_host(newest: &mut IndexMap<Mac, Registered>, known: Known)
    ensures { (mac : Mac) → lookup (same_mac mac) newest.new.entries ≡ if was_newest_of mac (Some known) then None else lookup (same_mac mac) newest.old.entries }
{
    if known.recall.is_none() {
        newest.swap_remove(&known.amac);
    }
}

fn is_any_trap_to(known: &IndexMap<Pmac, Known>, pmac: Pmac) -> bool
    ensures { result ≡ list_any (λ k. is_trap_to pmac k.recall k.aged) (values known.now) }
{
    known
        .values()
        .any(|known| is_trap_to(known.recall, known.aged, pmac))
}

/// Whether an address that leads there, and has aged or not, has a trap that stands and leads to this one.
pub(crate) fn is_trap_to(recall: Option<Recall>, aged: bool, pmac: Pmac) -> bool
    ensures { result ≡ is_trap_to pmac recall aged }
{
    match recall {
        Some(recall) => !aged && recall.new == pmac,
        None => false,
    }
}

fn first_known(told: Told, number: u64) -> Known
    ensures { result ≡ record { switch = told.switch; amac = told.amac; ip = told.ip; number = number; recall = None; aged = false } }
{
    Known {
        switch: told.switch,
        amac: told.amac,
        ip: told.ip,
        number,
        recall: None,
        aged: false,
    }
}

// The newest address of a host, if it had one, leads to a newer one from then on. Takes no memory.
fn lead_from(
    known: &mut IndexMap<Pmac, Known>,
    old: Option<Registered>,
    to: Recall,
) -> Result<(), Memory>
    ensures led { OnOk result (IsLedFrom old to known.old.entries known.new.entries) }
    ensures ok { IsOk result }
{
    match old {
        Some(old) => lead_on(known, old.pmac, to),
        None => Ok(()),
    }
}

fn lead_on(known: &mut IndexMap<Pmac, Known>, old: Pmac, to: Recall) -> Result<(), Memory>
    ensures led { OnOk result (IsLed old to known.old.entries known.new.entries) }
    ensures ok { IsOk result }
{
    match known.get(&old).copied() {
        Some(before) => {
            known.insert(
                old,
                Known {
                    recall: Some(to),
                    aged: false,
                    ..before
                },
            )?;
            Ok(())
        }
        None => Ok(()),
    }
}
