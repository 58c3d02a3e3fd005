ghost use Rattle.std.specs.Prelude.{◌≡◌, ◌+◌, ◌&&◌, ℕ, [], if◌then◌else◌, None, IfOk, OnOk, find, not, option_map};
ghost use Rattle.std.specs.Option.{option_and_then};
ghost use Rattle.pl_node.specs.ManagerFacts.{newest_and_number};
ghost use Rattle.pl_layouts.specs.Equality.{same_pmac};
ghost use Rattle.pl_node.specs.ManagerViews.{lookup, number_behind, numbers_before};
ghost use Rattle.pl_manager_rule.specs.ManagerRule.{invalidation, learning, with_learnt, with_owner};
ghost use Rattle.pl_manager_rule.specs.Reports.{counts_as, is_known_led_to, known_at, leads_known, releases_known, with_aged_as, with_trap, with_trap_as};
ghost use Rattle.pl_registry.specs.Addresses.{recall_of, registration_of};
ghost use Rattle.pl_registry.specs.ReportedAddresses.{registered_report, reported_at};
ghost use Rattle.pl_registry.specs.Learning.{noted_aged, with_known_aged};
ghost use Rattle.pl_registry.specs.Learning.{acts_of_learning, acts_of_release, acts_of_replaced};

use crate::addresses::{Addresses, Known, Recall, Registered, Told};
use crate::owners::Owners;
use crate::reported_addresses::{Reported, ReportedAddresses};
use pl_frame::{Ip4, Mac, SwitchId};
use pl_node::Memory;
use pl_pmac::Pmac;
use std::alloc::{AllocError, Global};
use std::marker::Model;

// So many numbers each epoch has.
const NUMBERS: u64 = 4_294_967_296;

/// What was learnt of addresses. Contracts see it as the manager's rule does: the addresses with the newest
/// first, those that are known by a report alone, the owners by rising IPv4 address, and the number that was
/// given last.
#[derive(Debug, Drop)]
pub struct Registry {
    addresses: Addresses,
    reported: ReportedAddresses,
    owners: Owners,
    // The number that was given last.
    count: u64,
}

/// The number of a pseudo address that was learnt for the first time, and the address of its host that it
/// replaces, if there is one.
#[derive(Clone, Copy, Debug, PartialEq, Eq)]
pub struct Learning {
    pub number: u64,
    pub replaced: Option<Replaced>,
}

/// An address that has a newer one: the switch that told it first, and the IPv4 address that is known for
/// the newer one, else for this one.
#[derive(Clone, Copy, Debug, PartialEq, Eq)]
pub struct Replaced {
    pub switch: SwitchId,
    pub pmac: Pmac,
    pub ip: Option<Ip4>,
}

/// An address is forgotten that this switch told first.
#[derive(Clone, Copy, Debug, PartialEq, Eq)]
pub struct Release {
    pub switch: SwitchId,
    pub pmac: Pmac,
}

impl Model for Registry {
    ghost use Rattle.pl_node.specs.ManagerViews.{Learnt};

    ghost Value = { Learnt };

    ghost view = { λ registry. record { addresses = registry.addresses; reported = registry.reported; owners = registry.owners; count = registry.count } };
}

impl Registry {
    /// That of a manager that began anew so often, and knows nothing.
    pub fn new(alloc: Global, epoch: u32) -> Registry
        ensures { result ≡ record { addresses = []; reported = []; owners = []; count = numbers_before epoch } }
    {
        Registry {
            addresses: Addresses::new(alloc),
            reported: ReportedAddresses::new(alloc),
            owners: Owners::new(alloc),
            count: u64::from(epoch) * NUMBERS,
        }
    }

    /// The newest pseudo address of the host that has an IPv4 address; none where that was never learnt, or
    /// was released and no later one was learnt.
    pub fn lookup(&self, ip: Ip4) -> Option<Pmac>
        ensures { result ≡ lookup self.now ip }
    {
        let amac = self.owners.get(ip)?;
        let newest = self.addresses.newest(amac)?;
        Some(newest.pmac)
    }

    /// The newest pseudo address of a host and its registration number; none where none was learnt, or it
    /// was released and no later one was learnt.
    pub fn newest(&self, amac: Mac) -> Option<(Pmac, u64)>
        ensures { result ≡ newest_and_number self.now amac }
    {
        let newest = self.addresses.newest(amac)?;
        Some((newest.pmac, newest.number))
    }

    /// A switch tells that it granted a pseudo address, or learnt the IPv4 address of one. There is an
    /// answer where the address was not known.
    pub fn learn(
        &mut self,
        switch: SwitchId,
        pmac: Pmac,
        amac: Mac,
        ip: Option<Ip4>,
    ) -> Result<Option<Learning>, Memory>
        ensures learnt { OnOk result (self.new ≡ with_learnt self.old (record { switch = switch; pmac = pmac; amac = amac; ip = ip })) }
        ensures acts { IfOk result (λ answer. acts_of_learning pmac answer ≡ learning self.old self.new pmac amac) }
    {
        let before = self.addresses.newest(amac);
        let host = self.addresses.host_of(pmac).unwrap_or(amac);
        let number = self.next_number()?;
        let is_new = self
            .addresses
            .learn(pmac, Told { switch, amac, ip }, number)?;
        self.tell_owner(ip, host)?;
        if !is_new {
            return Ok(None);
        }
        self.count = number;
        let replaced = self.replaced(pmac, before);
        Ok(Some(Learning { number, replaced }))
    }

    /// A switch tells, to a manager that began anew so often, that an address has aged there behind a trap of
    /// this number, or 0. The answer is whether that counts.
    pub fn note_aged(
        &mut self,
        switch: SwitchId,
        pmac: Pmac,
        number: u64,
        epoch: u32,
    ) -> Result<bool, Memory>
        ensures counts { IfOk result (λ counts. counts ≡ counts_as epoch number (known_at self.old pmac)) }
        ensures noted { OnOk result (self.new ≡ noted_aged epoch self.old switch pmac number (known_at self.old pmac)) }
    {
        match self.known(pmac) {
            Some(known) => self.note_known_aged(pmac, number == number_behind(known.recall)),
            None => self.note_reported_aged(switch, pmac, epoch != 0),
        }
    }

    // Of an address that is known.
    fn note_known_aged(&mut self, pmac: Pmac, counts: bool) -> Result<bool, Memory>
        ensures counts { IfOk result (λ noted. noted ≡ counts) }
        ensures noted { OnOk result (self.new ≡ (if counts then with_known_aged self.old pmac else self.old)) }
    {
        if counts {
            self.addresses.set_aged(pmac)?;
            self.reported.set_aged(pmac);
        }
        Ok(counts)
    }

    // Of one of which nothing is known.
    fn note_reported_aged(
        &mut self,
        switch: SwitchId,
        pmac: Pmac,
        counts: bool,
    ) -> Result<bool, Memory>
        requires { known_at self.old pmac ≡ None }
        ensures counts { IfOk result (λ noted. noted ≡ counts) }
        ensures noted { OnOk result (self.new ≡ (if counts then with_aged_as self.old switch pmac None else self.old)) }
    {
        if counts {
            let reported = Reported {
                switch,
                recall: None,
                aged: true,
            };
            self.reported.add(pmac, reported)?;
        }
        Ok(counts)
    }

    /// A switch tells, to a manager that began anew so often, that a trap of this number stands for an address,
    /// and leads to a newer one.
    pub fn note_trap(
        &mut self,
        switch: SwitchId,
        old: Pmac,
        new: Pmac,
        number: u64,
        epoch: u32,
    ) -> Result<(), Memory>
        ensures { OnOk result (self.new ≡ with_trap epoch self.old switch old (record { new = new; number = number })) }
    {
        if epoch == 0 || self.addresses.known_at(old).is_some() {
            return Ok(());
        }
        self.lead_reported(switch, old, Recall { new, number })
    }

    fn lead_reported(&mut self, switch: SwitchId, old: Pmac, to: Recall) -> Result<(), Memory>
        ensures { OnOk result (self.new ≡ with_trap_as self.old switch old (recall_of to) (find (λ r. same_pmac r.pmac old) self.old.reported)) }
    {
        if self.reported.find(old).is_some() {
            self.reported.lead(old, to);
            return Ok(());
        }
        let reported = Reported {
            switch,
            recall: Some(to),
            aged: false,
        };
        self.reported.add(old, reported)
    }

    /// Where the trap of an address leads, that stands or has ended.
    pub fn leads_to(&self, pmac: Pmac) -> Option<Pmac>
        ensures { result ≡ leads_known self.now pmac }
    {
        let recall = self.recall_of(pmac)?;
        Some(recall.new)
    }

    fn recall_of(&self, pmac: Pmac) -> Option<Recall>
        ensures { option_map recall_of result ≡ option_and_then (λ r. r.recall) (known_at self.now pmac) }
    {
        self.known(pmac)?.recall
    }

    // What is known of an address, registered or by a report alone.
    fn known(&self, pmac: Pmac) -> Option<Reported>
        ensures { option_map (reported_at pmac) result ≡ known_at self.now pmac }
    {
        match self.addresses.known_at(pmac) {
            Some(known) => Some(as_reported(known)),
            None => self.reported.find(pmac),
        }
    }

    /// An address that has aged, and to which no trap leads that stands, is forgotten.
    pub fn release(&mut self, pmac: Pmac) -> Option<Release>
        ensures learnt { self.new ≡ (releases_known pmac self.old).learnt }
        ensures acts { acts_of_release result ≡ (releases_known pmac self.old).acts }
    {
        let known = self.known(pmac)?;
        if !self.can_release(known, pmac) {
            return None;
        }
        self.addresses.forget(pmac);
        self.reported.forget(pmac);
        Some(Release {
            switch: known.switch,
            pmac,
        })
    }

    // Whether an address of which this is known has aged, and no trap leads to it that stands.
    fn can_release(&self, known: Reported, pmac: Pmac) -> bool
        ensures { result ≡ (known.aged && not (is_known_led_to self.now pmac)) }
    {
        known.aged && !self.is_led_to(pmac)
    }

    fn is_led_to(&self, pmac: Pmac) -> bool
        ensures { result ≡ is_known_led_to self.now pmac }
    {
        self.addresses.is_led_to(pmac) || self.reported.is_led_to(pmac)
    }

    // The number of the next address.
    fn next_number(&self) -> Result<u64, Memory>
        ensures { IfOk result (λ number. number ≡ self.now.count + 1) }
    {
        self.count.checked_add(1).ok_or(AllocError)
    }

    // An IPv4 address, if one is told, is told last with a pseudo address of this host.
    fn tell_owner(&mut self, ip: Option<Ip4>, amac: Mac) -> Result<(), Memory>
        ensures { OnOk result (self.new ≡ record self.old { owners = with_owner self.old.owners ip amac }) }
    {
        match ip {
            Some(ip) => self.owners.set(ip, amac),
            None => Ok(()),
        }
    }

    // What is told of the address that was the newest of its host before.
    fn replaced(&self, pmac: Pmac, before: Option<Registered>) -> Option<Replaced>
        ensures { (number : ℕ) → acts_of_replaced pmac number result ≡ invalidation self.now pmac number (option_map registration_of before) }
    {
        let old = before?;
        let ip = self
            .addresses
            .ip_of(pmac)
            .or(self.addresses.ip_of(old.pmac));
        Some(Replaced {
            switch: old.switch,
            pmac: old.pmac,
            ip,
        })
    }
}

fn as_reported(known: Known) -> Reported
    ensures { result ≡ registered_report known }
{
    Reported {
        switch: known.switch,
        recall: known.recall,
        aged: known.aged,
    }
}

// The number of the trap behind which an address ages, 0 where it leads to no newer one.
fn number_behind(recall: Option<Recall>) -> u64
    ensures { result ≡ number_behind (option_map recall_of recall) }
{
    match recall {
        Some(recall) => recall.number,
        None => 0,
    }
}
