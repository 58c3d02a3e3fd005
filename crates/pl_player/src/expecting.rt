ghost use Rattle.std.specs.Prelude.{◌≡◌, ◌↔◌, ◌∷◌, ◌&&◌, ◌||◌, if◌then◌else◌, not, IfOk, IfSome, IsTrue, List, None, OnOk, find, option_map, reverse};
ghost use Rattle.pl_layouts.specs.Equality.{same_pmac};
ghost use Rattle.pl_journal.specs.declared.entry.Entry.{Entry};
ghost use Rattle.pl_journal.specs.declared.entry.Entry.TheVariants.{Registered};
ghost use Rattle.pl_script_rule.specs.Expecting.{IsNewest, arrivals, ended_settled, endings, grant_in, is_arrival_at, is_end_for, is_outcome, is_settled};
ghost use Rattle.pl_player.specs.Newest.{IsReadOf, counted, exceeds, is_number, is_one_of, registration_in};

use pl_frame::Memory;
use pl_journal::{Cause, Entry};
use pl_pmac::Pmac;
use pl_wiring::HostNo;
use std::alloc::Global;

fn is_arrival_at(h: HostNo, entry: &Entry) -> bool
    ensures { result ≡ is_arrival_at h entry.now }
{
    match entry {
        Entry::Arrived(_, host, _) => host.0 == h.0,
        _ => false,
    }
}

/// How many frames arrived at a host.
pub(crate) fn arrivals(journal: &[Entry], h: HostNo) -> usize
    ensures { result ≡ arrivals journal.now h }
{
    journal
        .iter()
        .filter(|entry| is_arrival_at(h, entry))
        .count()
}

fn is_end_for(cause: Cause, entry: &Entry) -> bool
    ensures { result ≡ is_end_for cause entry.now }
{
    match entry {
        Entry::Dropped(_, why) => *why == cause,
        _ => false,
    }
}

/// How many frames ended for a cause.
pub(crate) fn endings(journal: &[Entry], cause: Cause) -> usize
    ensures { result ≡ endings journal.now cause }
{
    journal
        .iter()
        .filter(|entry| is_end_for(cause, entry))
        .count()
}

/// What a journal says of the addresses of a host so far: those that were granted to it last, the largest
/// number under which one of them was registered, and whether one address has that number.
#[derive(Drop)]
struct HostAddresses {
    own: Vec<Pmac>,
    largest: Option<u64>,
    is_it: bool,
}

impl HostAddresses {
    // One more entry is read, of a host and one address.
    fn read(&mut self, h: HostNo, pmac: Pmac, entry: &Entry) -> Result<(), Memory>
        ensures { OnOk result ((past : List Entry) → IsReadOf h pmac past self.old → IsReadOf h pmac (entry.now ∷ past) self.new) }
    {
        match grant_in(entry) {
            Some((granted, host)) => grant(&mut self.own, granted, host.0 == h.0),
            None => {
                self.read_registration(pmac, entry);
                Ok(())
            }
        }
    }

    // The entry grants nothing.
    fn read_registration(&mut self, pmac: Pmac, entry: &Entry)
        ensures { (h : HostNo) (past : List Entry) → grant_in entry.now ≡ None → IsReadOf h pmac past self.old →
            IsReadOf h pmac (entry.now ∷ past) self.new }
    {
        match registration_in(entry) {
            Some((registered, number)) => self.register(
                registered,
                number,
                is_same(registered, pmac),
            ),
            None => {}
        }
    }

    // An address is registered: where it is the host's, its number counts.
    fn register(&mut self, registered: Pmac, number: u64, is_it: bool)
        ensures { self.new ≡ if is_one_of self.old.own.items registered then counted number is_it self.old else self.old }
    {
        if is_one_of(&self.own, registered) {
            self.count(number, is_it);
        }
    }

    fn count(&mut self, number: u64, is_it: bool)
        ensures { self.new ≡ counted number is_it self.old }
    {
        if exceeds(number, self.largest) {
            self.largest = Some(number);
            self.is_it = is_it;
        } else {
            self.is_it = self.is_it || (is_it && is_number(number, self.largest));
        }
    }
}

fn grant_in(entry: &Entry) -> Option<(Pmac, HostNo)>
    ensures { result ≡ grant_in entry.now }
{
    match entry {
        Entry::Granted(pmac, host, _, _) => Some((*pmac, *host)),
        _ => None,
    }
}

fn registration_in(entry: &Entry) -> Option<(Pmac, u64)>
    ensures is { result ≡ registration_in entry.now }
    ensures entry { IfSome result (λ one. entry.now ≡ Registered one.0 one.1) }
{
    match entry {
        Entry::Registered(pmac, number) => Some((*pmac, *number)),
        _ => None,
    }
}

fn is_same(a: Pmac, b: Pmac) -> bool
    ensures { result ≡ same_pmac a b }
{
    a == b
}

fn is_one_of(pmacs: &[Pmac], pmac: Pmac) -> bool
    ensures { result ≡ is_one_of pmacs.now pmac }
{
    pmacs.contains(&pmac)
}

fn exceeds(number: u64, largest: Option<u64>) -> bool
    ensures { result ≡ exceeds number largest }
{
    match largest {
        Some(largest) => largest < number,
        None => true,
    }
}

fn is_number(number: u64, largest: Option<u64>) -> bool
    ensures { result ≡ is_number number largest }
{
    match largest {
        Some(largest) => largest == number,
        None => false,
    }
}

// An address is granted to the host, or to another one.
fn grant(own: &mut Vec<Pmac>, pmac: Pmac, is_to_host: bool) -> Result<(), Memory>
    ensures { OnOk result ((x : Pmac) → is_one_of own.new.items x ≡ if same_pmac pmac x then is_to_host else is_one_of own.old.items x) }
{
    if is_to_host {
        add(own, pmac)
    } else {
        leave_out(own, pmac);
        Ok(())
    }
}

fn add(own: &mut Vec<Pmac>, pmac: Pmac) -> Result<(), Memory>
    ensures { OnOk result ((x : Pmac) → is_one_of own.new.items x ≡ (same_pmac pmac x || is_one_of own.old.items x)) }
{
    if is_one_of(own, pmac) {
        return Ok(());
    }
    own.push(pmac)?;
    Ok(())
}

fn leave_out(own: &mut Vec<Pmac>, pmac: Pmac)
    ensures { (x : Pmac) → is_one_of own.new.items x ≡ (not (same_pmac pmac x) && is_one_of own.old.items x) }
{
    own.retain(|one| !is_same(*one, pmac));
}

/// Whether an address has the largest number of those that were registered while they were granted to a
/// host last.
pub(crate) fn is_newest(
    alloc: Global,
    journal: &[Entry],
    h: HostNo,
    pmac: Pmac,
) -> Result<bool, Memory>
    ensures { IfOk result (λ is. IsTrue is ↔ IsNewest journal.now h pmac) }
{
    let mut addresses = HostAddresses {
        own: Vec::new(alloc),
        largest: None,
        is_it: false,
    };
    for entry in journal {
        addresses.read(h, pmac, entry)?;
    }
    Ok(addresses.is_it)
}

fn is_outcome(entry: &Entry) -> bool
    ensures { result ≡ is_outcome entry.now }
{
    matches!(entry, Entry::Settled(_) | Entry::Unsettled(_))
}

fn is_settled(entry: &Entry) -> bool
    ensures { result ≡ is_settled entry.now }
{
    matches!(entry, Entry::Settled(_))
}

// The last entry that says how a settling ended.
fn last_outcome(journal: &[Entry]) -> Option<&Entry>
    ensures { option_map (λ entry. entry.now) result ≡ find is_outcome (reverse journal.now) }
{
    journal.iter().rev().find(|entry| is_outcome(entry))
}

/// Whether the last settling settled the fabric.
pub(crate) fn ended_settled(journal: &[Entry]) -> bool
    ensures { result ≡ ended_settled journal.now }
{
    match last_outcome(journal) {
        None => false,
        Some(entry) => is_settled(entry),
    }
}
