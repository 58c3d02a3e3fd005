ghost use Rattle.std.specs.Prelude.{◌≡◌, ◌<◌, ℕ, List, [], ◌∷◌, ◌++◌, slice_index, IfOk, OnOk};
ghost use Rattle.pl_journal.specs.declared.entry.Entry.{Entry};
ghost use Rattle.pl_output.specs.Summary.{count_of, counts_of, ending_of, index_of, receiver_of, sender_of, skipper_of};
ghost use Rattle.pl_output.specs.Tallied.{IsTallyOf, with_one};

use crate::summary::host_counts::HostCounts;
use crate::summary::totals::Totals;
use pl_frame::Memory;
use pl_inputs::one_more;
use pl_journal::{Cause, Entry};
use std::alloc::Global;

/// How many causes there are.
const CAUSE_COUNT: usize = 9;

/// What a journal has counted: the entries of each kind, the dropped ones by their cause's index, and
/// those of each host by its number.
#[derive(Debug, Drop)]
pub(crate) struct Tally {
    pub totals: Totals,
    pub ended: Vec<u64>,
    pub sent: Vec<u64>,
    pub arrived: Vec<u64>,
    pub skipped: Vec<u64>,
}

impl Tally {
    /// The tally of all entries.
    pub fn of(alloc: Global, hosts: usize, entries: &[Entry]) -> Result<Tally, Memory>
        ensures { IfOk result (λ tally. IsTallyOf tally hosts entries.now) }
    {
        let mut tally = Tally::none(alloc, hosts)?;
        for entry in entries {
            tally.count(entry)?;
        }
        Ok(tally)
    }

    /// How many frames ended for a cause.
    pub fn ended_for(&self, cause: Cause) -> u64
        ensures { (hosts : ℕ) (journal : List Entry) → IsTallyOf self.now hosts journal →
            result ≡ count_of ending_of (index_of cause) journal }
    {
        count_in(self.ended.as_slice(), index_of(cause))
    }

    pub fn of_host(&self, n: usize) -> HostCounts
        ensures { (hosts : ℕ) (journal : List Entry) → IsTallyOf self.now hosts journal → n < hosts →
            result ≡ counts_of n journal }
    {
        HostCounts {
            sent: count_in(self.sent.as_slice(), n),
            arrived: count_in(self.arrived.as_slice(), n),
            skipped: count_in(self.skipped.as_slice(), n),
        }
    }

    fn none(alloc: Global, hosts: usize) -> Result<Tally, Memory>
        ensures { IfOk result (λ tally. IsTallyOf tally hosts []) }
    {
        Ok(Tally {
            totals: Totals::none(),
            ended: vec![in alloc; 0; CAUSE_COUNT]?,
            sent: vec![in alloc; 0; hosts]?,
            arrived: vec![in alloc; 0; hosts]?,
            skipped: vec![in alloc; 0; hosts]?,
        })
    }

    fn count(&mut self, entry: &Entry) -> Result<(), Memory>
        ensures { OnOk result ((hosts : ℕ) (past : List Entry) → IsTallyOf self.old hosts past →
            IsTallyOf self.new hosts (past ++ entry.now ∷ [])) }
    {
        self.totals.count(entry)?;
        count_at(&mut self.ended, ending(entry))?;
        count_at(&mut self.sent, sender(entry))?;
        count_at(&mut self.arrived, receiver(entry))?;
        count_at(&mut self.skipped, skipper(entry))
    }
}

// One more at a number, if there is one.
fn count_at(counts: &mut Vec<u64>, number: Option<usize>) -> Result<(), Memory>
    ensures { OnOk result (counts.new.items ≡ with_one counts.old.items number) }
{
    if let Some(n) = number {
        if let Some(count) = counts.get_mut(n) {
            *count = one_more(*count)?;
        }
    }
    Ok(())
}

fn count_in(counts: &[u64], n: usize) -> u64
    ensures { result ≡ slice_index counts.now n }
{
    counts.get(n).copied().unwrap_or(0)
}

fn sender(entry: &Entry) -> Option<usize>
    ensures { result ≡ sender_of entry.now }
{
    match entry {
        Entry::Sent(_, host, _) => Some(host.0 as usize),
        _ => None,
    }
}

fn receiver(entry: &Entry) -> Option<usize>
    ensures { result ≡ receiver_of entry.now }
{
    match entry {
        Entry::Arrived(_, host, _) => Some(host.0 as usize),
        _ => None,
    }
}

fn skipper(entry: &Entry) -> Option<usize>
    ensures { result ≡ skipper_of entry.now }
{
    match entry {
        Entry::Skipped(host, _) => Some(host.0 as usize),
        _ => None,
    }
}

fn ending(entry: &Entry) -> Option<usize>
    ensures { result ≡ ending_of entry.now }
{
    match entry {
        Entry::Dropped(_, cause) => Some(index_of(*cause)),
        _ => None,
    }
}

// The index of a cause in their order.
fn index_of(cause: Cause) -> usize
    ensures { result ≡ index_of cause }
{
    cause as usize
}
