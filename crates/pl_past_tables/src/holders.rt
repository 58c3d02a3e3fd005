ghost use Rattle.std.specs.Prelude.{◌≡◌, ◌+◌, ◌-◌, ◌<◌, ◌≤◌, ◌^◌, ◌∷◌, [], List, ℕ, IfSome, IfNone, OnOk, length, true, false, option_map, if◌then◌else◌};
ghost use Rattle.pl_wiring.specs.Plan.{Plan};
ghost use Rattle.pl_wiring.specs.declared.label.SwitchNo.{SwitchNo};
ghost use Rattle.pl_pmac.specs.declared.pmac.Pmac.{Pmac};
ghost use Rattle.pl_pmac.specs.Pmac.{pmac_number};
ghost use Rattle.pl_journal.specs.declared.entry.Entry.{Entry};
ghost use Rattle.pl_journal.specs.declared.entry.Entry.TheVariants.{Freed, Granted};
ghost use Rattle.pl_journal.specs.Places.{are_live_there, edge_port, is_at, is_live};
ghost use Rattle.pl_journal.specs.Lossy.{RunTo};
ghost use Rattle.pl_past.specs.Addressees.{Tenure, held_as_of, tenures};
ghost use Rattle.pl_past_tables.specs.declared.keys.Point.{Point};
ghost use Rattle.pl_past_tables.specs.Keys.{edge_port_at};
ghost use Rattle.pl_past_tables.specs.Holders.{AreBegun, AreFit, AreTenures, IsBegunAt, KeepsHolders, free_in, one_more, tenure_of};

use crate::keys::{Point, Term};
use crate::last::Last;
use pl_journal::Memory;
use pl_wiring::HostNo;
use std::alloc::Global;

/// Who holds an address from an entry on; none where that entry frees it.
#[derive(Clone, Copy, Debug)]
pub(crate) struct Held {
    pub(crate) since: u64,
    pub(crate) host: Option<HostNo>,
}

/// Which addresses are live, and who held them when. An address is named by its number of 48 bits.
#[derive(Debug, Drop)]
pub struct Holders {
    pub(crate) live: Last<u64, bool>,
    pub(crate) counts: Last<u64, u64>,
    pub(crate) terms: Last<Term, Held>,
    pub(crate) free: Last<Point, u64>,
}

impl Holders {
    pub fn new(alloc: Global) -> Holders
        ensures { KeepsHolders [] result }
    {
        Holders {
            live: Last::new(alloc),
            counts: Last::new(alloc),
            terms: Last::new(alloc),
            free: Last::new(alloc),
        }
    }

    /// Whether an address is live.
    pub fn is_live(&self, address: u64) -> bool
        ensures { (past : List Entry) → KeepsHolders past self.now → result ≡ is_live past address }
    {
        self.live.get(address).unwrap_or(false)
    }

    /// Whether each address that was granted at a port is live.
    pub fn are_live_there(&self, point: Point) -> bool
        ensures { (past : List Entry) → KeepsHolders past self.now → result ≡ are_live_there (is_live past) past (edge_port_at point) }
    {
        free_in(&self.free, point) == 0
    }

    /// The host that held an address as of entry `n`.
    pub fn held_as_of(&self, address: u64, n: u64) -> Option<HostNo>
        ensures { (past : List Entry) → KeepsHolders past self.now →
            option_map (λ h. h.0) result ≡ held_as_of n (tenures past address) }
    {
        let begun = self.begun_by(address, n);
        if begun == 0 {
            return None;
        }
        let term = Term {
            address,
            place: begun - 1,
        };
        match self.terms.get(term) {
            None => None,
            Some(held) => held.host,
        }
    }

    // How many tenures of an address began by entry `n`.
    fn begun_by(&self, address: u64, n: u64) -> u64
        ensures { (past : List Entry) → KeepsHolders past self.now →
            (result ≤ length (tenures past address)) × AreBegun n (tenures past address) result result }
    {
        let mut low = 0;
        let mut high = self.counts.get(address).unwrap_or(0);
        while low < high {
            let middle = low + (high - low) / 2;
            if self.has_begun(address, middle, n) {
                low = middle + 1;
            } else {
                high = middle;
            }
        }
        low
    }

    // Whether the tenure of an address that has so many before it began by entry `n`.
    fn has_begun(&self, address: u64, place: u64, n: u64) -> bool
        ensures { (past : List Entry) → KeepsHolders past self.now → IsBegunAt n (tenures past address) place result }
    {
        match self.terms.get(Term { address, place }) {
            None => false,
            Some(held) => held.since <= n,
        }
    }

    /// An address is granted by entry `n`; where it was granted before, if it was.
    pub fn grant(
        &mut self,
        n: u64,
        address: u64,
        host: HostNo,
        before: Option<Point>,
    ) -> Result<(), Memory>
        ensures { OnOk result ((plan : Plan) (past : List Entry) (x : Pmac) (e : SwitchNo) (p : ℕ) → RunTo plan past → AreFit past →
            KeepsHolders past self.old →
            n ≡ length past + 1 → address ≡ pmac_number x → is_live past address ≡ false → option_map edge_port_at before ≡ edge_port past address →
            KeepsHolders (Granted x host e p ∷ past) self.new) }
    {
        let held = Held {
            since: n,
            host: Some(host),
        };
        begin(&mut self.counts, &mut self.terms, address, held)?;
        take_one(&mut self.free, before)?;
        self.live.put(address, true)?;
        Ok(())
    }

    /// An address is freed by entry `n`; where it was granted.
    pub fn free(&mut self, n: u64, address: u64, there: Option<Point>) -> Result<(), Memory>
        ensures { OnOk result ((plan : Plan) (past : List Entry) (x : Pmac) → RunTo plan past → AreFit past → KeepsHolders past self.old →
            n ≡ length past + 1 → address ≡ pmac_number x → is_live past address ≡ true → option_map edge_port_at there ≡ edge_port past address →
            KeepsHolders (Freed x ∷ past) self.new) }
    {
        let held = Held {
            since: n,
            host: None,
        };
        begin(&mut self.counts, &mut self.terms, address, held)?;
        free_one(&mut self.free, there)?;
        self.live.put(address, false)?;
        Ok(())
    }
}

// A tenure of an address begins.
fn begin(
    counts: &mut Last<u64, u64>,
    terms: &mut Last<Term, Held>,
    address: u64,
    held: Held,
) -> Result<(), Memory>
    ensures { OnOk result ((all : ℕ → List Tenure) → AreTenures counts.old.said.entries terms.old.said.entries all → length (all address) + 1 < 2 ^ 64 →
        AreTenures counts.new.said.entries terms.new.said.entries (one_more all address (tenure_of held))) }
{
    let place = counts.get(address).unwrap_or(0);
    terms.put(Term { address, place }, held)?;
    counts.put(address, place.saturating_add(1))?;
    Ok(())
}

fn free_in(free: &Last<Point, u64>, point: Point) -> u64
    ensures { result ≡ free_in free.now.said.entries point }
{
    free.get(point).unwrap_or(0)
}

// One address less, of those that were granted at a port, is not live.
fn take_one(free: &mut Last<Point, u64>, there: Option<Point>) -> Result<(), Memory>
    ensures { OnOk result ((k : Point) → free_in free.new.said.entries k
        ≡ (if is_at (option_map edge_port_at there) (edge_port_at k) then free_in free.old.said.entries k - 1 else free_in free.old.said.entries k)) }
{
    let Some(there) = there else {
        return Ok(());
    };
    let count = free_in(free, there);
    free.put(there, count.saturating_sub(1))?;
    Ok(())
}

// One address more, of those that were granted at a port, is not live.
fn free_one(free: &mut Last<Point, u64>, there: Option<Point>) -> Result<(), Memory>
    ensures { OnOk result ((k : Point) → free_in free.old.said.entries k + 1 < 2 ^ 64 → free_in free.new.said.entries k
        ≡ (if is_at (option_map edge_port_at there) (edge_port_at k) then free_in free.old.said.entries k + 1 else free_in free.old.said.entries k)) }
{
    let Some(there) = there else {
        return Ok(());
    };
    let count = free_in(free, there);
    free.put(there, count.saturating_add(1))?;
    Ok(())
}
