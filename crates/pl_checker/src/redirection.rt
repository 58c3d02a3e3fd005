//! A frame goes on to a newer address of the same host.
ghost use Rattle.std.specs.Prelude.{◌≡◌, ◌↔◌, ◌∷◌, List, ℕ, IsTrue, option_map};
ghost use Rattle.pl_journal.specs.declared.entry.Entry.{Entry};
ghost use Rattle.pl_journal.specs.declared.entry.Entry.TheVariants.{Redirected};
ghost use Rattle.pl_journal.specs.Lossy.{is_turning};
ghost use Rattle.pl_past_tables.specs.Keys.{edge_port_at};
ghost use Rattle.pl_past_tables.specs.Legs.{switches_of};
ghost use Rattle.pl_checker.specs.Past.{Keeps, MayFollow};

use crate::past::Past;
use pl_past_tables::{Leg, Point, number_of};
use pl_pmac::Pmac;
use pl_wiring::Wiring;

impl Past {
    pub(crate) fn may_redirect(&self, wiring: &Wiring, id: u64, old: Pmac, new: Pmac) -> bool
        ensures { (text : List ℕ) (past : List Entry) → Keeps wiring.now text past self.now →
            (IsTrue result ↔ MayFollow wiring.now past (Redirected id old new)) }
    {
        let Some(row) = self.frames.flying(id) else {
            return false;
        };
        let from = number_of(old);
        let to = number_of(new);
        let there = self.addresses.point_of(from);
        if row.address != from {
            return false;
        }
        if !is_turning(row.leg, row.redirected, there) {
            return false;
        }
        if !self.holders.is_live(from) {
            return false;
        }
        if !self.holders.is_live(to) {
            return false;
        }
        self.addresses.is_newer(from, to)
    }

    /// A frame goes on to another address.
    pub(crate) fn redirect(&mut self, wiring: &Wiring, id: u64, old: Pmac, new: Pmac)
        ensures { (text : List ℕ) (past : List Entry) → Keeps wiring.now text past self.old →
            MayFollow wiring.now past (Redirected id old new) → Keeps wiring.now text (Redirected id old new ∷ past) self.new }
    {
        let Some(row) = self.frames.flying(id) else {
            return;
        };
        self.frames.put(id, row.redirecting(new));
        self.just = None;
    }
}

fn is_turning(leg: Leg, redirected: bool, there: Option<Point>) -> bool
    ensures { result ≡ is_turning (switches_of leg) redirected (option_map edge_port_at there) }
{
    match (leg.last(), there) {
        (None, _) => redirected,
        (Some(_), None) => false,
        (Some(s), Some(there)) => s.0 == there.edge.0,
    }
}
