//! A frame crosses a switch.
ghost use Rattle.std.specs.Prelude.{◌≡◌, ◌↔◌, ◌+◌, ◌∷◌, List, ℕ, IsTrue, length, option_map};
ghost use Rattle.std.specs.Option.{option_and_then};
ghost use Rattle.pl_journal.specs.declared.entry.Entry.{Entry};
ghost use Rattle.pl_journal.specs.declared.entry.Entry.TheVariants.{Crossed};
ghost use Rattle.pl_journal.specs.Places.{edge_port_of};
ghost use Rattle.pl_journal.specs.Flights.{if_of_switch};
ghost use Rattle.pl_past.specs.Kept.{Kept};
ghost use Rattle.pl_past.specs.Links.{is_live_since, live_since};
ghost use Rattle.pl_past.specs.Legs.{goes_well_by};
ghost use Rattle.pl_past_tables.specs.Frames.{IsRow};
ghost use Rattle.pl_past_tables.specs.Hosts.{KeepsHosts};
ghost use Rattle.pl_past_tables.specs.Keys.{edge_port_at};
ghost use Rattle.pl_past_tables.specs.Links.{KeepsLinks};
ghost use Rattle.pl_checker.specs.Past.{Keeps, MayFollow, leads_from};

use crate::past::Past;
use pl_past_tables::{Point, Row, is_adjacent};
use pl_wiring::{HostNo, SwitchNo, Wiring};

impl Past {
    pub(crate) fn may_cross(&self, wiring: &Wiring, id: u64, s: SwitchNo) -> bool
        ensures { (text : List ℕ) (past : List Entry) → Keeps wiring.now text past self.now →
            (IsTrue result ↔ MayFollow wiring.now past (Crossed id s)) }
    {
        let Some(row) = self.frames.flying(id) else {
            return false;
        };
        self.goes_well(wiring, &row, s)
    }

    // Whether a frame goes on to a switch with a good leg, over a link that was live from its last crossing on.
    fn goes_well(&self, wiring: &Wiring, row: &Row, s: SwitchNo) -> bool
        ensures { (text : List ℕ) (past : List Entry) (frame : Kept) → KeepsLinks past self.now.links → IsRow text row.now frame →
            result ≡ goes_well_by wiring.now (live_since past) frame s.0 }
    {
        let to_group = row.carried.group.is_some();
        let good = row.leg.goes_on_to(to_group, wiring.k(), s);
        let led = self.leads(wiring, row.leg.last(), s, row.crossed);
        good && led
    }

    // Whether the link from the switch before was live from this entry on.
    fn leads(&self, wiring: &Wiring, before: Option<SwitchNo>, s: SwitchNo, crossed: u64) -> bool
        ensures { (past : List Entry) → KeepsLinks past self.now.links →
            result ≡ leads_from wiring.now past (option_map (λ t. t.0) before) s.0 crossed }
    {
        let Some(before) = before else {
            return true;
        };
        let since = self.links.live_since(before, s);
        is_adjacent(wiring, before, s) && is_live_since(since, crossed)
    }

    /// A frame crosses a switch by entry `n`.
    pub(crate) fn cross(&mut self, wiring: &Wiring, n: u64, id: u64, s: SwitchNo)
        ensures { (text : List ℕ) (past : List Entry) → Keeps wiring.now text past self.old → n ≡ length past + 1 →
            MayFollow wiring.now past (Crossed id s) → Keeps wiring.now text (Crossed id s ∷ past) self.new }
    {
        let Some(row) = self.frames.flying(id) else {
            return;
        };
        let there = self.entrance(wiring, row.sender, s);
        let source = self.addresses.address_at(row.sender, there);
        self.frames.put(id, row.crossing(n, s, there, source));
        self.just = Some(id);
    }

    // The port of this switch where the sender of a frame stands.
    fn entrance(&self, wiring: &Wiring, sender: Option<HostNo>, s: SwitchNo) -> Option<Point>
        ensures { (past : List Entry) → KeepsHosts wiring.now past self.now.hosts →
            option_map edge_port_at result ≡ option_and_then (if_of_switch s.0) (option_and_then (edge_port_of wiring.now past) (option_map (λ h. h.0) sender)) }
    {
        let Some(host) = sender else {
            return None;
        };
        match self.hosts.point_of(wiring, host) {
            None => None,
            Some(point) => if_of_switch(s, point),
        }
    }
}

fn if_of_switch(s: SwitchNo, point: Point) -> Option<Point>
    ensures { option_map edge_port_at result ≡ if_of_switch s.0 (edge_port_at point) }
{
    if point.edge.0 == s.0 {
        Some(point)
    } else {
        None
    }
}

fn is_live_since(since: Option<u64>, n: u64) -> bool
    ensures { result ≡ is_live_since since n }
{
    match since {
        None => false,
        Some(m) => m < n,
    }
}
