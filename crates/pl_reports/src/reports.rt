ghost use Rattle.std.specs.Prelude.{◌≡◌, ◌≤◌, IfNone, IfSome, OnErr, OnOk, is_some, length, map, slice_get};
ghost use Rattle.std.specs.BTreeMap.{insert_entry, values};
ghost use Rattle.std.specs.BTreeSet.{insert_key};
ghost use Rattle.std.specs.List.{list_any};
ghost use Rattle.std.specs.List.Sorted.{IsStrictlySortedBy};
ghost use Rattle.pl_layouts.specs.Placement.{is_known};
ghost use Rattle.pl_layouts.specs.declared.place.Place.{Place};
ghost use Rattle.pl_node.specs.ManagerViews.{Told, alive_neighbours, edge_at, id_cmp, is_alive, is_told_pod, is_told_usable, link_cmp, neighbours, place_of, placed_edges, switches};
ghost use Rattle.pl_manager_rule.specs.ManagerRule.{with_link, with_place};
ghost use Rattle.pl_reports.specs.Kept.{has_told, no_report, nothing_told, report_of, with_edge};
ghost use Rattle.pl_frame.specs.declared.address.SwitchId.{SwitchId};

use crate::edges::keep_edge;
use crate::entering::{NOWHERE, enter};
use crate::living::{Links, is_usable};
use crate::positions::position;
use crate::renewing::{add_neighbour, move_to, renew_alive, renew_beside};
use crate::switch_report::SwitchReport;
use pl_frame::SwitchId;
use pl_node::{Memory, Place, SwitchList};
use std::alloc::Global;
use std::collections::BTreeMap;
use std::marker::Model;

// The place of each switch.
type Places = BTreeMap<SwitchId, Place>;

/// What each switch told last of its place and of each of its links. Contracts see that.
#[derive(Debug, Drop)]
pub struct Reports {
    alloc: Global,
    places: Places,
    links: Links,
    speakers: Vec<SwitchId>,
    placed: SwitchList,
    // Of each of the speakers, in their order.
    all: Vec<SwitchReport>,
}

impl Model for Reports {
    ghost use Rattle.pl_node.specs.ManagerViews.{Told};
    ghost use Rattle.pl_reports.specs.Kept.{IsKeptFor};

    ghost Value = { Told };

    ghost view = { λ r. record { places = r.places.entries; links = r.links.entries } };

    ghost invariant = { λ r. IsKeptFor (record { places = r.places.entries; links = r.links.entries }) r.speakers.items r.placed r.all.items };
}

impl Reports {
    pub fn new(alloc: Global) -> Reports
        ensures { result ≡ nothing_told }
    {
        Reports {
            alloc,
            places: BTreeMap::new(alloc),
            links: BTreeMap::new(alloc),
            speakers: Vec::new(alloc),
            placed: SwitchList::new(alloc),
            all: Vec::new(alloc),
        }
    }

    /// A switch tells its place. After want of memory nothing is told.
    pub fn set_place(&mut self, switch: SwitchId, place: Place) -> Result<(), Memory>
        ensures ok { OnOk result (self.new ≡ with_place self.old switch place) }
        ensures err { OnErr result (self.new ≡ nothing_told) }
    {
        let alloc = self.alloc;
        match keep_place(
            &mut self.places,
            &mut self.speakers,
            &mut self.all,
            &mut self.placed,
            alloc,
            switch,
            place,
        ) {
            Ok(()) => Ok(()),
            Err(memory) => {
                *self = Reports::new(alloc);
                Err(memory)
            }
        }
    }

    /// A switch tells whether its link to a neighbour is usable. After want of memory nothing is told.
    pub fn report(
        &mut self,
        switch: SwitchId,
        neighbour: SwitchId,
        usable: bool,
    ) -> Result<(), Memory>
        ensures ok { OnOk result (self.new ≡ with_link self.old switch neighbour usable) }
        ensures err { OnErr result (self.new ≡ nothing_told) }
    {
        let alloc = self.alloc;
        match keep_link(
            &mut self.links,
            &mut self.speakers,
            &mut self.all,
            alloc,
            switch,
            neighbour,
            usable,
        ) {
            Ok(()) => Ok(()),
            Err(memory) => {
                *self = Reports::new(alloc);
                Err(memory)
            }
        }
    }

    /// What each switch that told a place or a link told of itself, by rising id.
    pub fn of_switches(&self) -> &[SwitchReport]
        ensures { result.now ≡ map (report_of self.now) (switches self.now) }
    {
        self.all.as_slice()
    }

    // What a switch told of itself, if it told something.
    fn of(&self, switch: SwitchId) -> Option<&SwitchReport>
        ensures some { IfSome result (λ report. report.now ≡ report_of self.now switch) }
        ensures none { IfNone result (report_of self.now switch ≡ no_report) }
        ensures told { is_some result ≡ has_told self.now switch }
    {
        match position(self.speakers.as_slice(), switch) {
            Ok(at) => Some(&self.all[at]),
            Err(_) => None,
        }
    }

    /// The place that a switch told last; all of it unknown where it told none.
    pub fn place_of(&self, switch: SwitchId) -> Place
        ensures { result ≡ place_of self.now switch }
    {
        match self.of(switch) {
            Some(report) => report.place,
            None => NOWHERE,
        }
    }

    /// How many switches told their place.
    pub fn places_told(&self) -> usize
        ensures many { result ≡ length self.now.places }
        ensures few { result ≤ length (switches self.now) }
    {
        self.places.len()
    }

    /// Whether this pod stands in a place that was told.
    pub fn has_pod(&self, pod: u16) -> bool
        ensures { result ≡ is_told_pod self.now pod }
    {
        has_pod(&self.places, pod)
    }

    /// Whether a switch told last that its link to this neighbour is usable.
    pub fn told(&self, switch: SwitchId, neighbour: SwitchId) -> bool
        ensures { result ≡ is_told_usable self.now switch neighbour }
    {
        is_usable(&self.links, switch, neighbour)
    }

    /// Whether both ends told last that their link is usable.
    pub fn is_alive(&self, a: SwitchId, b: SwitchId) -> bool
        ensures { result ≡ is_alive self.now a b }
    {
        match self.of(a) {
            Some(report) => report.alive.contains(&b),
            None => false,
        }
    }

    /// Whether a switch told a place or a link.
    pub fn has_told(&self, switch: SwitchId) -> bool
        ensures { result ≡ has_told self.now switch }
    {
        self.of(switch).is_some()
    }

    /// The switches that told a place or a link, by rising id.
    pub fn switches(&self) -> &[SwitchId]
        ensures { result.now ≡ switches self.now }
    {
        self.speakers.as_slice()
    }

    /// Switch number n of those, counted from 0; none past the last.
    pub fn switch(&self, n: usize) -> Option<SwitchId>
        ensures { result ≡ slice_get (switches self.now) n }
    {
        self.switches().get(n).copied()
    }

    /// The edge switches that told their pod and their position, by rising id.
    pub fn placed_edges(&self) -> &[SwitchId]
        ensures value { result.now ≡ map (λ e. e.switch) (placed_edges self.now) }
        ensures rising { IsStrictlySortedBy id_cmp result.now }
    {
        self.placed.as_slice()
    }

    /// The neighbours that a switch told of, by rising id.
    pub fn neighbours(&self, switch: SwitchId) -> &[SwitchId]
        ensures { result.now ≡ neighbours self.now switch }
    {
        match self.of(switch) {
            Some(report) => report.neighbours.as_slice(),
            None => &[],
        }
    }

    /// Those of them over links that are alive, by rising id.
    pub fn alive_neighbours(&self, switch: SwitchId) -> &[SwitchId]
        ensures value { result.now ≡ alive_neighbours self.now switch }
        ensures rising { IsStrictlySortedBy id_cmp result.now }
    {
        match self.of(switch) {
            Some(report) => report.alive.as_slice(),
            None => &[],
        }
    }

    /// Neighbour number n of the switch, counted from 0; none past the last.
    pub fn neighbour(&self, switch: SwitchId, n: usize) -> Option<SwitchId>
        ensures { result ≡ slice_get (neighbours self.now switch) n }
    {
        self.neighbours(switch).get(n).copied()
    }
}

// Puts the place of a switch into the tables.
fn keep_place(
    places: &mut Places,
    speakers: &mut Vec<SwitchId>,
    all: &mut Vec<SwitchReport>,
    placed: &mut SwitchList,
    alloc: Global,
    switch: SwitchId,
    place: Place,
) -> Result<(), Memory>
    requires rising { IsStrictlySortedBy id_cmp speakers.old.items }
    requires even { length all.old.items ≡ length speakers.old.items }
    ensures places { OnOk result (places.new.entries ≡ insert_entry id_cmp places.old.entries switch place) }
    ensures speakers { OnOk result (speakers.new.items ≡ insert_key id_cmp speakers.old.items switch) }
    ensures placed { OnOk result (placed.new ≡ with_edge placed.old switch (is_some (edge_at switch place))) }
    ensures all { OnOk result ((told : Told) → speakers.old.items ≡ switches told → all.old.items ≡ map (report_of told) (switches told) →
        all.new.items ≡ map (report_of (with_place told switch place)) (switches (with_place told switch place))) }
{
    places.insert(switch, place)?;
    let at = enter(speakers, all, alloc, switch)?;
    move_to(all, at, place);
    keep_edge(placed, alloc, switch, place)?;
    Ok(())
}

// Puts a link of a switch into the tables, and renews which neighbours of its ends are alive.
fn keep_link(
    links: &mut Links,
    speakers: &mut Vec<SwitchId>,
    all: &mut Vec<SwitchReport>,
    alloc: Global,
    switch: SwitchId,
    neighbour: SwitchId,
    usable: bool,
) -> Result<(), Memory>
    requires rising { IsStrictlySortedBy id_cmp speakers.old.items }
    requires even { length all.old.items ≡ length speakers.old.items }
    ensures links { OnOk result (links.new.entries ≡ insert_entry link_cmp links.old.entries (switch, neighbour) usable) }
    ensures speakers { OnOk result (speakers.new.items ≡ insert_key id_cmp speakers.old.items switch) }
    ensures all { OnOk result ((told : Told) → links.old.entries ≡ told.links → speakers.old.items ≡ switches told →
        all.old.items ≡ map (report_of told) (switches told) →
        all.new.items ≡ map (report_of (with_link told switch neighbour usable)) (switches (with_link told switch neighbour usable))) }
{
    links.insert((switch, neighbour), usable)?;
    let at = enter(speakers, all, alloc, switch)?;
    add_neighbour(all, at, neighbour)?;
    renew_alive(all, alloc, links, at, switch)?;
    renew_beside(all, alloc, links, speakers.as_slice(), neighbour)?;
    Ok(())
}

fn has_pod(places: &Places, pod: u16) -> bool
    ensures { result ≡ list_any (λ place. is_known place.pod pod) (values places.now) }
{
    places.values().any(|place| is_of_pod(place, pod))
}

fn is_of_pod(place: &Place, pod: u16) -> bool
    ensures { result ≡ is_known place.now.pod pod }
{
    match place.pod {
        Some(told) => told == pod,
        None => false,
    }
}
