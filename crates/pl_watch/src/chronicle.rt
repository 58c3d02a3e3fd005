ghost use Rattle.std.specs.Prelude.{◌≡◌, ◌<◌, ◌+◌, [], IfOk, None, OnOk, false, length, map, nat_le, slice_get, true, unwrap_or};
ghost use Rattle.pl_wiring.specs.Labels.{switch_count};
ghost use Rattle.pl_journal.specs.Text.{IsNamed};
ghost use Rattle.pl_schedule.specs.Coming.{IsHeardThere, coming_of};
ghost use Rattle.pl_shelf.specs.Held.{standard_output};
ghost use Rattle.pl_log_lines.specs.Pages.{HoldsText, Prints};
ghost use Rattle.pl_watch.specs.Logs.{line_in, log_text, lost_lines, lost_of, shown_entry};
ghost use Rattle.pl_watch.specs.Seen.{HasSeen, IsLogged, IsToldOf, ToldOfManager, ToldOfSwitch, WritesEntry};
ghost use Rattle.pl_log_lines.specs.Telling.{Tells, TellsEvent, node_in};
ghost use Rattle.pl_watch.specs.Marks.{a_mark_is_seen};
ghost use Rattle.pl_world.specs.declared.limits.Limits.{Limits};
ghost use Rattle.pl_world.specs.Booting.{booted};
ghost use Rattle.pl_world.specs.Changes.{out_of};
ghost use Rattle.pl_watch.specs.Events.{leaving, leaving_from, manager_of, node_of};
ghost use Rattle.pl_node.specs.ManagerViews.{restarted_manager};
ghost use Rattle.pl_world.specs.Ready.{CanStep};
ghost use Rattle.pl_world.specs.Refusals.{refusal, refusal_of_event};
ghost use Rattle.pl_world.specs.WorldRule.{WorldStep};
ghost use Rattle.pl_world.specs.Worlds.{WorldView};

use crate::decided::{DecidedManager, DecidedSwitch};
use crate::events::{event_words, node_of};
use crate::heard::{tell_of_manager, tell_of_switch, tell_unheard};
use crate::log_laws::a_log_is_of_a_run;
use crate::news::Change;
use crate::same::is_same_look;
use crate::shadows::Shadows;
use pl_frame::Memory;
use pl_journal::Entry;
use pl_law_runs::every_entry_can_be_saved;
use pl_lists::Queue;
use pl_log_lines::{Look, Page, Told};
use pl_node::{HostLogic, ManagerLogic, SwitchLogic, ToManager};
use pl_schedule::{Coming, World};
use pl_shelf::Shelf;
use pl_stage::Watcher;
use pl_wiring::{SwitchNo, Wiring};
use pl_world::{Event, QueueName};
use pl_world_parts::hear_at;
use std::alloc::Global;
use std::marker::Model;

/// Writes the log of a world as its steps are made. Entries of the journal are written just before the next step, and behind the
/// last one by `end`: so each stands below the event that brought it about.
#[derive(Drop)]
pub struct Chronicle<S: DecidedSwitch, M: DecidedManager, D: Shelf + Drop> {
    alloc: Global,
    look: Look,
    page: Page<D>,
    shadows: Shadows<S, M>,
    /// How many entries of the journal were written, and the line of the script that they have come to.
    entries: usize,
    line: u32,
}

impl<S: DecidedSwitch, M: DecidedManager, D: Shelf + Drop> Model for Chronicle<S, M, D> {
    ghost use Rattle.std.specs.Prelude.{map};
    ghost use Rattle.pl_watch.specs.Seen.{Kept};

    ghost Value = { Kept };

    ghost view = { λ log. record {
      look = log.look;
      page = log.page;
      switches = map S.view log.shadows.switches.items;
      manager = M.view log.shadows.manager;
      entries = log.entries;
      line = log.line;
    } };
}

impl<S: DecidedSwitch, M: DecidedManager, D: Shelf + Drop> Chronicle<S, M, D> {
    /// A log that has nothing in it yet, of a world of this wiring at its beginning. Nothing stands on standard output.
    pub fn begin<H: HostLogic>(
        alloc: Global,
        wiring: &Wiring,
        look: Look,
        shelf: D,
    ) -> Result<Chronicle<S, M, D>, Memory>
        requires { HoldsText ((D.moment shelf).held standard_output) [] }
        ensures { IfOk result (λ log. (limits : Limits) → HasSeen S.rule M.rule H.rule log (booted wiring.now limits)) }
    {
        Ok(Chronicle {
            alloc,
            look,
            page: Page::new(alloc, shelf, look.json)?,
            shadows: Shadows::boot(alloc, wiring)?,
            entries: 0,
            line: 0,
        })
    }

    /// Writes the last entries of the journal, and gives the shelf back; whether no write failed.
    pub fn end<H: HostLogic>(mut self, world: &World<S, M, H>) -> (D, bool)
        requires { HasSeen S.rule M.rule H.rule self world.now }
        ensures logged { result.1 ≡ true → IsLogged S.rule M.rule H.rule self.look ((D.moment result.0).held standard_output) world.now }
        ensures faults { result.1 ≡ false → 0 < (D.moment result.0).write_faults }
    {
        self.tell_entries(world);
        self.page.close()
    }

    /// Whether the log shows these lines.
    pub fn shows(&self, look: &Look) -> bool
        ensures { result ≡ true → self.now.look ≡ look.now }
    {
        is_same_look(&self.look, look)
    }

    fn entries(&self) -> usize
        ensures { result ≡ self.now.entries }
    {
        self.entries
    }

    // The entries that are not written yet.
    fn tell_entries<H: HostLogic>(&mut self, world: &World<S, M, H>)
        requires { HasSeen S.rule M.rule H.rule self.old world.now }
        ensures seen { HasSeen S.rule M.rule H.rule self.new world.now }
        ensures all { self.new.entries ≡ length world.now.journal }
        ensures look { self.new.look ≡ self.old.look }
    {
        a_log_is_of_a_run::<S, M, H>();
        every_entry_can_be_saved::<S, M, H>();
        // A wiring is a fat tree.
        let _hosts = world.wiring().hosts();
        let journal = world.journal().as_slice();
        for n in self.entries()..journal.len() {
            self.tell_entry(world.wiring(), &journal[n], n + 1);
        }
    }

    // An entry, with which so many are written.
    fn tell_entry(&mut self, wiring: &Wiring, entry: &Entry, entries: usize)
        requires named { IsNamed wiring.now entry.now }
        requires next { entries ≡ self.old.entries + 1 }
        ensures { WritesEntry wiring.now entry.now self.old self.new }
    {
        self.entries = entries;
        self.line = line_after(entry, self.line);
        write_entry(&mut self.page, &self.look, self.line, wiring, entry);
    }

    // The event, of which nothing is printed yet.
    fn told_of<'a, H: HostLogic>(&self, world: &'a World<S, M, H>, event: &Event) -> Told<'a>
        requires { refusal world.now event.now ≡ None }
        ensures { IsToldOf self.now world.now event.now result }
    {
        Told {
            look: self.look,
            step: world.next_step(),
            line: self.line,
            node: node_of(world, event),
            words: event_words(world, event),
            is_printed: false,
        }
    }

    fn begin_event(&mut self, told: &mut Told<'_>)
        ensures page { TellsEvent self.old.page self.new.page told.old told.new }
        ensures kept { self.new ≡ record self.old { page = self.new.page } }
    {
        self.page.begin_event(told);
    }

    // What a switch hears and does, and what it knows then.
    fn tell_switch<H: HostLogic>(
        &mut self,
        world: &World<S, M, H>,
        told: &mut Told<'_>,
        coming: &Coming<'_>,
    ) -> Result<(), Memory>
        requires orderly { CanStep world.now }
        requires same { self.old.switches ≡ world.now.switches }
        requires heard { IsHeardThere world.now.plan coming.now }
        ensures told { OnOk result (ToldOfSwitch S.rule world.now.plan (coming_of coming.now) self.old.switches self.new.switches
            self.old.page self.new.page told.old told.new) }
        ensures kept { OnOk result (self.new ≡ record self.old { page = self.new.page; switches = self.new.switches }) }
    {
        switch_hears(
            self.alloc,
            &mut self.shadows.switches,
            &mut self.page,
            world,
            told,
            coming,
        )
    }

    // What the manager hears of a switch, and does.
    fn tell_manager<H: HostLogic>(
        &mut self,
        world: &World<S, M, H>,
        told: &mut Told<'_>,
        s: SwitchNo,
        says: &ToManager,
    ) -> Result<(), Memory>
        requires orderly { CanStep world.now }
        requires same { self.old.manager ≡ world.now.manager }
        requires there { s.0 < switch_count world.now.plan.k }
        requires unspent { nat_le world.now.limits.steps world.now.steps ≡ false }
        ensures told { OnOk result (ToldOfManager M.rule world.now.plan s.0 says.now self.old.manager self.new.manager
            self.old.page self.new.page told.old told.new) }
        ensures kept { OnOk result (self.new ≡ record self.old { page = self.new.page; manager = self.new.manager }) }
    {
        manager_hears(
            self.alloc,
            &mut self.shadows.manager,
            &mut self.page,
            world,
            told,
            s,
            says,
        )
    }

    // A control frame that a switch does not hear: it is lost, or comes out of a port to nobody.
    fn tell_lost<H: HostLogic>(
        &mut self,
        world: &World<S, M, H>,
        told: &mut Told<'_>,
        event: &Event,
    )
        requires allowed { refusal_of_event world.now event.now ≡ None }
        requires node { node_in told.old ≡ node_of world.now event.now }
        ensures told { Tells self.old.page self.new.page told.old told.new (lost_lines world.now event.now) }
        ensures kept { self.new ≡ record self.old { page = self.new.page } }
    {
        tell_lost(&mut self.page, world, told, event);
    }

    fn tell_event<H: HostLogic>(
        &mut self,
        world: &World<S, M, H>,
        event: &Event,
    ) -> Result<(), Memory>
        requires orderly { CanStep world.now }
        requires allowed { refusal world.now event.now ≡ None }
        requires all { self.old.entries ≡ length world.now.journal }
        requires seen { HasSeen S.rule M.rule H.rule self.old world.now }
        ensures { OnOk result ((new : WorldView) → WorldStep S.rule M.rule H.rule world.now event.now new → HasSeen S.rule M.rule H.rule self.new new) }
    {
        let mut told = self.told_of(world, event);
        self.begin_event(&mut told);
        if let Some(coming) = world.coming(event) {
            return self.tell_switch(world, &mut told, &coming);
        }
        if let Some((s, says)) = world.telling(event) {
            return self.tell_manager(world, &mut told, s, says);
        }
        self.tell_lost(world, &mut told, event);
        self.follow_restart(world, event)
    }

    // The second manager begins anew where the first one is going to.
    fn follow_restart<H: HostLogic>(
        &mut self,
        world: &World<S, M, H>,
        event: &Event,
    ) -> Result<(), Memory>
        requires { self.old.manager ≡ world.now.manager }
        ensures { OnOk result (self.new ≡ record self.old { manager = manager_of world.now event.now }) }
    {
        match event {
            Event::Restart => self.restart_manager(world.next_epoch()?),
            _ => Ok(()),
        }
    }

    fn restart_manager(&mut self, epoch: u32) -> Result<(), Memory>
        ensures { OnOk result (self.new ≡ record self.old { manager = restarted_manager self.old.manager.k epoch }) }
    {
        self.shadows.manager.restart(self.alloc, epoch)
    }
}

fn switch_hears<S: SwitchLogic, M: ManagerLogic, H: HostLogic, D: Shelf + Drop>(
    alloc: Global,
    switches: &mut Vec<S>,
    page: &mut Page<D>,
    world: &World<S, M, H>,
    told: &mut Told<'_>,
    coming: &Coming<'_>,
) -> Result<(), Memory>
    requires orderly { CanStep world.now }
    requires same { map S.view switches.old.items ≡ world.now.switches }
    requires heard { IsHeardThere world.now.plan coming.now }
    ensures { OnOk result (ToldOfSwitch S.rule world.now.plan (coming_of coming.now) (map S.view switches.old.items) (map S.view switches.new.items)
        page.old page.new told.old told.new) }
{
    let s = coming.switch.0 as usize;
    let mut acts = Queue::new(alloc);
    hear_at(switches, s, coming.incoming, &mut acts)?;
    let change = Change {
        before: world.switch(coming.switch),
        after: &switches[s],
    };
    tell_of_switch(page, told, world.wiring_index(), coming, &change, &mut acts)
}

fn manager_hears<S: SwitchLogic, M: ManagerLogic, H: HostLogic, D: Shelf + Drop>(
    alloc: Global,
    manager: &mut M,
    page: &mut Page<D>,
    world: &World<S, M, H>,
    told: &mut Told<'_>,
    s: SwitchNo,
    says: &ToManager,
) -> Result<(), Memory>
    requires orderly { CanStep world.now }
    requires same { M.view manager.old ≡ world.now.manager }
    requires there { s.0 < switch_count world.now.plan.k }
    requires unspent { nat_le world.now.limits.steps world.now.steps ≡ false }
    ensures { OnOk result (ToldOfManager M.rule world.now.plan s.0 says.now (M.view manager.old) (M.view manager.new) page.old page.new told.old told.new) }
{
    let mut acts = Queue::new(alloc);
    manager.hears(world.wiring().id(s), says, &mut acts)?;
    tell_of_manager(page, told, world.wiring_index(), says, &mut acts);
    Ok(())
}

#[tactic(auto, using(crate::proofs::Losing::lost_none))]
fn tell_lost<S: SwitchLogic, M: ManagerLogic, H: HostLogic, D: Shelf + Drop>(
    page: &mut Page<D>,
    world: &World<S, M, H>,
    told: &mut Told<'_>,
    event: &Event,
)
    requires allowed { refusal_of_event world.now event.now ≡ None }
    requires node { node_in told.old ≡ node_of world.now event.now }
    ensures { Tells page.old page.new told.old told.new (lost_lines world.now event.now) }
{
    let Some((s, port)) = leaving(event) else {
        return;
    };
    tell_first(page, world, told, s, port);
}

// The port by which something leaves.
fn leaving(event: &Event) -> Option<(SwitchNo, u8)>
    ensures { result ≡ leaving event.now }
{
    match event {
        Event::Lose(s, port) => Some((*s, *port)),
        Event::Deliver(name) => leaving_from(name),
        _ => None,
    }
}

fn leaving_from(name: &QueueName) -> Option<(SwitchNo, u8)>
    ensures { result ≡ leaving_from name.now }
{
    match name {
        QueueName::Port(s, port) => Some((*s, *port)),
        _ => None,
    }
}

// A control frame that is the first to leave by a port.
fn tell_first<S: SwitchLogic, M: ManagerLogic, H: HostLogic, D: Shelf + Drop>(
    page: &mut Page<D>,
    world: &World<S, M, H>,
    told: &mut Told<'_>,
    s: SwitchNo,
    port: u8,
)
    requires switch { s.0 < switch_count world.now.plan.k }
    requires port { port < world.now.plan.k }
    ensures { Tells page.old page.new told.old told.new (lost_of world.now.plan (node_in told.old) (slice_get (out_of world.now s.0 port) 0)) }
{
    let first = world.first_out(s, port);
    tell_unheard(page, told, world.wiring_index(), first);
}

// The line of the script behind an entry.
fn line_after(entry: &Entry, line: u32) -> u32
    ensures { result ≡ unwrap_or (line_in entry.now) line }
{
    match entry {
        Entry::Line(next) => *next,
        _ => line,
    }
}

fn write_entry<D: Shelf + Drop>(
    page: &mut Page<D>,
    look: &Look,
    line: u32,
    wiring: &Wiring,
    entry: &Entry,
)
    requires { IsNamed wiring.now entry.now }
    ensures { Prints page.old page.new (log_text page.old.json wiring.now (shown_entry look.now line entry.now)) }
{
    if !look.is_entry_shown(line, entry) {
        return;
    }
    page.print_entry(&entry.words(wiring));
}

impl<S: DecidedSwitch, M: DecidedManager, H: HostLogic, D: Shelf + Drop> Watcher<S, M, H>
    for Chronicle<S, M, D> {
    ghost has_seen = { λ log w. HasSeen S.rule M.rule H.rule log w };

    fn sees(&mut self, world: &World<S, M, H>, event: &Event) -> Result<(), Memory> {
        self.tell_entries(world);
        self.tell_event(world, event)
    }

    ghost marks = { λ log. a_mark_is_seen S.rule M.rule H.rule log };
}
