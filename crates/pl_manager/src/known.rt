//! What the manager knows, and what it does with words that are treated.
ghost use Rattle.std.specs.Prelude.{◌≡◌, ◌∷◌, ◌++◌, ◌||◌, [], if◌then◌else◌, IfOk, IsTrue, OnOk, fold, map};
ghost use Rattle.std.specs.List.{cons_option, filter_map};
ghost use Rattle.pl_gathering.specs.Acting.{then_treats, treats_all};
ghost use Rattle.pl_gathering.specs.Gathering.{in_turn};
ghost use Rattle.pl_gatherer.specs.Gatherers.{heard_of};
ghost use Rattle.pl_node.specs.Gains.{Gains};
ghost use Rattle.pl_frame.specs.declared.address.SwitchId.{SwitchId};
ghost use Rattle.pl_layouts.specs.Equality.{same_switch};
ghost use Rattle.pl_node.specs.ManagerViews.{ManagerView, is_heard, restarted_manager};
ghost use Rattle.pl_manager_rule.specs.Reports.{leads_known};
ghost use Rattle.pl_manager_rule.specs.Treating.{at_rest, follows, then_releases, treats, waits_for_places};
ghost use Rattle.pl_manager.specs.Manager.{CanTreat, IsTreatedAs, done_so_far, is_turn, nothing_known, put, treated_of};

use crate::routing::Routing;
use crate::saying::{answer, give_pod, learn, note_aged, tell_release};
use pl_frame::SwitchId;
use pl_gatherer::Kept;
use pl_node::{ManagerOutbox, Memory, ToManager};
use pl_pmac::Pmac;
use pl_registry::{Askers, Registry};
use std::alloc::Global;

/// All that the manager knows of what it treated since it began anew.
#[derive(Drop)]
pub(crate) struct Known {
    pub(crate) alloc: Global,
    pub(crate) k: u8,
    pub(crate) routing: Routing,
    pub(crate) askers: Askers,
    pub(crate) registry: Registry,
}

impl Known {
    /// Nothing is known, in this epoch.
    pub(crate) fn new(alloc: Global, k: u8, epoch: u32) -> Result<Known, Memory>
        ensures { IfOk result (λ known. nothing_known known k epoch) }
    {
        let routing = Routing::new(alloc)?;
        Ok(Known {
            alloc,
            k,
            routing,
            askers: Askers::new(alloc),
            registry: Registry::new(alloc, epoch),
        })
    }

    /// A word that is heard alone is treated, and then comes what follows from it.
    pub(crate) fn hear(
        &mut self,
        epoch: u32,
        switch: SwitchId,
        word: &ToManager,
        out: &mut ManagerOutbox,
    ) -> Result<(), Memory>
        requires { CanTreat self.old (record { switch = switch; word = word.now } ∷ []) }
        ensures heard { OnOk result ((v : ManagerView) → v.epoch ≡ epoch → Gains out.old out.new (λ acts.
            treats_all treats follows (at_rest (put self.old v)) (record { switch = switch; word = word.now } ∷ [])
            ≡ record { known = at_rest (put self.new v); acts = acts })) }
        ensures k { self.new.k ≡ self.old.k }
    {
        let mut aged = Vec::new(self.alloc);
        self.treat(epoch, switch, word, &mut aged, out)?;
        self.release_all(&aged, out)
    }

    /// All that was kept is treated, wishes for pods behind all else, and then comes what follows from it.
    pub(crate) fn hear_all(
        &mut self,
        epoch: u32,
        kept: &[Kept],
        out: &mut ManagerOutbox,
    ) -> Result<(), Memory>
        requires { CanTreat self.old (map heard_of kept.now) }
        ensures heard { OnOk result ((v : ManagerView) → v.epoch ≡ epoch → Gains out.old out.new (λ acts.
            treats_all treats follows (at_rest (put self.old v)) (in_turn waits_for_places (map heard_of kept.now))
            ≡ record { known = at_rest (put self.new v); acts = acts })) }
        ensures k { self.new.k ≡ self.old.k }
    {
        let mut aged = Vec::new(self.alloc);
        self.treat_those(epoch, kept, false, &mut aged, out)?;
        self.treat_those(epoch, kept, true, &mut aged, out)?;
        self.release_all(&aged, out)
    }

    // Of what was kept the wishes for pods are treated in their order, or all else.
    fn treat_those(
        &mut self,
        epoch: u32,
        kept: &[Kept],
        wishes: bool,
        aged: &mut Vec<Pmac>,
        out: &mut ManagerOutbox,
    ) -> Result<(), Memory>
        requires { CanTreat self.old (map heard_of kept.now) }
        ensures treated { OnOk result ((v : ManagerView) → v.epoch ≡ epoch →
            treated_of wishes kept.now (done_so_far (put self.old v) aged.old.items out.old) ≡ done_so_far (put self.new v) aged.new.items out.new) }
        ensures can { OnOk result (CanTreat self.new (map heard_of kept.now)) }
        ensures k { self.new.k ≡ self.old.k }
    {
        for one in kept {
            self.treat_if(epoch, one, wishes, aged, out)?;
        }
        Ok(())
    }

    fn treat_if(
        &mut self,
        epoch: u32,
        kept: &Kept,
        wishes: bool,
        aged: &mut Vec<Pmac>,
        out: &mut ManagerOutbox,
    ) -> Result<(), Memory>
        requires { CanTreat self.old (heard_of kept.now ∷ []) }
        ensures treated { OnOk result ((v : ManagerView) → v.epoch ≡ epoch →
            (if is_turn wishes kept.now.word then then_treats treats (done_so_far (put self.old v) aged.old.items out.old) (heard_of kept.now)
            else done_so_far (put self.old v) aged.old.items out.old)
            ≡ done_so_far (put self.new v) aged.new.items out.new) }
        ensures speak { OnOk result ((t : SwitchId) → IsTrue (is_heard (put self.new (restarted_manager self.new.k 0)) t) →
            IsTrue (same_switch kept.now.switch t || is_heard (put self.old (restarted_manager self.old.k 0)) t)) }
        ensures k { self.new.k ≡ self.old.k }
    {
        if is_turn(wishes, &kept.word) {
            self.treat(epoch, kept.switch, &kept.word, aged, out)
        } else {
            Ok(())
        }
    }

    // A word is treated: an address that has aged, where that counts, is noted and not released yet.
    fn treat(
        &mut self,
        epoch: u32,
        switch: SwitchId,
        word: &ToManager,
        aged: &mut Vec<Pmac>,
        out: &mut ManagerOutbox,
    ) -> Result<(), Memory>
        requires { CanTreat self.old (record { switch = switch; word = word.now } ∷ []) }
        ensures treated { OnOk result ((v : ManagerView) → v.epoch ≡ epoch →
            IsTreatedAs (put self.old v) aged.old.items out.old switch word.now (put self.new v) aged.new.items out.new) }
        ensures k { self.new.k ≡ self.old.k }
    {
        match *word {
            ToManager::Place(place) => self.routing.set_place(switch, place, out),
            ToManager::Link { neighbour, usable } => {
                self.routing.report(switch, neighbour, usable, out)
            }
            ToManager::PodWanted => {
                give_pod(&mut self.askers, self.routing.reports(), switch, out)
            }
            ToManager::Learned { pmac, amac, ip } => {
                learn(&mut self.registry, switch, pmac, amac, ip, out)
            }
            ToManager::Aged { pmac, number } => {
                note_aged(&mut self.registry, switch, pmac, number, epoch, aged)
            }
            ToManager::Trapped { old, new, number } => {
                self.registry.note_trap(switch, old, new, number, epoch)
            }
            ToManager::Begin(_) | ToManager::End(_) => Ok(()),
            ToManager::Query {
                asker,
                asker_ip,
                ip,
            } => answer(&self.registry, switch, asker, asker_ip, ip, out),
            ToManager::Members { group, any } => self.routing.set_members(switch, group, any, out),
        }
    }

    // The addresses that were noted are released, in the order of the notes, and then those to which their traps led.
    fn release_all(&mut self, aged: &[Pmac], out: &mut ManagerOutbox) -> Result<(), Memory>
        ensures released { OnOk result ((v : ManagerView) →
            fold then_releases (record { view = put self.old v; acts = out.old }) (aged.now ++ filter_map (leads_known self.old.registry) aged.now)
            ≡ record { view = put self.new v; acts = out.new }) }
        ensures k { self.new.k ≡ self.old.k }
    {
        let led = led_by(&self.registry, aged, self.alloc)?;
        self.release_each(aged, out)?;
        self.release_each(&led, out)
    }

    // Those of these addresses that can be released are.
    fn release_each(&mut self, those: &[Pmac], out: &mut ManagerOutbox) -> Result<(), Memory>
        ensures released { OnOk result ((v : ManagerView) →
            fold then_releases (record { view = put self.old v; acts = out.old }) those.now ≡ record { view = put self.new v; acts = out.new }) }
        ensures k { self.new.k ≡ self.old.k }
    {
        for pmac in those {
            tell_release(self.registry.release(*pmac), out)?;
        }
        Ok(())
    }
}

// Where the traps of these addresses led.
fn led_by(registry: &Registry, aged: &[Pmac], alloc: Global) -> Result<Vec<Pmac>, Memory>
    ensures { IfOk result (λ led. led.items ≡ filter_map (leads_known registry.now) aged.now) }
{
    let mut led = Vec::new(alloc);
    for pmac in aged {
        add_some(&mut led, registry.leads_to(*pmac))?;
    }
    Ok(led)
}

fn add_some(list: &mut Vec<Pmac>, pmac: Option<Pmac>) -> Result<(), Memory>
    ensures { OnOk result (list.new.items ≡ list.old.items ++ cons_option pmac []) }
{
    if let Some(pmac) = pmac {
        list.push(pmac)?;
    }
    Ok(())
}

// A wish for a pod waits for the places of all switches.
fn is_turn(wishes: bool, word: &ToManager) -> bool
    ensures { result ≡ is_turn wishes word.now }
{
    let waits = matches!(word, ToManager::PodWanted);
    if wishes { waits } else { !waits }
}
