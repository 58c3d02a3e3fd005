ghost use Rattle.std.specs.Prelude.{◌≡◌, ◌++◌, ◌∷◌, [], None, OnErr, OnOk, find, map, not, option_map};
ghost use Rattle.std.specs.List.{filter, list_any};
ghost use Rattle.indexmap.specs.IndexMap.{values};
ghost use Rattle.pl_layouts.specs.Equality.{same_pmac};
ghost use Rattle.pl_manager_rule.specs.Reports.{is_known_trapped_to, reported_ages, reported_leads};
ghost use Rattle.pl_registry.specs.Addresses.{is_trap_to, recall_of};
ghost use Rattle.pl_registry.specs.ReportedAddresses.{reported_at};

use crate::addresses::{Recall, is_trap_to};
use indexmap::IndexMap;
use pl_frame::SwitchId;
use pl_node::Memory;
use pl_pmac::Pmac;
use std::alloc::Global;
use std::marker::Model;

/// What is told of a pseudo address: the switch that told of it, where it leads, and whether it has aged
/// since.
#[derive(Clone, Copy, Debug)]
pub(crate) struct Reported {
    pub(crate) switch: SwitchId,
    pub(crate) recall: Option<Recall>,
    pub(crate) aged: bool,
}

/// The pseudo addresses that are known by a report alone. Contracts see the list of them, in the order in
/// which they were told.
#[derive(Debug, Drop)]
pub(crate) struct ReportedAddresses {
    told: IndexMap<Pmac, Reported>,
}

impl Model for ReportedAddresses {
    ghost use Rattle.std.specs.Prelude.{List};
    ghost use Rattle.std.specs.List.{IsDistinct};
    ghost use Rattle.std.specs.Map.{keys_of};
    ghost use Rattle.pl_layouts.specs.Equality.{same_pmac};
    ghost use Rattle.pl_node.specs.ManagerViews as manager;
    ghost use Rattle.pl_registry.specs.ReportedAddresses.{all_reported};

    ghost Value = { List manager.Reported };

    ghost view = { λ reported. all_reported reported.told.entries };

    ghost invariant = { λ reported. IsDistinct same_pmac (keys_of reported.told.entries) };
}

impl ReportedAddresses {
    pub(crate) fn new(alloc: Global) -> ReportedAddresses
        ensures { result ≡ [] }
    {
        ReportedAddresses {
            told: IndexMap::new(alloc),
        }
    }

    /// What is known of an address.
    pub(crate) fn find(&self, pmac: Pmac) -> Option<Reported>
        ensures { option_map (reported_at pmac) result ≡ find (λ r. same_pmac r.pmac pmac) self.now }
    {
        self.told.get(&pmac).copied()
    }

    /// An address is told of for the first time.
    pub(crate) fn add(&mut self, pmac: Pmac, reported: Reported) -> Result<(), Memory>
        requires { find (λ r. same_pmac r.pmac pmac) self.old ≡ None }
        ensures ok { OnOk result (self.new ≡ self.old ++ reported_at pmac reported ∷ []) }
        ensures err { OnErr result (self.new ≡ self.old) }
    {
        self.told.insert(pmac, reported)?;
        Ok(())
    }

    /// It was told that an address has aged.
    pub(crate) fn set_aged(&mut self, pmac: Pmac)
        ensures { self.new ≡ map (reported_ages pmac) self.old }
    {
        if let Some(reported) = self.told.get_mut(&pmac) {
            reported.aged = true;
        }
    }

    /// An address leads to a newer one from then on.
    pub(crate) fn lead(&mut self, pmac: Pmac, to: Recall)
        ensures { self.new ≡ map (reported_leads pmac (recall_of to)) self.old }
    {
        if let Some(reported) = self.told.get_mut(&pmac) {
            reported.recall = Some(to);
            reported.aged = false;
        }
    }

    /// Whether a trap that stands leads to an address: all of them are gone through.
    pub(crate) fn is_led_to(&self, pmac: Pmac) -> bool
        ensures { result ≡ list_any (is_known_trapped_to pmac) self.now }
    {
        is_any_trap_to(&self.told, pmac)
    }

    /// An address is forgotten. The others stay in their order.
    pub(crate) fn forget(&mut self, pmac: Pmac)
        ensures { self.new ≡ filter (λ r. not (same_pmac r.pmac pmac)) self.old }
    {
        self.told.shift_remove(&pmac);
    }
}

fn is_any_trap_to(told: &IndexMap<Pmac, Reported>, pmac: Pmac) -> bool
    ensures { result ≡ list_any (λ r. is_trap_to pmac r.recall r.aged) (values told.now) }
{
    told.values().any(|reported| is_trap_to(reported.recall, reported.aged, pmac))
}
