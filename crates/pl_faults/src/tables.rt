ghost use Rattle.std.specs.Prelude.{◌≡◌, [], OnOk};
ghost use Rattle.pl_reports.specs.Kept.{nothing_told};
ghost use Rattle.pl_faults.specs.Kept.{AreTablesOf, IsListRenewed};

use crate::leading::{Leading, no_leading};
use crate::lists::{Lists, note, replace};
use pl_frame::SwitchId;
use pl_node::{AvoidList, Memory};
use pl_reports::Reports;
use std::alloc::Global;
use std::collections::BTreeMap;

/// What the switches told, where they lead on to by it, the list of each, and those lists as they were
/// handed out that were made anew since.
#[derive(Debug, Drop)]
pub(crate) struct Tables {
    pub(crate) alloc: Global,
    pub(crate) reports: Reports,
    pub(crate) leading: Leading,
    pub(crate) lists: Lists,
    pub(crate) before: Lists,
}

impl Tables {
    /// Those of nothing told.
    pub(crate) fn new(alloc: Global) -> Tables
        ensures told { result.reports ≡ nothing_told }
        ensures before { result.before.entries ≡ [] }
        ensures kept { AreTablesOf nothing_told result }
    {
        Tables {
            alloc,
            reports: Reports::new(alloc),
            leading: no_leading(alloc),
            lists: BTreeMap::new(alloc),
            before: BTreeMap::new(alloc),
        }
    }

    /// Puts a new list of a switch in the place of the one before, and notes that one unless one is noted.
    pub(crate) fn renew(&mut self, switch: SwitchId, list: AvoidList) -> Result<(), Memory>
        ensures { OnOk result (IsListRenewed switch list self.old self.new) }
    {
        let alloc = self.alloc;
        let old = replace(&mut self.lists, alloc, switch, list)?;
        note(&mut self.before, switch, old)?;
        Ok(())
    }
}
