ghost use Rattle.std.specs.Prelude.{◌≡◌, [], IfOk, OnErr, OnOk};
ghost use Rattle.std.specs.Option.{option_copied};
ghost use Rattle.pl_frame.specs.declared.address.SwitchId.{SwitchId};
ghost use Rattle.pl_node.specs.AvoidLists.{avoid_list};
ghost use Rattle.pl_manager_rule.specs.ManagerRule.{with_link, with_place};
ghost use Rattle.pl_faults.specs.Kept.{changed_lists, empty_matrix, handed, list_of};

use crate::lists::{copy_in, differing, list_in};
use crate::tables::Tables;
use pl_frame::SwitchId;
use pl_node::{AvoidList, Memory, Place, SwitchList};
use pl_reports::Reports;
use std::alloc::Global;
use std::collections::BTreeMap;
use std::marker::Model;

/// The avoid list of each switch, by what the switches told. Contracts see what was told, and those lists
/// as they were handed out that were made anew since. After want of memory in a call nothing is told.
#[derive(Debug, Drop)]
pub struct Matrix {
    tables: Tables,
}

impl Model for Matrix {
    ghost use Rattle.pl_faults.specs.Kept.{AreTablesOf, MatrixView};

    ghost Value = { MatrixView };

    ghost view = { λ m. record { told = m.tables.reports; before = m.tables.before.entries } };

    ghost invariant = { λ m. AreTablesOf m.tables.reports m.tables };
}

impl Matrix {
    pub fn new(alloc: Global) -> Matrix
        ensures { result ≡ empty_matrix }
    {
        Matrix {
            tables: Tables::new(alloc),
        }
    }

    /// What the switches told.
    pub fn reports(&self) -> &Reports
        ensures { result.now ≡ self.now.told }
    {
        &self.tables.reports
    }

    /// A switch tells its place.
    pub fn set_place(&mut self, switch: SwitchId, place: Place) -> Result<(), Memory>
        ensures told { OnOk result (self.new.told ≡ with_place self.old.told switch place) }
        ensures handed { OnOk result ((s : SwitchId) → handed self.new s ≡ handed self.old s) }
        ensures err { OnErr result (self.new ≡ empty_matrix) }
    {
        let alloc = self.tables.alloc;
        match self.tables.keep_place(switch, place) {
            Ok(()) => Ok(()),
            Err(memory) => {
                *self = Matrix::new(alloc);
                Err(memory)
            }
        }
    }

    /// A switch tells whether its link to a neighbour is usable.
    pub fn report(
        &mut self,
        switch: SwitchId,
        neighbour: SwitchId,
        usable: bool,
    ) -> Result<(), Memory>
        ensures told { OnOk result (self.new.told ≡ with_link self.old.told switch neighbour usable) }
        ensures handed { OnOk result ((s : SwitchId) → handed self.new s ≡ handed self.old s) }
        ensures err { OnErr result (self.new ≡ empty_matrix) }
    {
        let alloc = self.tables.alloc;
        match self.tables.keep_link(switch, neighbour, usable) {
            Ok(()) => Ok(()),
            Err(memory) => {
                *self = Matrix::new(alloc);
                Err(memory)
            }
        }
    }

    /// The list of a switch that told a place or a link; none of another one.
    pub fn list(&self, switch: SwitchId) -> Option<&AvoidList>
        ensures { option_copied result ≡ list_of self.now.told switch }
    {
        list_in(&self.tables.lists, switch)
    }

    /// A copy of it; an empty list for one that told neither.
    pub fn avoid_for(&self, switch: SwitchId) -> Result<AvoidList, Memory>
        ensures { IfOk result (λ list. list ≡ avoid_list self.now.told switch) }
    {
        let list = copy_in(self.tables.alloc, &self.tables.lists, switch)?;
        Ok(list)
    }

    /// The switches, by rising id, whose list is another than was handed out last. From then on the lists
    /// as they are now are those that were. After want of memory all is as it was.
    pub fn changed(&mut self) -> Result<SwitchList, Memory>
        ensures changed { IfOk result (λ list. list ≡ changed_lists self.old) }
        ensures told { self.new.told ≡ self.old.told }
        ensures handed { OnOk result ((s : SwitchId) → handed self.new s ≡ avoid_list self.old.told s) }
        ensures err { OnErr result (self.new ≡ self.old) }
    {
        let alloc = self.tables.alloc;
        let list = differing(alloc, &self.tables.lists, &self.tables.before)?;
        self.tables.before = BTreeMap::new(alloc);
        Ok(list)
    }
}
