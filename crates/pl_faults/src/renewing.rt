ghost use Rattle.std.specs.Prelude.{IfOk, OnOk, fold};
ghost use Rattle.pl_node.specs.AvoidLists.{avoid_list};
ghost use Rattle.pl_node.specs.ManagerViews.{Told};
ghost use Rattle.pl_faults.specs.Kept.{AreTablesOf, AreTablesRenewed, IsKeptUp, IsLinkWord, IsListRenewed, IsPlaceWord};
ghost use Rattle.pl_faults.specs.Listed.{is_in, with_below};
ghost use Rattle.pl_faults.specs.Missed.{IsLeading};
ghost use Rattle.pl_faults.specs.Sharing.{CanShare};

use crate::edges::are_apart;
use crate::leading::{is_none_placed, link_leading, place_leading};
use crate::listed::{put_all_below, with_hearers};
use crate::sharing::{Shared, list_after};
use crate::tables::Tables;
use pl_frame::SwitchId;
use pl_node::{AvoidList, Memory, SwitchList};

impl Tables {
    /// Brings what is missed and the lists up to a word on a link, which was told already.
    pub(crate) fn renew_near(&mut self, switch: SwitchId, neighbour: SwitchId) -> Result<(), Memory>
        ensures { OnOk result ((told : Told) → IsLinkWord switch neighbour told self.old.reports →
            AreTablesOf told self.old → IsKeptUp self.old self.new) }
    {
        let alloc = self.alloc;
        let turned = link_leading(&mut self.leading, alloc, &self.reports, switch, neighbour)?;
        let mut touched = SwitchList::new(alloc);
        touched.insert(switch)?;
        self.renew_around(touched, turned.as_slice())?;
        Ok(())
    }

    /// Brings them up to a word of a switch on its place, which was told already.
    pub(crate) fn renew_placed(&mut self, switch: SwitchId) -> Result<(), Memory>
        ensures { OnOk result ((told : Told) → IsPlaceWord switch told self.old.reports →
            AreTablesOf told self.old → IsKeptUp self.old self.new) }
    {
        if is_none_placed(&self.reports, self.leading.edges.as_slice(), switch) {
            self.renew(switch, AvoidList::new(self.alloc))?;
            return Ok(());
        }
        self.renew_moved(switch)?;
        Ok(())
    }

    // The same where some edge switch was placed, or the switch is one.
    fn renew_moved(&mut self, switch: SwitchId) -> Result<(), Memory>
        ensures { OnOk result ((told : Told) → IsPlaceWord switch told self.old.reports →
            AreTablesOf told self.old → IsKeptUp self.old self.new) }
    {
        let alloc = self.alloc;
        let turned = place_leading(&mut self.leading, alloc, &self.reports, switch)?;
        let touched = with_hearers(alloc, &self.reports, &self.leading.hearers, switch)?;
        self.renew_around(touched, turned.as_slice())?;
        Ok(())
    }

    // Makes the lists of these switches anew, and of those below these others.
    fn renew_around(&mut self, touched: SwitchList, above: &[SwitchId]) -> Result<(), Memory>
        ensures { OnOk result (IsLeading self.old.reports self.old.leading →
            AreTablesRenewed (is_in (fold (with_below self.old.reports self.old.leading.hearers.entries) touched above.now)) self.old self.new) }
    {
        let mut touched = touched;
        put_all_below(&mut touched, &self.reports, &self.leading.hearers, above)?;
        self.renew_lists(touched.as_slice())?;
        Ok(())
    }

    // Makes the lists of these switches anew.
    fn renew_lists(&mut self, asked: &[SwitchId]) -> Result<(), Memory>
        ensures { OnOk result (IsLeading self.old.reports self.old.leading →
            AreTablesRenewed (is_in asked.now) self.old self.new) }
    {
        let apart = are_apart(self.leading.edges.as_slice());
        let mut last = None;
        for switch in asked {
            last = self.renew_list(apart, *switch, last)?;
        }
        Ok(())
    }

    // The answer is the last list that others may have.
    fn renew_list(
        &mut self,
        apart: bool,
        switch: SwitchId,
        last: Option<Shared>,
    ) -> Result<Option<Shared>, Memory>
        ensures list { OnOk result (CanShare self.old.reports self.old.leading apart last →
            IsListRenewed switch (avoid_list self.old.reports switch) self.old self.new) }
        ensures next { IfOk result (λ next. CanShare self.old.reports self.old.leading apart last →
            CanShare self.old.reports self.old.leading apart next) }
    {
        let (list, next) = list_after(
            self.alloc,
            &self.reports,
            &self.leading,
            apart,
            switch,
            last,
        )?;
        self.renew(switch, list)?;
        Ok(next)
    }
}
