ghost use Rattle.std.specs.Prelude.{◌≡◌, IsTrue, OnOk, if◌then◌else◌, not, true};
ghost use Rattle.std.specs.List.{list_any};
ghost use Rattle.pl_layouts.specs.Equality.{same_switch};
ghost use Rattle.pl_node.specs.ManagerViews.{neighbours, place_of};
ghost use Rattle.pl_frame.specs.declared.address.SwitchId.{SwitchId};
ghost use Rattle.pl_manager_rule.specs.ManagerRule.{with_link, with_place};
ghost use Rattle.pl_reports.specs.Kept.{has_told};
ghost use Rattle.pl_faults.specs.Kept.{AreTablesOf, handed_by};

use crate::tables::Tables;
use pl_frame::SwitchId;
use pl_node::{Memory, Place};
use pl_reports::Reports;

impl Tables {
    /// A switch tells its place. No list changes where it is there already.
    pub(crate) fn keep_place(&mut self, switch: SwitchId, place: Place) -> Result<(), Memory>
        requires { AreTablesOf self.old.reports self.old }
        ensures told { OnOk result (self.new.reports ≡ with_place self.old.reports switch place) }
        ensures kept { OnOk result (AreTablesOf self.new.reports self.new) }
        ensures handed { OnOk result ((s : SwitchId) → handed_by self.new s ≡ handed_by self.old s) }
    {
        let known = is_told_place(&self.reports, switch, place);
        self.reports.set_place(switch, place)?;
        if known {
            return Ok(());
        }
        self.renew_placed(switch)?;
        Ok(())
    }

    /// A switch tells whether its link to a neighbour is usable. No list changes where the link is known, and as alive as it was.
    pub(crate) fn keep_link(
        &mut self,
        switch: SwitchId,
        neighbour: SwitchId,
        usable: bool,
    ) -> Result<(), Memory>
        requires { AreTablesOf self.old.reports self.old }
        ensures told { OnOk result (self.new.reports ≡ with_link self.old.reports switch neighbour usable) }
        ensures kept { OnOk result (AreTablesOf self.new.reports self.new) }
        ensures handed { OnOk result ((s : SwitchId) → handed_by self.new s ≡ handed_by self.old s) }
    {
        let known = knows(&self.reports, switch, neighbour);
        let was = self.reports.is_alive(switch, neighbour);
        self.reports.report(switch, neighbour, usable)?;
        let now = self.reports.is_alive(switch, neighbour);
        if known && is_still(now, was) {
            return Ok(());
        }
        self.renew_near(switch, neighbour)?;
        Ok(())
    }
}

// Whether a switch told something, and this is its place.
fn is_told_place(reports: &Reports, switch: SwitchId, place: Place) -> bool
    ensures { IsTrue result → (has_told reports.now switch ≡ true) × (place ≡ place_of reports.now switch) }
{
    reports.has_told(switch) && is_same_place(place, reports.place_of(switch))
}

fn is_same_place(a: Place, b: Place) -> bool
    ensures { IsTrue result → a ≡ b }
{
    a == b
}

// Whether a switch told of a neighbour.
fn knows(reports: &Reports, switch: SwitchId, neighbour: SwitchId) -> bool
    ensures { result ≡ list_any (λ x. same_switch x neighbour) (neighbours reports.now switch) }
{
    is_among(reports.neighbours(switch), neighbour)
}

fn is_among(switches: &[SwitchId], switch: SwitchId) -> bool
    ensures { result ≡ list_any (λ x. same_switch x switch) switches.now }
{
    switches.iter().any(|x| x.0 == switch.0)
}

// Whether something is now what it was.
fn is_still(now: bool, was: bool) -> bool
    ensures { result ≡ (if was then now else not now) }
{
    if was { now } else { !now }
}
