ghost use Rattle.std.specs.Prelude.{◌≡◌, ◌++◌, ◌↔◌, IfOk, IsTrue, OnOk, slice_get};
ghost use Rattle.std.specs.BTreeMap.{insert_entry};
ghost use Rattle.std.specs.Option.{option_copied};
ghost use Rattle.pl_node.specs.AvoidLists.{avoid_list};
ghost use Rattle.pl_node.specs.ManagerFacts.{groups};
ghost use Rattle.pl_node.specs.ManagerViews.{members_cmp};
ghost use Rattle.pl_node.specs.Trees.{tree_part};
ghost use Rattle.pl_manager_rule.specs.ManagerRule.{avoid_acts, with_link, with_place};
ghost use Rattle.pl_manager.specs.Routing.{nothing_routed, trees_told_anew};

use crate::renewing::{forget, tell_link, tell_members, tell_place};
use pl_faults::Matrix;
use pl_frame::SwitchId;
use pl_groups::Groups;
use pl_node::{AvoidList, ManagerOutbox, Memory, Place, TreePart};
use pl_reports::Reports;
use std::alloc::Global;
use std::marker::Model;

/// What the switches told of the tree and of the members of groups, with the avoid lists and the trees
/// that follow, each as its switch was told it. Contracts see what was told. After want of memory in a call
/// nothing is told.
#[derive(Debug, Drop)]
pub(crate) struct Routing {
    alloc: Global,
    matrix: Matrix,
    groups: Groups,
    // The list of a switch that told nothing.
    none: AvoidList,
}

impl Model for Routing {
    ghost use Rattle.std.specs.Prelude.{◌≡◌, []};
    ghost use Rattle.pl_groups.specs.Kept.{members_in};
    ghost use Rattle.pl_manager.specs.Routing.{AreOf, RoutingView};

    ghost Value = { RoutingView };

    ghost view = { λ r. record { told = r.matrix.told; members = members_in r.groups } };

    ghost invariant = { λ r. AreOf r.matrix.told r.matrix r.groups × (r.none ≡ []) };
}

impl Routing {
    pub(crate) fn new(alloc: Global) -> Result<Routing, Memory>
        ensures { IfOk result (λ routing. routing ≡ nothing_routed) }
    {
        let groups = Groups::new(alloc)?;
        Ok(Routing {
            alloc,
            matrix: Matrix::new(alloc),
            groups,
            none: AvoidList::new(alloc),
        })
    }

    /// A switch tells its place, and all for whom something changed are told.
    pub(crate) fn set_place(
        &mut self,
        switch: SwitchId,
        place: Place,
        out: &mut ManagerOutbox,
    ) -> Result<(), Memory>
        ensures after { OnOk result (self.new ≡ record self.old { told = with_place self.old.told switch place }) }
        ensures acts { OnOk result (out.new ≡ out.old ++ (avoid_acts self.old.told self.new.told ++ trees_told_anew self.old self.new)) }
    {
        match tell_place(&mut self.matrix, &mut self.groups, switch, place, out) {
            Ok(()) => Ok(()),
            Err(memory) => {
                forget(self.alloc, &mut self.matrix, &mut self.groups);
                Err(memory)
            }
        }
    }

    /// A switch tells whether its link to a neighbour is usable, and all for whom something changed are told.
    pub(crate) fn report(
        &mut self,
        switch: SwitchId,
        neighbour: SwitchId,
        usable: bool,
        out: &mut ManagerOutbox,
    ) -> Result<(), Memory>
        ensures after { OnOk result (self.new ≡ record self.old { told = with_link self.old.told switch neighbour usable }) }
        ensures acts { OnOk result (out.new ≡ out.old ++ (avoid_acts self.old.told self.new.told ++ trees_told_anew self.old self.new)) }
    {
        match tell_link(
            &mut self.matrix,
            &mut self.groups,
            switch,
            neighbour,
            usable,
            out,
        ) {
            Ok(()) => Ok(()),
            Err(memory) => {
                forget(self.alloc, &mut self.matrix, &mut self.groups);
                Err(memory)
            }
        }
    }

    /// An edge switch tells whether it has members of a group, and all for whom something changed are told.
    pub(crate) fn set_members(
        &mut self,
        edge: SwitchId,
        group: u32,
        any: bool,
        out: &mut ManagerOutbox,
    ) -> Result<(), Memory>
        ensures after { OnOk result (self.new ≡ record self.old { members = insert_entry members_cmp self.old.members (edge, group) any }) }
        ensures acts { OnOk result (out.new ≡ out.old ++ trees_told_anew self.old self.new) }
    {
        match tell_members(&self.matrix, &mut self.groups, edge, group, any, out) {
            Ok(()) => Ok(()),
            Err(memory) => {
                forget(self.alloc, &mut self.matrix, &mut self.groups);
                Err(memory)
            }
        }
    }

    /// What the switches told of their places and links.
    pub(crate) fn reports(&self) -> &Reports
        ensures { result.now ≡ self.now.told }
    {
        self.matrix.reports()
    }

    pub(crate) fn avoid_list(&self, switch: SwitchId) -> &AvoidList
        ensures { result.now ≡ avoid_list self.now.told switch }
    {
        match self.matrix.list(switch) {
            Some(list) => list,
            None => &self.none,
        }
    }

    /// Group number n, rising, of floods and the groups of which members were told; none past the last.
    pub(crate) fn group(&self, n: usize) -> Option<u32>
        ensures { result ≡ slice_get (groups self.now.members) n }
    {
        self.groups.group(n)
    }

    /// Whether that is the switch's part of a group's tree.
    pub(crate) fn part_is(&self, switch: SwitchId, group: u32, part: Option<&TreePart>) -> bool
        ensures { IsTrue result ↔ (option_copied part.entry ≡ tree_part self.now.told self.now.members group switch) }
    {
        self.groups.part_is(group, switch, part)
    }
}
