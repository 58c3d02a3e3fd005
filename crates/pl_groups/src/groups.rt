ghost use Rattle.std.specs.Prelude.{◌≡◌, ◌≢◌, ◌↔◌, ℕ, [], not, IfOk, IsTrue, None, OnOk, Some, filter, length, slice_get};
ghost use Rattle.std.specs.BTreeMap.{insert_entry};
ghost use Rattle.std.specs.List.Sorted.{IsStrictlySortedBy};
ghost use Rattle.std.specs.Option.{option_copied};
ghost use Rattle.pl_frame.specs.declared.address.SwitchId.{SwitchId};
ghost use Rattle.pl_node.specs.ManagerFacts.{groups};
ghost use Rattle.pl_node.specs.ManagerViews.{id_cmp, members_cmp, switches};
ghost use Rattle.pl_node.specs.Trees.{core_of, needed_edges, tree_part};
ghost use Rattle.pl_manager_rule.specs.ManagerRule.{same_part};
ghost use Rattle.pl_groups.specs.Kept.{core_kept, members_in, part_in_tree, part_kept};

use crate::needs::{add_all, add_if};
use crate::parts::same_part;
use crate::roster::Roster;
use crate::tree::{Tree, has_no_parts, is_bare, make_tree};
use pl_frame::SwitchId;
use pl_multicast::FLOOD;
use pl_node::{Memory, SwitchList, TreePart};
use pl_reports::Reports;
use std::alloc::Global;
use std::collections::BTreeMap;

/// Which edge switches have members of which groups, and the tree of each group as it was last made.
#[derive(Debug, Drop)]
pub struct Groups {
    pub(crate) alloc: Global,
    pub(crate) roster: Roster,
    pub(crate) trees: BTreeMap<u32, Tree>,
}

impl Groups {
    /// No members were told, and no group has a tree.
    pub fn new(alloc: Global) -> Result<Groups, Memory>
        ensures members { IfOk result (λ g. members_in g ≡ []) }
        ensures parts { IfOk result (λ g. (group : ℕ) (s : SwitchId) → part_kept g group s ≡ None) }
        ensures cores { IfOk result (λ g. (group : ℕ) → core_kept g group ≡ None) }
    {
        Ok(Groups {
            alloc,
            roster: Roster::new(alloc)?,
            trees: BTreeMap::new(alloc),
        })
    }

    /// An edge switch tells whether it has members of a group. The trees stay as they are.
    pub fn set(&mut self, edge: SwitchId, group: u32, any: bool) -> Result<(), Memory>
        ensures members { OnOk result (members_in self.new ≡ insert_entry members_cmp (members_in self.old) (edge, group) any) }
        ensures parts { (g : ℕ) (s : SwitchId) → part_kept self.new g s ≡ part_kept self.old g s }
        ensures cores { (g : ℕ) → core_kept self.new g ≡ core_kept self.old g }
    {
        self.roster.set(edge, group, any)
    }

    /// Forgets the members and the trees. Takes no memory.
    pub fn forget(&mut self)
        ensures members { members_in self.new ≡ [] }
        ensures parts { (group : ℕ) (s : SwitchId) → part_kept self.new group s ≡ None }
        ensures cores { (group : ℕ) → core_kept self.new group ≡ None }
    {
        self.roster.forget(self.alloc);
        self.trees = BTreeMap::new(self.alloc);
    }

    /// Group number n, rising, of floods and the groups of which members were told; none past the last.
    pub fn group(&self, n: usize) -> Option<u32>
        ensures { result ≡ slice_get (groups (members_in self.now)) n }
    {
        self.roster.group(n)
    }

    /// How many groups those are.
    pub fn len(&self) -> usize
        ensures { result ≡ length (groups (members_in self.now)) }
    {
        self.roster.len()
    }

    /// Makes the tree of a group anew. The answer is the switches, rising, whose part is another one than before.
    pub fn renew(&mut self, reports: &Reports, group: u32) -> Result<SwitchList, Memory>
        ensures changed { IfOk result (λ changed. changed ≡ filter (λ s. not (same_part (part_kept self.old group s)
            (tree_part reports.now (members_in self.old) group s))) (switches reports.now)) }
        ensures parts { OnOk result ((s : SwitchId) → part_kept self.new group s ≡ tree_part reports.now (members_in self.old) group s) }
        ensures core { OnOk result (core_kept self.new group ≡ core_of reports.now (members_in self.old) group) }
        ensures others { OnOk result ((g : ℕ) (s : SwitchId) → g ≢ group → part_kept self.new g s ≡ part_kept self.old g s) }
        ensures other_cores { OnOk result ((g : ℕ) → g ≢ group → core_kept self.new g ≡ core_kept self.old g) }
        ensures members { members_in self.new ≡ members_in self.old }
    {
        if group == FLOOD {
            return self.renew_for(reports, group, reports.placed_edges());
        }
        let edges = self.roster.with_members(self.alloc, group)?;
        self.renew_for(reports, group, edges.as_slice())
    }

    // The same for a group that needs these edge switches.
    fn renew_for(
        &mut self,
        reports: &Reports,
        group: u32,
        needed: &[SwitchId],
    ) -> Result<SwitchList, Memory>
        requires needed { needed.now ≡ needed_edges reports.now (members_in self.old) group }
        requires rising { IsStrictlySortedBy id_cmp needed.now }
        ensures changed { IfOk result (λ changed. changed ≡ filter (λ s. not (same_part (part_kept self.old group s)
            (tree_part reports.now (members_in self.old) group s))) (switches reports.now)) }
        ensures parts { OnOk result ((s : SwitchId) → part_kept self.new group s ≡ tree_part reports.now (members_in self.old) group s) }
        ensures core { OnOk result (core_kept self.new group ≡ core_of reports.now (members_in self.old) group) }
        ensures others { OnOk result ((g : ℕ) (s : SwitchId) → g ≢ group → part_kept self.new g s ≡ part_kept self.old g s) }
        ensures other_cores { OnOk result ((g : ℕ) → g ≢ group → core_kept self.new g ≡ core_kept self.old g) }
        ensures members { members_in self.new ≡ members_in self.old }
    {
        if needed.is_empty() && is_bare(self.trees.get(&group)) {
            return Ok(SwitchList::new(self.alloc));
        }
        let tree = make_tree(self.alloc, reports, group, needed)?;
        let changed = changed(self.alloc, reports, self.trees.get(&group), &tree)?;
        self.trees.insert(group, tree)?;
        Ok(changed)
    }

    /// The core switch of a group's tree as it was last made.
    pub fn core_of(&self, group: u32) -> Option<SwitchId>
        ensures { result ≡ core_kept self.now group }
    {
        let tree = self.trees.get(&group)?;
        tree.core
    }

    /// The part of a switch in a group's tree as it was last made.
    pub fn part_of(&self, group: u32, switch: SwitchId) -> Option<&TreePart>
        ensures { option_copied result ≡ part_kept self.now group switch }
    {
        part_of(self.trees.get(&group), 0, switch)
    }

    /// A copy of it.
    pub fn part_for(&self, group: u32, switch: SwitchId) -> Result<Option<TreePart>, Memory>
        ensures { IfOk result (λ part. part ≡ part_kept self.now group switch) }
    {
        match self.part_of(group, switch) {
            Some(part) => Ok(Some(copy_of(self.alloc, part)?)),
            None => Ok(None),
        }
    }

    /// Whether that is the part of a switch in a group's tree as it was last made.
    pub fn part_is(&self, group: u32, switch: SwitchId, part: Option<&TreePart>) -> bool
        ensures { IsTrue result ↔ (option_copied part.entry ≡ part_kept self.now group switch) }
    {
        same_part(part, self.part_of(group, switch))
    }
}

fn copy_of(alloc: Global, part: &TreePart) -> Result<TreePart, Memory>
    ensures { IfOk result (λ copy. copy ≡ part.now) }
{
    let mut down = SwitchList::new(alloc);
    add_all(&mut down, part.down.as_slice())?;
    Ok(TreePart { up: part.up, down })
}

// The part of a switch in a tree. It is looked for at `near` first.
fn part_of(tree: Option<&Tree>, near: usize, switch: SwitchId) -> Option<&TreePart>
    ensures { option_copied result ≡ part_in_tree (option_copied tree.entry) switch }
{
    let tree = tree?;
    tree.parts.get(near, switch)
}

// The switches, rising, whose part in one tree is another one than in the other.
fn changed(
    alloc: Global,
    reports: &Reports,
    before: Option<&Tree>,
    after: &Tree,
) -> Result<SwitchList, Memory>
    ensures { IfOk result (λ changed. changed ≡ filter (λ s. not (same_part (part_in_tree (option_copied before.entry) s)
        (part_in_tree (Some after.now) s))) (switches reports.now)) }
{
    if has_no_parts(before) && has_no_parts(Some(after)) {
        return Ok(SwitchList::new(alloc));
    }
    let mut changed = SwitchList::new(alloc);
    let switches = reports.switches();
    for i in 0..switches.len() {
        let switch = switches[i];
        let is_same = same_part(part_of(before, i, switch), part_of(Some(after), i, switch));
        add_if(&mut changed, switch, !is_same)?;
    }
    Ok(changed)
}
