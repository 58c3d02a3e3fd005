ghost use Rattle.std.specs.Prelude.{◌≡◌, [], if◌then◌else◌, IfOk, IsTrue, None, slice_get};
ghost use Rattle.std.specs.List.{list_any};
ghost use Rattle.std.specs.Option.{option_and_then, option_copied};
ghost use Rattle.std.specs.List.Sorted.{IsStrictlySortedBy};
ghost use Rattle.pl_frame.specs.declared.address.SwitchId.{SwitchId};
ghost use Rattle.pl_layouts.specs.Equality.{same_switch};
ghost use Rattle.pl_node.specs.ManagerViews.{id_cmp, switches};
ghost use Rattle.pl_node.specs.Trees.{core_for, part_under};
ghost use Rattle.pl_groups.specs.Kept.{part_among, part_in_tree};
ghost use Rattle.pl_groups.specs.Serving.{all_reports, all_served, part_of_told};
ghost use Rattle.pl_groups.specs.declared.tree.Tree.{Tree};

use crate::cores::core_for;
use crate::needs::add_all;
use crate::parts::part_under;
use crate::positions::position;
use crate::root::root_at;
use crate::serving::served_edges;
use pl_bits::Row;
use pl_frame::SwitchId;
use pl_node::{Memory, SwitchList, TreePart};
use pl_reports::{Reports, SwitchReport};
use std::alloc::Global;

/// Switches, rising, each with its part, if it has one.
#[derive(Debug, Drop)]
pub(crate) struct Parts {
    pub(crate) switches: SwitchList,
    pub(crate) parts: Vec<Option<TreePart>>,
}

/// The tree of a group: its core switch, and the parts.
#[derive(Debug, Drop)]
pub(crate) struct Tree {
    pub(crate) core: Option<SwitchId>,
    pub(crate) parts: Parts,
}

/// Makes the tree of a group that needs these edge switches.
pub(crate) fn make_tree(
    alloc: Global,
    reports: &Reports,
    group: u32,
    needed: &[SwitchId],
) -> Result<Tree, Memory>
    requires { IsStrictlySortedBy id_cmp needed.now }
    ensures core { IfOk result (λ tree. tree.core ≡ core_for reports.now group needed.now) }
    ensures parts { IfOk result (λ tree. (s : SwitchId) → part_among tree.parts s ≡ part_of_told reports.now needed.now s tree.core) }
{
    let all = reports.of_switches();
    let served = served_edges(alloc, reports, needed)?;
    let core = core_for(alloc, reports, group, all, needed, &served)?;
    let parts = parts_of(alloc, reports, all, needed, &served, core)?;
    Ok(Tree { core, parts })
}

/// Whether no switch has a part in the tree.
pub(crate) fn has_no_parts(tree: Option<&Tree>) -> bool
    ensures { IsTrue result → (s : SwitchId) → part_in_tree (option_copied tree.entry) s ≡ None }
{
    match tree {
        Some(tree) => tree.parts.is_empty(),
        None => true,
    }
}

/// Whether the tree has no core switch either.
pub(crate) fn is_bare(tree: Option<&Tree>) -> bool
    ensures parts { IsTrue result → (s : SwitchId) → part_in_tree (option_copied tree.entry) s ≡ None }
    ensures core { IsTrue result → option_and_then (λ (t : Tree). t.core) (option_copied tree.entry) ≡ None }
{
    has_no_parts(tree) && has_no_core(tree)
}

fn has_no_core(tree: Option<&Tree>) -> bool
    ensures { IsTrue result → option_and_then (λ (t : Tree). t.core) (option_copied tree.entry) ≡ None }
{
    match tree {
        Some(tree) => tree.core.is_none(),
        None => true,
    }
}

// The parts of the switches; none where there is no core switch.
fn parts_of(
    alloc: Global,
    reports: &Reports,
    all: &[SwitchReport],
    needed: &[SwitchId],
    served: &[Option<Row>],
    core: Option<SwitchId>,
) -> Result<Parts, Memory>
    requires all { all.now ≡ all_reports reports.now }
    requires rising { IsStrictlySortedBy id_cmp needed.now }
    requires served { served.now ≡ all_served reports.now needed.now }
    ensures { IfOk result (λ parts. (s : SwitchId) → part_among parts s ≡ part_of_told reports.now needed.now s core) }
{
    match core {
        Some(core) => parts_under(alloc, reports, all, needed, served, core),
        None => Ok(Parts {
            switches: SwitchList::new(alloc),
            parts: Vec::new(alloc),
        }),
    }
}

// The parts of the switches under a core switch.
fn parts_under(
    alloc: Global,
    reports: &Reports,
    all: &[SwitchReport],
    needed: &[SwitchId],
    served: &[Option<Row>],
    core: SwitchId,
) -> Result<Parts, Memory>
    requires all { all.now ≡ all_reports reports.now }
    requires rising { IsStrictlySortedBy id_cmp needed.now }
    requires served { served.now ≡ all_served reports.now needed.now }
    ensures { IfOk result (λ parts. (s : SwitchId) → part_among parts s
        ≡ (if list_any (same_switch s) (switches reports.now) then part_under reports.now needed.now s core else None)) }
{
    let root = root_at(alloc, reports, core)?;
    let switches = reports.switches();
    let mut list = SwitchList::new(alloc);
    add_all(&mut list, switches)?;
    let mut parts = Vec::with_capacity(alloc, switches.len())?;
    for i in 0..switches.len() {
        let switch = switches[i];
        let part = part_under(alloc, reports, needed, served, &root, switch, &all[i])?;
        parts.push(part)?;
    }
    Ok(Parts {
        switches: list,
        parts,
    })
}

impl Parts {
    pub(crate) fn is_empty(&self) -> bool
        ensures { IsTrue result → (s : SwitchId) → part_among self.now s ≡ None }
    {
        is_none(self.parts.as_slice())
    }

    /// The part of a switch, which is looked for at `near` first.
    pub(crate) fn get(&self, near: usize, switch: SwitchId) -> Option<&TreePart>
        ensures { option_copied result ≡ part_among self.now switch }
    {
        let switches = self.switches.as_slice();
        let parts = self.parts.as_slice();
        match position(switches, near, switch) {
            Some(at) => part_at(parts, at),
            None => None,
        }
    }
}

fn is_none(parts: &[Option<TreePart>]) -> bool
    ensures { IsTrue result → parts.now ≡ [] }
{
    parts.is_empty()
}

fn part_at(parts: &[Option<TreePart>], at: usize) -> Option<&TreePart>
    ensures { option_copied result ≡ option_and_then (λ part. part) (slice_get parts.now at) }
{
    match parts.get(at) {
        Some(part) => part.as_ref(),
        None => None,
    }
}
