ghost use Rattle.std.specs.Prelude.{◌≡◌, ◌≤◌, [], IfOk, OnErr, OnOk, length, slice_get};
ghost use Rattle.std.specs.BTreeMap.{insert_entry};
ghost use Rattle.std.specs.BTreeSet.{insert_key};
ghost use Rattle.std.specs.List.Sorted.{IsStrictlySortedBy};
ghost use Rattle.std.specs.Ordering.{nat_cmp};
ghost use Rattle.std.specs.Vec.{vec_capacity, vec_len};
ghost use Rattle.pl_node.specs.ManagerFacts.{groups};
ghost use Rattle.pl_node.specs.ManagerViews.{members_cmp, with_members};

use pl_frame::SwitchId;
use pl_multicast::FLOOD;
use pl_node::{Memory, SwitchList};
use std::alloc::Global;
use std::collections::BTreeMap;
use std::marker::Model;

/// Whether edge switches have members of groups, as they told last. Contracts see that.
#[derive(Debug, Drop)]
pub(crate) struct Roster {
    told: BTreeMap<(SwitchId, u32), bool>,
    listed: Vec<u32>,
}

impl Model for Roster {
    ghost use Rattle.std.specs.Prelude.{◌≡◌};
    ghost use Rattle.pl_node.specs.ManagerFacts.{groups};
    ghost use Rattle.pl_node.specs.ManagerViews.{Members};

    ghost Value = { Members };

    ghost view = { λ roster. roster.told.entries };

    ghost invariant = { λ roster. roster.listed.items ≡ groups roster.told.entries };
}

impl Roster {
    pub(crate) fn new(alloc: Global) -> Result<Roster, Memory>
        ensures { IfOk result (λ roster. roster ≡ []) }
    {
        let mut listed = Vec::new(alloc);
        listed.push(FLOOD)?;
        Ok(Roster {
            told: BTreeMap::new(alloc),
            listed,
        })
    }

    /// An edge switch tells whether it has members of a group. Without memory nothing changes.
    pub(crate) fn set(&mut self, edge: SwitchId, group: u32, any: bool) -> Result<(), Memory>
        ensures ok { OnOk result (self.new ≡ insert_entry members_cmp self.old (edge, group) any) }
        ensures err { OnErr result (self.new ≡ self.old) }
    {
        self.listed.reserve(1)?;
        self.told.insert((edge, group), any)?;
        insert_group(&mut self.listed, group)?;
        Ok(())
    }

    /// Forgets all that was told. Takes no memory.
    pub(crate) fn forget(&mut self, alloc: Global)
        ensures { self.new ≡ [] }
    {
        self.told = BTreeMap::new(alloc);
        self.listed.retain(|group| *group == FLOOD);
    }

    /// Group number n, rising, of floods and the groups of which members were told; none past the last.
    pub(crate) fn group(&self, n: usize) -> Option<u32>
        ensures { result ≡ slice_get (groups self.now) n }
    {
        self.listed.get(n).copied()
    }

    /// How many those are.
    pub(crate) fn len(&self) -> usize
        ensures { result ≡ length (groups self.now) }
    {
        self.listed.len()
    }

    /// The edge switches with members of a group, rising.
    pub(crate) fn with_members(&self, alloc: Global, group: u32) -> Result<SwitchList, Memory>
        ensures { IfOk result (λ edges. edges ≡ with_members self.now group) }
    {
        let mut edges = SwitchList::new(alloc);
        for (key, any) in self.told.iter() {
            if key.1 == group && *any {
                edges.insert(key.0)?;
            }
        }
        Ok(edges)
    }
}

// Puts a group where it goes, unless it is there already. There is memory for it.
fn insert_group(groups: &mut Vec<u32>, group: u32) -> Result<(), Memory>
    requires { IsStrictlySortedBy nat_cmp groups.old.items }
    ensures ok { OnOk result (groups.new.items ≡ insert_key nat_cmp groups.old.items group) }
    ensures full { OnErr result (vec_capacity groups.old ≤ vec_len groups.old) }
{
    match groups.binary_search(&group) {
        Ok(_) => Ok(()),
        Err(index) => Ok(groups.insert(index, group)?),
    }
}
