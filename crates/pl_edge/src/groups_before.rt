ghost use Rattle.std.specs.Prelude.{◌≡◌, ◌++◌, [], OnOk};
ghost use Rattle.std.specs.List.{flat_map};
ghost use Rattle.pl_edge.specs.Told.{notes, told_of, told_since};

use pl_members::Members;
use pl_node::{Act, Memory, Outbox, ToManager};
use std::alloc::Global;
use std::collections::BTreeMap;
use std::marker::Model;

/// Groups, and for each whether it had members when it was noted. Contracts see the list of them, by
/// rising group.
#[derive(Debug, Drop)]
pub(crate) struct GroupsBefore {
    groups: BTreeMap<u32, bool>,
}

impl Model for GroupsBefore {
    ghost use Rattle.std.specs.Prelude.{ℕ, Bool, List};

    ghost Value = { List (ℕ × Bool) };

    ghost view = { λ before. before.groups.entries };
}

impl GroupsBefore {
    pub(crate) fn new(alloc: Global) -> GroupsBefore
        ensures { result ≡ [] }
    {
        GroupsBefore {
            groups: BTreeMap::new(alloc),
        }
    }

    /// Notes whether a group has members, unless that was noted before.
    pub(crate) fn note(&mut self, members: &Members, group: u32) -> Result<(), Memory>
        ensures { OnOk result (self.new ≡ notes members.now self.old group) }
    {
        if !self.groups.contains_key(&group) {
            self.groups.insert(group, members.has_members(group))?;
        }
        Ok(())
    }

    /// Tells the manager of each that has members now and had none, or the other way round.
    pub(crate) fn tell(&self, members: &Members, out: &mut Outbox) -> Result<(), Memory>
        ensures { OnOk result (out.new ≡ out.old ++ flat_map (told_since members.now) self.now) }
    {
        for (group, had) in self.groups.iter() {
            tell_change(*had, members.has_members(*group), *group, out)?;
        }
        Ok(())
    }
}

/// Tells the manager of a group whose members became some or none.
pub(crate) fn tell_change(had: bool, any: bool, group: u32, out: &mut Outbox) -> Result<(), Memory>
    ensures { OnOk result (out.new ≡ out.old ++ told_of had any group) }
{
    if had != any {
        out.push(Act::Tell(ToManager::Members { group, any }))?;
    }
    Ok(())
}
