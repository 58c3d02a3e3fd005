ghost use Rattle.std.specs.Prelude.{◌≡◌, [], ◌++◌, OnOk, map};
ghost use Rattle.pl_node.specs.declared.acts.HostAct.TheVariants.{Send};
ghost use Rattle.pl_host_rule.specs.HostRule.{report_frame};
ghost use Rattle.pl_node.specs.HostViews.{groups_after, groups_after_change, has_group, without_group};
ghost use Rattle.pl_layouts.specs.Memberships.{group_number};

use crate::carried::Carried;
use crate::frames::membership;
use crate::sending::put;
use pl_arp::Me;
use pl_frame::{Ip4, Memory};
use pl_layouts::Change;
use pl_multicast::read_igmp;
use pl_node::HostOutbox;
use std::alloc::Global;
use std::collections::BTreeSet;
use std::marker::Model;

// The number of a group: groups with one number are one group.
fn group_number(group: Ip4) -> u32
    ensures { result ≡ group_number group }
{
    group.0 & 0x7f_ffff
}

/// The groups that a host has joined. Contracts see the list of them, by rising address.
#[derive(Debug, Drop)]
pub(crate) struct Groups {
    joined: BTreeSet<Ip4>,
}

impl Model for Groups {
    ghost use Rattle.std.specs.Prelude.{List};
    ghost use Rattle.pl_frame.specs.declared.address.Ip4.{Ip4};

    ghost Value = { List Ip4 };

    ghost view = { λ groups. groups.joined.keys };
}

impl Groups {
    pub(crate) fn new(alloc: Global) -> Groups
        ensures { result ≡ [] }
    {
        Groups {
            joined: BTreeSet::new(alloc),
        }
    }

    /// Whether a group with this number is among them.
    pub(crate) fn contains(&self, number: u32) -> bool
        ensures { result ≡ has_group self.now number }
    {
        self.joined
            .iter()
            .any(|group| group_number(*group) == number)
    }

    /// What a frame of the host says of its memberships comes about.
    pub(crate) fn note(&mut self, frame: &Carried) -> Result<(), Memory>
        ensures { OnOk result (self.new ≡ groups_after self.old frame.now) }
    {
        let view = frame.view();
        let Some(changes) = read_igmp(&view) else {
            return Ok(());
        };
        for change in changes {
            self.change(change)?;
        }
        Ok(())
    }

    /// Reports each of them.
    pub(crate) fn report(&self, alloc: Global, me: Me, out: &mut HostOutbox) -> Result<(), Memory>
        ensures { OnOk result (out.new ≡ out.old ++ map Send (map (report_frame me) self.now)) }
    {
        for group in self.joined.iter() {
            let change = Change {
                group: *group,
                join: true,
            };
            put(membership(alloc, me, change)?, out)?;
        }
        Ok(())
    }

    // A group is joined or left, in the place of each with its number.
    fn change(&mut self, change: Change) -> Result<(), Memory>
        ensures { OnOk result (self.new ≡ groups_after_change self.old change) }
    {
        self.remove(group_number(change.group));
        if change.join {
            self.joined.insert(change.group)?;
        }
        Ok(())
    }

    // Takes out the groups with this number.
    fn remove(&mut self, number: u32)
        ensures { self.new ≡ without_group number self.old }
    {
        self.joined.retain(|group| group_number(*group) != number);
    }
}
