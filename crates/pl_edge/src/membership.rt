ghost use Rattle.std.specs.Prelude.{◌≡◌, ◌<◌, ◌≤◌, ◌==◌, ◌++◌, ℕ, [], length, fold, is_some, IfOk, OnOk};
ghost use Rattle.std.specs.List.{flat_map, list_any};
ghost use Rattle.pl_lists.specs.Ports.{ports_of};
ghost use Rattle.pl_members.specs.Reached.{has_member_at};
ghost use Rattle.pl_frame.specs.Ethernet.{fields, fields_of, source_of};
ghost use Rattle.pl_layouts.specs.Memberships.{changes_in, group_number, membership_in};
ghost use Rattle.pl_steps.specs.Taken.{IsTakenByPart};
ghost use Rattle.pl_switch_rule.specs.Intake.{changes_member, groups_of, hears_members};
ghost use Rattle.pl_switch_rule.specs.Messages.{forgets_members};
ghost use Rattle.pl_edge.specs.EdgeViews.{edge_in, KeepsEdge};
ghost use Rattle.pl_edge.specs.Told.{told_if_none, AreChangesNoted};

use crate::EdgeTable;
use crate::groups_before::{GroupsBefore, tell_change};
use pl_frame::{Frame, FrameView, Ip4, Mac};
use pl_members::Members;
use pl_multicast::read_igmp;
use pl_node::{Change, Memory, Outbox, PortSet};
use std::alloc::Global;

impl EdgeTable {
    /// What a frame says of its sender's memberships comes about, and the manager is told of each group
    /// whose members became some or none, by rising group. A frame that is no membership message changes
    /// nothing.
    pub fn hear_members(&mut self, port: u8, frame: &Frame, out: &mut Outbox) -> Result<(), Memory>
        requires port { port < self.old.k }
        requires long { 14 ≤ length frame.now }
        requires short { length frame.now ≤ 65553 }
        ensures taken { OnOk result (IsTakenByPart edge_in (λ v. hears_members v port frame.now) self.old self.new out.old out.new) }
        ensures kept { KeepsEdge self.old self.new }
    {
        let mut before = GroupsBefore::new(self.alloc);
        change_all(&mut self.members, &mut before, port, frame.bytes())?;
        before.tell(&self.members, out)?;
        Ok(())
    }

    /// The ports at which a host has joined a group.
    pub fn member_ports(&self, group: u32) -> PortSet
        ensures { (port : ℕ) → list_any (λ p. p == port) (ports_of result) ≡ has_member_at self.now.members group port }
    {
        self.members.ports_for(group)
    }

    /// All that a host joined at a port is forgotten, and the manager is told as above.
    pub fn forget(&mut self, port: u8, amac: Mac, out: &mut Outbox) -> Result<(), Memory>
        ensures taken { OnOk result (IsTakenByPart edge_in (forgets_members port amac) self.old self.new out.old out.new) }
        ensures kept { KeepsEdge self.old self.new }
    {
        let groups = groups_in(self.alloc, &self.members)?;
        self.members.forget(port, amac);
        tell_emptied(groups.as_slice(), &self.members, out)?;
        Ok(())
    }
}

/// Whether a frame is a membership message.
pub(crate) fn is_membership(frame: &[u8]) -> bool
    requires long { 14 ≤ length frame.now }
    requires short { length frame.now ≤ 65553 }
    ensures { result ≡ is_some (membership_in frame.now) }
{
    let view = view_of(frame);
    read_igmp(&view).is_some()
}

// The changes of a frame come about in order; each group is noted before it changes.
fn change_all(
    members: &mut Members,
    before: &mut GroupsBefore,
    port: u8,
    frame: &[u8],
) -> Result<(), Memory>
    requires port { port < 24 }
    requires long { 14 ≤ length frame.now }
    requires short { length frame.now ≤ 65553 }
    requires none { before.old ≡ [] }
    ensures changed { OnOk result (members.new ≡ fold (changes_member port (source_of frame.now)) members.old (changes_in frame.now)) }
    ensures noted { OnOk result (AreChangesNoted members.old members.new before.new) }
{
    let view = view_of(frame);
    let Some(changes) = read_igmp(&view) else {
        return Ok(());
    };
    for change in changes {
        before.note(members, group_number(change.group))?;
        change_one(members, port, view.src, change)?;
    }
    Ok(())
}

// The fields of a frame of a length that is carried.
fn view_of(frame: &[u8]) -> FrameView<'_>
    requires long { 14 ≤ length frame.now }
    requires short { length frame.now ≤ 65553 }
    ensures { fields result ≡ fields_of frame.now }
{
    match pl_frame::view(frame) {
        Ok(view) => view,
        Err(_) => unreachable!(),
    }
}

// A host joins or leaves a group.
fn change_one(members: &mut Members, port: u8, amac: Mac, change: Change) -> Result<(), Memory>
    requires { port < 24 }
    ensures { OnOk result (members.new ≡ changes_member port amac members.old change) }
{
    if change.join {
        return members.join(port, amac, group_number(change.group));
    }
    members.leave(port, amac, group_number(change.group));
    Ok(())
}

// The number of a group: groups with one number are one group.
fn group_number(group: Ip4) -> u32
    ensures { result ≡ group_number group }
{
    group.0 & 0x7f_ffff
}

// The groups that have members, rising.
fn groups_in(alloc: Global, members: &Members) -> Result<Vec<u32>, Memory>
    ensures { IfOk result (λ groups. groups.items ≡ groups_of members.now) }
{
    let mut groups = Vec::new(alloc);
    while let Some(group) = members.nth_group(groups.len()) {
        groups.push(group)?;
    }
    Ok(groups)
}

// Tells the manager of each of these groups, which had members, that has none any more.
fn tell_emptied(groups: &[u32], members: &Members, out: &mut Outbox) -> Result<(), Memory>
    ensures { OnOk result (out.new ≡ out.old ++ flat_map (told_if_none members.now) groups.now) }
{
    for group in groups {
        tell_change(true, members.has_members(*group), *group, out)?;
    }
    Ok(())
}
