ghost use Rattle.std.specs.Prelude.{◌≡◌, ◌∷◌, [], List, ℕ, OnOk, Some, ◌≤◌, ◌==◌, ◌&&◌, ◌%◌, length, is_some, option_map, if◌then◌else◌};
ghost use Rattle.pl_wiring.specs.Plan.{Plan};
ghost use Rattle.pl_layouts.specs.Memberships.{changes_in, group_number};
ghost use Rattle.pl_journal.specs.declared.entry.Entry.{Entry};
ghost use Rattle.pl_journal.specs.declared.entry.Entry.TheVariants.{Arrived, Sent};
ghost use Rattle.pl_journal.specs.Places.{edge_port_of};
ghost use Rattle.pl_journal.specs.Flights.{root, root_arrived_at};
ghost use Rattle.pl_journal.specs.Lossy.{is_member};
ghost use Rattle.pl_past_tables.specs.declared.keys.Member.{Member};
ghost use Rattle.pl_past_tables.specs.Keys.{edge_port_at};
ghost use Rattle.pl_past_tables.specs.Groups.{KeepsGroups, joined_in, says};

use crate::keys::{Arrival, Member, Point};
use crate::last::Last;
use crate::row::view_of;
use pl_frame::Frame;
use pl_journal::Memory;
use pl_layouts::Change;
use pl_multicast::{FLOOD, read_igmp};
use pl_wiring::HostNo;
use std::alloc::Global;

/// Which groups hosts have joined, and at which ports frames of a root arrived.
#[derive(Debug, Drop)]
pub struct Groups {
    pub(crate) members: Last<Member, bool>,
    pub(crate) arrivals: Last<Arrival, bool>,
}

impl Groups {
    pub fn new(alloc: Global) -> Groups
        ensures { (plan : Plan) → KeepsGroups plan [] result }
    {
        Groups {
            members: Last::new(alloc),
            arrivals: Last::new(alloc),
        }
    }

    /// Whether a host may receive frames of a group.
    pub fn is_member(&self, host: HostNo, group: Option<u32>) -> bool
        ensures { (plan : Plan) (past : List Entry) → KeepsGroups plan past self.now → result ≡ is_member past host.0 group }
    {
        match group {
            None => false,
            Some(group) => group == FLOOD || has_joined(&self.members, Member { host, group }),
        }
    }

    /// Whether a frame of this root arrived at a port.
    pub fn has_arrived(&self, root: u64, point: Point) -> bool
        ensures { (plan : Plan) (past : List Entry) → KeepsGroups plan past self.now →
            result ≡ root_arrived_at plan past root (edge_port_at point) }
    {
        self.arrivals.get(Arrival { root, point }).is_some()
    }

    /// A host sends a frame, which may say what it joins and leaves.
    pub fn send(&mut self, host: HostNo, frame: &Frame) -> Result<(), Memory>
        requires { 14 ≤ length frame.now }
        ensures { OnOk result ((plan : Plan) (past : List Entry) (id : ℕ) → KeepsGroups plan past self.old →
            KeepsGroups plan (Sent id host frame.now ∷ past) self.new) }
    {
        hear(&mut self.members, host, frame)?;
        Ok(())
    }

    /// A frame of a root arrives at a host that stands at this port.
    pub fn arrive(&mut self, ancestor: u64, point: Point) -> Result<(), Memory>
        ensures { OnOk result ((plan : Plan) (past : List Entry) (id : ℕ) (host : HostNo) (frame : List ℕ) → KeepsGroups plan past self.old →
            ancestor ≡ root past id → Some (edge_port_at point) ≡ edge_port_of plan past host.0 →
            KeepsGroups plan (Arrived id host frame ∷ past) self.new) }
    {
        self.arrivals.put(
            Arrival {
                root: ancestor,
                point,
            },
            true,
        )?;
        Ok(())
    }
}

fn has_joined(members: &Last<Member, bool>, member: Member) -> bool
    ensures { result ≡ joined_in members.now.said.entries member }
{
    members.get(member).unwrap_or(false)
}

// A host joins a group, or leaves it.
fn say(members: &mut Last<Member, bool>, host: HostNo, change: Change) -> Result<(), Memory>
    ensures { OnOk result ((k : Member) → joined_in members.new.said.entries k
        ≡ (if (host.0 == k.host.0) && (group_number change.group == k.group) then change.join else joined_in members.old.said.entries k)) }
{
    let group = change.group.0 % 0x80_0000;
    members.put(Member { host, group }, change.join)?;
    Ok(())
}

// What a frame of a host says of its memberships comes about.
fn hear(members: &mut Last<Member, bool>, host: HostNo, frame: &Frame) -> Result<(), Memory>
    requires { 14 ≤ length frame.now }
    ensures { OnOk result ((k : Member) → joined_in members.new.said.entries k
        ≡ says host (changes_in frame.now) k (joined_in members.old.said.entries k)) }
{
    let view = view_of(frame.bytes());
    let Some(changes) = read_igmp(&view) else {
        return Ok(());
    };
    for change in changes {
        say(members, host, change)?;
    }
    Ok(())
}
