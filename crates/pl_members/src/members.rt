ghost use Rattle.std.specs.Prelude.{◌≡◌, ◌<◌, ◌==◌, ◌&&◌, ◌++◌, ℕ, [], not, OnOk, OnErr, slice_get};
ghost use Rattle.std.specs.List.{filter, list_any};
ghost use Rattle.pl_node.specs.declared.switch_records.Member.{Member};
ghost use Rattle.pl_lists.specs.Ports.{ports_of};
ghost use Rattle.pl_members.specs.Reached.{end_of, has_member_at, ports_with_member, start_of};
ghost use Rattle.pl_switch_rule.specs.Reporting.{each_told, groups_reported};
ghost use Rattle.pl_switch_rule.specs.Intake.{groups_of, has_member_of, is_member, joins, leaves};

use crate::ranked_member::RankedMember;
use pl_frame::Mac;
use pl_node::{Act, Member, Memory, Outbox, PortSet, ToManager};
use std::alloc::Global;
use std::collections::BTreeSet;
use std::marker::Model;

/// Which hosts at the ports of an edge switch have joined which groups. Contracts see the memberships,
/// rising by group, port and address.
#[derive(Debug, Drop)]
pub struct Members {
    members: BTreeSet<RankedMember>,
}

impl Model for Members {
    ghost use Rattle.std.specs.Prelude.{List};
    ghost use Rattle.pl_node.specs.declared.switch_records.Member.{Member};
    ghost use Rattle.pl_members.specs.Reached.{AreMembersAtPorts};

    ghost Value = { List Member };

    ghost view = { λ members. members.members.keys };

    ghost invariant = { λ members. AreMembersAtPorts members.members.keys };
}

impl Members {
    pub fn new(alloc: Global) -> Members
        ensures { result ≡ [] }
    {
        Members {
            members: BTreeSet::new(alloc),
        }
    }

    /// The host with this address at this port joins a group. After want of memory all is as it was.
    pub fn join(&mut self, port: u8, amac: Mac, group: u32) -> Result<(), Memory>
        requires { port < 24 }
        ensures ok { OnOk result (self.new ≡ joins port amac group self.old) }
        ensures err { OnErr result (self.new ≡ self.old) }
    {
        self.members
            .insert(RankedMember::new(Member { group, port, amac }))?;
        Ok(())
    }

    /// It leaves the group. Takes no memory.
    pub fn leave(&mut self, port: u8, amac: Mac, group: u32)
        ensures { self.new ≡ leaves port amac group self.old }
    {
        self.members
            .remove(&RankedMember::new(Member { group, port, amac }));
    }

    /// All that it joined at this port is forgotten. Takes no memory.
    pub fn forget(&mut self, port: u8, amac: Mac)
        ensures { self.new ≡ filter (λ m. not (is_member port amac m)) self.old }
    {
        self.members.retain(|member| !member.is_of(port, amac));
    }

    /// The ports at which a host has joined a group, in the time of that group's members.
    pub fn ports_for(&self, group: u32) -> PortSet
        ensures ports { ports_of result ≡ ports_with_member self.now group }
        ensures reached { (port : ℕ) → list_any (λ p. p == port) (ports_of result) ≡ has_member_at self.now group port }
    {
        let mut ports = PortSet::empty();
        for member in self.members.range(start_of(group)..end_of(group)) {
            ports.insert(member.port());
        }
        ports
    }

    /// Whether a host has joined a group.
    pub fn has_members(&self, group: u32) -> bool
        ensures { result ≡ has_member_of self.now group }
    {
        self.members
            .range(start_of(group)..end_of(group))
            .next()
            .is_some()
    }

    /// The fabric manager is told of each group with members, by rising number.
    pub fn report(&self, out: &mut Outbox) -> Result<(), Memory>
        ensures { OnOk result (out.new ≡ out.old ++ each_told (groups_reported self.now)) }
    {
        let mut last = None;
        for member in self.members.iter() {
            let group = member.group();
            if last != Some(group) {
                out.push(Act::Tell(ToManager::Members { group, any: true }))?;
                last = Some(group);
            }
        }
        Ok(())
    }

    /// Group number n, rising and counted from 0, of those that have members; none exactly past the last.
    pub fn nth_group(&self, n: usize) -> Option<u32>
        ensures { result ≡ slice_get (groups_of self.now) n }
    {
        let mut left = n;
        let mut last = None;
        for member in self.members.iter() {
            let group = member.group();
            if last != Some(group) {
                if left == 0 {
                    return Some(group);
                }
                left -= 1;
                last = Some(group);
            }
        }
        None
    }
}

// What stands before all memberships of a group.
fn start_of(group: u32) -> RankedMember
    ensures { result ≡ start_of group }
{
    RankedMember::new(Member {
        group,
        port: 0,
        amac: Mac([0; 6]),
    })
}

// What stands behind all of them: no switch has so many ports.
fn end_of(group: u32) -> RankedMember
    ensures { result ≡ end_of group }
{
    RankedMember::new(Member {
        group,
        port: u8::MAX,
        amac: Mac([0; 6]),
    })
}
