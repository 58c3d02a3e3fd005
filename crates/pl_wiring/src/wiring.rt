ghost use Rattle.std.specs.Prelude.{◌≡◌, ◌≢◌, ℕ, ◌+◌, ◌*◌, ◌/◌, ◌%◌, ◌<◌, ◌↔◌, IsTrue, Some, IfOk, IfSome, IfNone, All, Contains, HoldsAt, length, slice_get};
ghost use Rattle.pl_wiring.specs.Labels.{IsLabel, edge_count, switch_count, number_of, label_of};
ghost use Rattle.pl_wiring.specs.Plan.{IsPlan, IsAttachedAt, HasHost};
ghost use Rattle.pl_wiring.specs.Peers.{IsPeer, peer_of, IsPort, LinksSwitches, LeadsFrom};
ghost use Rattle.pl_wiring.specs.LiveLinks.{IsFor, IsLive};
ghost use Rattle.pl_wiring.specs.declared.label.SwitchNo.{SwitchNo};

use crate::order::{half, is_label, label_at, switch_at, switches};
use crate::tables::{PortTable, host_table, link_table, look_at, name_table, present};
use crate::{Host, HostNo, Label, Link, Memory, Peer, SwitchNo};
use pl_frame::SwitchId;
use std::alloc::Global;
use std::collections::HashMap;
use std::marker::Model;

/// The fat tree: its k, the ids of its switches, its links and its hosts.
#[derive(Debug, Drop)]
pub struct Wiring {
    k: u8,
    ids: Vec<SwitchId>,
    links: Vec<Link>,
    hosts: Vec<Host>,
    link_at: PortTable,
    host_at: PortTable,
    names: HashMap<String, u32>,
}

impl Model for Wiring {
    ghost use Rattle.pl_wiring.specs.Plan.{Plan};

    ghost Value = { Plan };

    ghost use Rattle.pl_wiring.specs.Wired.{plan_of, IsWired};

    ghost view = { plan_of };

    ghost invariant = { IsWired };
}

impl Wiring {
    /// The wiring of a plan, with links in link order.
    pub fn new(
        alloc: Global,
        k: u8,
        ids: Vec<SwitchId>,
        links: Vec<Link>,
        hosts: Vec<Host>,
    ) -> Result<Wiring, Memory>
        requires { IsPlan (record {
          k = k;
          ids = ids.items;
          links = links.items;
          hosts = hosts.items;
        }) }
        ensures { IfOk result (λ w. w ≡ record {
          k = k;
          ids = ids.items;
          links = links.items;
          hosts = hosts.items;
        }) }
    {
        let link_at = link_table(alloc, k, &links)?;
        let host_at = host_table(alloc, k, &hosts)?;
        let names = name_table(alloc, &hosts)?;
        Ok(Wiring {
            k,
            ids,
            links,
            hosts,
            link_at,
            host_at,
            names,
        })
    }

    /// The number of ports of each switch.
    pub fn k(&self) -> u8
        ensures k { result ≡ self.now.k }
        ensures plan { IsPlan self.now }
    {
        self.k
    }

    pub fn switch_count(&self) -> u32
        ensures count { result ≡ switch_count self.now.k }
        ensures plan { IsPlan self.now }
    {
        switches(self.k)
    }

    /// The number that the switch knows itself by.
    pub fn id(&self, switch: SwitchNo) -> SwitchId
        requires { switch.0 < switch_count self.now.k }
        ensures { slice_get self.now.ids switch.0 ≡ Some result }
    {
        self.ids[switch.0 as usize]
    }

    /// What the switch is called.
    pub fn label(&self, switch: SwitchNo) -> Label
        requires { switch.0 < switch_count self.now.k }
        ensures label { result ≡ label_of self.now.k switch.0 }
        ensures in_range { IsLabel self.now.k result }
        ensures inverse { number_of self.now.k result ≡ switch.0 }
    {
        label_at(self.k, switch)
    }

    /// The switch that is called so.
    pub fn switch_of(&self, label: Label) -> Option<SwitchNo>
        ensures found { IfSome result (λ switch. (switch.0 ≡ number_of self.now.k label)
            × (switch.0 < switch_count self.now.k)) }
        ensures in_range { IfSome result (λ _. IsLabel self.now.k label) }
        ensures inverse { IfSome result (λ switch. label_of self.now.k switch.0 ≡ label) }
        ensures none { IfNone result (IsLabel self.now.k label → ⊥) }
    {
        if is_label(self.k, label) {
            Some(switch_at(self.k, label))
        } else {
            None
        }
    }

    /// The other end of the link at a port.
    pub fn peer(&self, switch: SwitchNo, port: u8) -> Peer
        requires switch { switch.0 < switch_count self.now.k }
        requires port { port < self.now.k }
        ensures exact { result ≡ peer_of self.now switch.0 port }
        ensures says { IsPeer self.now.links switch.0 port result }
        ensures in_range { IsPort self.now.k result }
        ensures at_edge { result ≡ Peer.HostPort → switch.0 < edge_count self.now.k }
        ensures symmetric { (t : SwitchNo) (q : ℕ) → result ≡ Peer.Switch t q →
            peer_of self.now t.0 q ≡ Peer.Switch switch port }
    {
        match look_at(&self.link_at, self.k, switch, port) {
            None => Peer::HostPort,
            Some(number) => other_end(&self.links[number as usize], switch),
        }
    }

    /// The links in link order.
    pub fn links(&self) -> &[Link]
        ensures links { result.now ≡ self.now.links }
        ensures plan { IsPlan self.now }
    {
        self.links.as_slice()
    }

    /// The hosts in the order of the file.
    pub fn hosts(&self) -> &[Host]
        ensures hosts { result.now ≡ self.now.hosts }
        ensures plan { IsPlan self.now }
    {
        self.hosts.as_slice()
    }

    pub fn host_count(&self) -> u32
        ensures { result ≡ length self.now.hosts }
    {
        self.hosts.len() as u32
    }

    pub fn host(&self, host: HostNo) -> &Host
        requires { host.0 < length self.now.hosts }
        ensures { slice_get self.now.hosts host.0 ≡ Some result.now }
    {
        &self.hosts[host.0 as usize]
    }

    pub fn host_named(&self, name: &str) -> Option<HostNo>
        ensures found { IfSome result (λ host. HasHost self.now host.0 (λ h. h.name ≡ name.now)) }
        ensures none { IfNone result (All (λ h. h.name ≢ name.now) self.now.hosts) }
    {
        match self.names.get(name) {
            None => None,
            Some(number) => Some(HostNo(*number)),
        }
    }

    /// The host that stands first at a port.
    pub fn host_at(&self, switch: SwitchNo, port: u8) -> Option<HostNo>
        requires switch { switch.0 < switch_count self.now.k }
        requires port { port < self.now.k }
        ensures found { IfSome result (λ host.
            HasHost self.now host.0 (λ h. IsAttachedAt h switch.0 port)) }
        ensures none { IfNone result (All (λ h. ¬ IsAttachedAt h switch.0 port) self.now.hosts) }
    {
        match look_at(&self.host_at, self.k, switch, port) {
            None => None,
            Some(number) => Some(HostNo(number)),
        }
    }

    /// The link that joins two switches, in either order.
    pub fn link(&self, a: SwitchNo, b: SwitchNo) -> Option<Link>
        ensures found { IfSome result (λ link.
            Contains self.now.links link × LinksSwitches link a.0 b.0) }
        ensures none { IfNone result (All (λ link. ¬ LinksSwitches link a.0 b.0) self.now.links) }
        ensures plan { IsPlan self.now }
    {
        if a.0 < b.0 {
            self.link_up(a, b)
        } else {
            self.link_up(b, a)
        }
    }

    // The link of a switch by one of its uplinks, from 0.
    pub(crate) fn link_above(&self, lower: SwitchNo, uplink: u32) -> &Link
        requires lower { lower.0 < edge_count self.now.k + edge_count self.now.k }
        requires uplink { uplink < self.now.k / 2 }
        ensures link { HoldsAt (λ link. link ≡ result.now) self.now.links
            (lower.0 * (self.now.k / 2) + uplink) }
        ensures plan { IsPlan self.now }
    {
        &self.links[lower.0 as usize * half(self.k) as usize + uplink as usize]
    }

    // A flag for each port that has a link.
    pub(crate) fn linked_ports(&self, alloc: Global) -> Result<Vec<bool>, Memory>
        ensures made_for { IfOk result (λ flags.
            IsFor self.now (record { k = self.now.k; flags = flags.items })) }
        ensures live { IfOk result (λ flags.
            All (IsLive (record { k = self.now.k; flags = flags.items })) self.now.links) }
    {
        present(alloc, &self.link_at)
    }

    fn link_up(&self, lower: SwitchNo, upper: SwitchNo) -> Option<Link>
        ensures found { IfSome result (λ link.
            Contains self.now.links link × LeadsFrom link lower upper) }
        ensures none { IfNone result (All (λ link. ¬ LeadsFrom link lower upper) self.now.links) }
        ensures plan { IsPlan self.now }
    {
        let number = link_number(self.k, lower, upper);
        if joins_at(&self.links, number, lower, upper) {
            Some(self.links[number])
        } else {
            None
        }
    }
}

// Where the link of two switches stands in link order, if there is one.
fn link_number(k: u8, lower: SwitchNo, upper: SwitchNo) -> usize
    requires { 1 < k }
    ensures { result ≡ lower.0 * (k / 2) + upper.0 % (k / 2) }
{
    lower.0 as usize * half(k) as usize + (upper.0 % half(k)) as usize
}

fn joins_at(links: &[Link], number: usize, lower: SwitchNo, upper: SwitchNo) -> bool
    ensures { IsTrue result ↔ ((number < length links.now)
        × HoldsAt (λ link. LeadsFrom link lower upper) links.now number) }
{
    match links.get(number) {
        None => false,
        Some(link) => link.lower == lower && link.upper == upper,
    }
}

// The end of a link that is not at this switch.
fn other_end(link: &Link, switch: SwitchNo) -> Peer
    ensures lower { link.now.lower ≡ switch →
        result ≡ Peer.Switch link.now.upper link.now.upper_port }
    ensures upper { link.now.lower ≢ switch →
        result ≡ Peer.Switch link.now.lower link.now.lower_port }
{
    if link.lower == switch {
        Peer::Switch(link.upper, link.upper_port)
    } else {
        Peer::Switch(link.lower, link.lower_port)
    }
}
