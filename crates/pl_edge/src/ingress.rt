ghost use Rattle.std.specs.Prelude.{◌≡◌, ◌<◌, ◌≤◌, ◌++◌, ◌==◌, ◌&&◌, if◌then◌else◌, None, OnOk, IfOk, is_none, length};
ghost use Rattle.pl_frame.specs.Ethernet.{source_of};
ghost use Rattle.pl_node.specs.SwitchViews.{SwitchView};
ghost use Rattle.pl_layouts.specs.Frames.{arriving, is_arp};
ghost use Rattle.pl_layouts.specs.Memberships.{membership_in};
ghost use Rattle.pl_steps.specs.Taken.{IsTakenUpTo};
ghost use Rattle.pl_switch_rule.specs.Forwarding.{Choice};
ghost use Rattle.pl_switch_rule.specs.Granting.{is_local};
ghost use Rattle.pl_switch_rule.specs.Intake.{is_for_switch, mac_of_pmac, packet_acts, sends_in, takes_in};
ghost use Rattle.pl_migrate.specs.AddressTables.{address_in_use, address_table_in, is_here};
ghost use Rattle.pl_edge.specs.declared.edge_act.EdgeAct.TheVariants.{ToHost, Upward};
ghost use Rattle.pl_edge.specs.Begun.{left_to_do, question, IsMeant};
ghost use Rattle.pl_edge.specs.EdgeViews.{edge_in, KeepsEdge, MayBeAt};

use crate::membership::is_membership;
use crate::reading::{destination_of, is_group, source_of};
use crate::{EdgeAct, EdgeTable};
use pl_arp::{Arp, REQUEST};
use pl_frame::{Frame, Mac};
use pl_layouts::frames::{arrive, is_arp, packet_in};
use pl_migrate::AddressTable;
use pl_multicast::group_of;
use pl_node::{Act, Cause, Memory, Outbox, ToManager};
use pl_pmac::{Pmac, pack, unpack};

impl EdgeTable {
    /// A frame of a host whose source was learnt comes: an ARP frame that cannot be read ends, what is for
    /// the switch itself is taken, memberships with it, and the rest is rewritten to go on under the
    /// pseudo address of its source, in an ARP packet too. The answer says what is left to do with the
    /// frame.
    pub fn ingress(
        &mut self,
        port: u8,
        frame: &mut Frame,
        out: &mut Outbox,
    ) -> Result<EdgeAct, Memory>
        requires port { port < self.old.k }
        requires long { 14 ≤ length frame.old }
        requires short { length frame.old ≤ 65553 }
        ensures begun { IfOk result (λ act. (choose : Choice) (v : SwitchView) → MayBeAt self.old.address_table v.place → IsTakenUpTo (left_to_do choose act frame.new (edge_in self.new v)) (takes_in choose port frame.old (edge_in self.old v)) out.old out.new) }
        ensures meant { IfOk result (λ act. IsMeant act frame.new) }
        ensures same { length frame.new ≡ length frame.old }
        ensures kept { KeepsEdge self.old self.new }
    {
        if is_membership(frame.bytes()) {
            self.hear_members(port, frame, out)?;
            return Ok(EdgeAct::Taken);
        }
        self.take_in(port, frame, out)
    }

    // The same of a frame that is no membership message.
    fn take_in(&self, port: u8, frame: &mut Frame, out: &mut Outbox) -> Result<EdgeAct, Memory>
        requires port { port < self.now.k }
        requires long { 14 ≤ length frame.old }
        requires other { membership_in frame.old ≡ None }
        ensures begun { IfOk result (λ act. (choose : Choice) (v : SwitchView) → MayBeAt self.now.address_table v.place → IsTakenUpTo (left_to_do choose act frame.new (edge_in self.now v)) (takes_in choose port frame.old (edge_in self.now v)) out.old out.new) }
        ensures meant { IfOk result (λ act. IsMeant act frame.new) }
        ensures same { length frame.new ≡ length frame.old }
    {
        let packet = packet_in(frame.bytes());
        if is_bad_arp(frame.bytes(), packet) {
            return Ok(EdgeAct::Drop(Cause::BadArp));
        }
        if self.is_for_switch(destination_of(frame.bytes()), packet) {
            self.ask_for(port, frame.bytes(), packet, out)?;
            return Ok(EdgeAct::Taken);
        }
        let Some(address_table) = &self.address_table else {
            return Ok(EdgeAct::Drop(Cause::NotPlaced));
        };
        rewrite_source(address_table, port, frame);
        Ok(direction(address_table, frame.bytes()))
    }

    // Whether a packet is for the switch itself: a request, or another packet to a group or to the sender
    // of a probe of this switch.
    fn is_for_switch(&self, dst: Mac, packet: Option<Arp>) -> bool
        ensures { (v : SwitchView) → MayBeAt self.now.address_table v.place → result ≡ is_for_switch (edge_in self.now v) dst packet }
    {
        match packet {
            Some(arp) => arp.op == REQUEST || is_group(dst) || self.has_probed_from(unpack(dst)),
            None => false,
        }
    }

    // Whether an address is one from which this switch sends its probes.
    fn has_probed_from(&self, pmac: Pmac) -> bool
        ensures { (v : SwitchView) → MayBeAt self.now.address_table v.place → result ≡ (is_local (edge_in self.now v) pmac && (pmac.vmid == 0)) }
    {
        match &self.address_table {
            Some(address_table) => address_table.is_local(pmac) && pmac.vmid == 0,
            None => false,
        }
    }

    // The manager is asked who has an IPv4 address, where a packet of a host asks for that of another one.
    fn ask_for(
        &self,
        port: u8,
        frame: &[u8],
        packet: Option<Arp>,
        out: &mut Outbox,
    ) -> Result<(), Memory>
        requires port { port < self.now.k }
        requires long { 14 ≤ length frame.now }
        ensures { OnOk result ((v : SwitchView) → MayBeAt self.now.address_table v.place → out.new ≡ out.old ++ packet_acts (edge_in self.now v) port frame.now packet) }
    {
        let Some(arp) = packet else {
            return Ok(());
        };
        match &self.address_table {
            Some(address_table) => ask(address_table.in_use(port, source_of(frame)), arp, out),
            None => Ok(()),
        }
    }
}

// Asks the manager for a host with a pseudo address, where a packet asks for the address of another host.
fn ask(asker: Option<Pmac>, arp: Arp, out: &mut Outbox) -> Result<(), Memory>
    ensures { OnOk result (out.new ≡ out.old ++ question asker arp) }
{
    if arp.op != REQUEST || arp.spa == arp.tpa {
        return Ok(());
    }
    if let Some(asker) = asker {
        out.push(Act::Tell(ToManager::Query {
            asker,
            asker_ip: arp.spa,
            ip: arp.tpa,
        }))?;
    }
    Ok(())
}

// Whether a frame is an ARP frame whose packet cannot be read.
fn is_bad_arp(frame: &[u8], packet: Option<Arp>) -> bool
    requires { 14 ≤ length frame.now }
    ensures { result ≡ (is_arp frame.now && is_none packet) }
{
    is_arp(frame) && packet.is_none()
}

// The source, in an ARP packet too, becomes the pseudo address that the host has in use at a port.
fn rewrite_source(address_table: &AddressTable, port: u8, frame: &mut Frame)
    requires port { port < length address_table.now.grants }
    requires long { 14 ≤ length frame.old }
    ensures frame { frame.new ≡ arriving frame.old (mac_of_pmac (address_in_use address_table.now port (source_of frame.old))) None }
    ensures same { length frame.new ≡ length frame.old }
{
    let pmac = address_table.in_use(port, source_of(frame.bytes()));
    arrive(frame.bytes_mut(), mac_of_pmac(pmac), None);
}

fn mac_of_pmac(pmac: Option<Pmac>) -> Option<Mac>
    ensures { result ≡ mac_of_pmac pmac }
{
    match pmac {
        Some(pmac) => Some(pack(pmac)),
        None => None,
    }
}

// Where a frame goes from an edge switch with this address table.
fn direction(address_table: &AddressTable, frame: &[u8]) -> EdgeAct
    requires { 14 ≤ length frame.now }
    ensures sent { (choose : Choice) (v : SwitchView) → left_to_do choose result frame.now (address_table_in address_table.now v) ≡ sends_in choose frame.now (address_table_in address_table.now v) }
    ensures meant { IsMeant result frame.now }
{
    let dst = destination_of(frame);
    match group_of(dst) {
        Some(group) => EdgeAct::Group(group),
        None => direction_to_host(address_table, unpack(dst)),
    }
}

// Where a frame for one host goes.
fn direction_to_host(address_table: &AddressTable, pmac: Pmac) -> EdgeAct
    ensures { result ≡ (if is_here address_table.now pmac then ToHost pmac else Upward pmac) }
{
    if address_table.is_local(pmac) {
        EdgeAct::ToHost(pmac)
    } else {
        EdgeAct::Upward(pmac)
    }
}
