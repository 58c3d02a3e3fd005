ghost use Rattle.std.specs.Prelude.{◌≡◌, ◌<◌, ◌≤◌, ◌||◌, [], is_some, length, option_map, slice_get, IfSome, MatchOption, OnOk, Some};
ghost use Rattle.std.specs.List.{AllByRecursion};
ghost use Rattle.pl_frame.specs.Ethernet.{destination_of};
ghost use Rattle.pl_wiring.specs.Labels.{switch_count};
ghost use Rattle.pl_wiring.specs.Peers.{IsPort};
ghost use Rattle.pl_node.specs.Accounting.{IsShaped};
ghost use Rattle.pl_layouts.specs.Frames.{packet_in};
ghost use Rattle.pl_journal.specs.Lossy.{mac_of_host};
ghost use Rattle.pl_layouts.specs.Memberships.{is_group};
ghost use Rattle.pl_world.specs.Changes.{is_address_of, out_of, receiver};
ghost use Rattle.pl_world.specs.Flying.{IsTreePort, IsItem};
ghost use Rattle.pl_queues.specs.Queues.{items_at};
ghost use Rattle.pl_world.specs.OtherActs.{heard_with};
ghost use Rattle.pl_schedule.specs.Heads.{IsTakenFromHost, IsTakenFromManager, ItemIsTaken, IsTakenToManager};
ghost use Rattle.pl_world.specs.WorldRule.{ComesAtHost, ComesAtSwitch, ComesIn, ComesOut, ComesOver, heard_item};

use crate::world::World;
use byteorder::{BigEndian, ByteOrder};
use pl_arp::read;
use pl_frame::{Frame, Mac, Memory, SHORTEST, TYPE_ARP};
use pl_journal::{Cause, Entry};
use pl_node::{HostLogic, ManagerLogic, SwitchLogic, ToManager, ToSwitch};
use pl_wiring::{HostNo, Peer, SwitchNo};
use pl_world::{AttachmentPoint, Item, SpokenFrame};
use pl_world_parts::Incoming;

impl<S: SwitchLogic, M: ManagerLogic, H: HostLogic> World<S, M, H> {
    // An item comes at a port of a switch.
    fn come_at_switch(&mut self, s: SwitchNo, port: u8, item: Item) -> Result<(), Memory>
        requires switch { s.0 < switch_count self.old.plan.k }
        requires port { port < self.old.plan.k }
        requires item { IsItem item }
        requires shaped { AllByRecursion IsShaped self.old.switches }
        ensures { OnOk result (ComesAtSwitch S.rule self.old s.0 port item self.new) }
    {
        match item {
            Item::Control(frame) => {
                let incoming = Incoming::Frame(port, frame.bytes());
                self.switch_hears(s, incoming, SpokenFrame::Silent)
            }
            Item::Data(number, frame) => {
                self.note(Entry::Crossed(number, s))?;
                let incoming = Incoming::Frame(port, frame.bytes());
                self.switch_hears(s, incoming, SpokenFrame::Waiting(number, false))
            }
        }
    }

    // An item comes out of a host port.
    fn come_out(&mut self, s: SwitchNo, port: u8, item: Item) -> Result<(), Memory>
        requires { IsItem item }
        ensures { OnOk result (ComesOut H.rule self.old s.0 port item self.new) }
    {
        match item {
            Item::Control(_) => Ok(()),
            Item::Data(number, frame) => {
                let to = self.receiver(s, port, frame.bytes());
                self.come_at_host(number, frame, to)
            }
        }
    }

    fn come_at_host(&mut self, number: u64, frame: Frame, to: Option<HostNo>) -> Result<(), Memory>
        requires { IfSome to (λ h. h.0 < length self.old.plan.hosts) }
        ensures { OnOk result (ComesAtHost H.rule self.old number frame (option_map (λ h. h.0) to) self.new) }
    {
        match to {
            None => self.note(Entry::Dropped(number, Cause::HostGone)),
            Some(h) => self.host_receives(h, number, frame),
        }
    }

    // The host at a port that gets a frame.
    fn receiver(&self, s: SwitchNo, port: u8, frame: &[u8]) -> Option<HostNo>
        requires { 14 ≤ length frame.now }
        ensures is { option_map (λ h. h.0) result ≡ receiver self.now s.0 port frame.now }
        ensures within { IfSome result (λ h. h.0 < length self.now.plan.hosts) }
    {
        let _ = &self.attachments;
        match self.attachments.host_at(s, port) {
            None => None,
            Some(h) => { if self.is_for(h, frame) { Some(h) } else { None } }
        }
    }

    // Whether a frame goes to a group, or to the address of a host.
    fn is_for(&self, h: HostNo, frame: &[u8]) -> bool
        requires host { h.0 < length self.now.plan.hosts }
        requires long { 14 ≤ length frame.now }
        ensures { result ≡ (is_group (destination_of frame.now) || is_address_of (mac_of_host self.now.plan h.0) (destination_of frame.now)) }
    {
        let to = Mac::read_at(frame, 0);
        to.is_group() || self.wiring_index.wiring().host(h).mac.0 == to.0
    }

    // An item that left a port comes at the other end of its link.
    pub(crate) fn come_over(
        &mut self,
        s: SwitchNo,
        port: u8,
        item: Item,
        peer: Peer,
    ) -> Result<(), Memory>
        requires peer { IsPort self.old.plan.k peer }
        requires item { IsItem item }
        requires shaped { AllByRecursion IsShaped self.old.switches }
        ensures { OnOk result (ComesOver S.rule H.rule self.old s.0 port item peer self.new) }
    {
        match peer {
            Peer::Switch(to, at) => self.come_at_switch(to, at, item),
            Peer::HostPort => self.come_out(s, port, item),
        }
    }

    // An item of a host comes at the port where the host stands by now.
    pub(crate) fn come_in(&mut self, h: HostNo, item: Item) -> Result<(), Memory>
        requires host { h.0 < length self.old.plan.hosts }
        requires item { IsItem item }
        requires shaped { AllByRecursion IsShaped self.old.switches }
        ensures { OnOk result (ComesIn S.rule self.old h.0 item (slice_get self.old.attachments h.0) self.new) }
    {
        let attachment = self.attachment_of(h);
        self.hear(h, &item);
        self.come_at_switch(attachment.edge, attachment.port, item)?;
        Ok(())
    }

    pub(crate) fn attachment_of(&self, h: HostNo) -> AttachmentPoint
        requires { h.0 < length self.now.plan.hosts }
        ensures is { slice_get self.now.attachments h.0 ≡ Some result }
        ensures at_port { IsTreePort self.now.plan.k result }
    {
        self.attachments.attachment_of(h)
    }

    // A host is heard with a data frame of it.
    fn hear(&mut self, h: HostNo, item: &Item)
        requires { h.0 < length self.old.plan.hosts }
        ensures heard { self.new ≡ heard_item self.old h.0 item.now }
        ensures plan { self.new.plan ≡ self.old.plan }
        ensures switches { self.new.switches ≡ self.old.switches }
    {
        let _ = &self.heard;
        match item {
            Item::Control(_) => {}
            Item::Data(_, frame) => {
                let ticks = heard_with(frame.bytes(), self.heard[h.0 as usize]);
                self.heard[h.0 as usize] = ticks;
            }
        }
    }

    // The head of a host's queue is taken; none where it is empty.
    pub(crate) fn take_from_host(&mut self, h: HostNo) -> Option<Item>
        requires { h.0 < length self.old.plan.hosts }
        ensures { MatchOption result (items_at self.old.from_hosts h.0 ≡ []) (IsTakenFromHost self.old h.0 self.new) }
    {
        self.from_hosts.take(h.0 as usize)
    }

    pub(crate) fn take_out(&mut self, s: SwitchNo, port: u8) -> Option<Item>
        requires switch { s.0 < switch_count self.old.plan.k }
        requires port { port < self.old.plan.k }
        ensures { MatchOption result (out_of self.old s.0 port ≡ []) (ItemIsTaken self.old s.0 port self.new) }
    {
        self.switches.take(s.0 as usize, port)
    }

    pub(crate) fn take_to_manager(&mut self, s: SwitchNo) -> Option<ToManager>
        requires { s.0 < switch_count self.old.plan.k }
        ensures { MatchOption result (items_at self.old.to_manager s.0 ≡ []) (IsTakenToManager self.old s.0 self.new) }
    {
        match self.to_manager.take(s.0 as usize) {
            None => None,
            Some(told) => Some(told.message()),
        }
    }

    pub(crate) fn take_from_manager(&mut self, s: SwitchNo) -> Option<ToSwitch>
        requires { s.0 < switch_count self.old.plan.k }
        ensures { MatchOption result (items_at self.old.from_manager s.0 ≡ []) (IsTakenFromManager self.old s.0 self.new) }
    {
        match self.from_manager.take(s.0 as usize) {
            None => None,
            Some(says) => Some(says.message()),
        }
    }
}

// The ticks since a host was heard, once this frame of it came.
fn heard_with(frame: &[u8], ticks: Option<u32>) -> Option<u32>
    ensures { result ≡ heard_with frame.now ticks }
{
    match ticks {
        Some(_) => Some(0),
        None => { if is_readable(frame) { Some(0) } else { None } }
    }
}

// Whether a frame has an ARP packet that can be read.
fn is_readable(frame: &[u8]) -> bool
    ensures { result ≡ is_some (packet_in frame.now) }
{
    frame.len() >= SHORTEST
        && BigEndian::read_u16(&frame[12..]) == TYPE_ARP
        && read(&frame[SHORTEST..]).is_ok()
}
