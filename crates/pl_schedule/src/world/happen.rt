ghost use Rattle.std.specs.Prelude.{◌≡◌, ◌<◌, [], ◌∷◌, length, slice_get, slice_set, true, None, OnOk, Some};
ghost use Rattle.std.specs.List.{AllByRecursion};
ghost use Rattle.pl_frame.specs.declared.address.SwitchId.{SwitchId};
ghost use Rattle.pl_wiring.specs.Labels.{switch_count};
ghost use Rattle.pl_wiring.specs.Peers.{IsPort, peer_of};
ghost use Rattle.pl_node.specs.Accounting.{IsShaped};
ghost use Rattle.pl_node.specs.ManagerFacts.{CanHear};
ghost use Rattle.pl_world.specs.Changes.{all_noted, emptied_from_host, emptied_out, ends_of, host_at, out_of};
ghost use Rattle.pl_world.specs.Flying.{IsTreePort, IsDataItem, IsItem};
ghost use Rattle.pl_queues.specs.Queues.{has_items, items_at};
ghost use Rattle.pl_world.specs.LinksAndMoves.{host_moved, item_lost};
ghost use Rattle.pl_world.specs.OtherActs.{heard_after_tick, one_more_tick};
ghost use Rattle.pl_world.specs.WorldRule.{DeliversFromHost, DeliversFromManager, DeliversOut, DeliversToManager, HostMoves, Loses, Ticks};

use crate::world::World;
use pl_frame::Memory;
use pl_journal::{Cause, Entry};
use pl_node::{HostLogic, ManagerLogic, SwitchLogic};
use pl_wiring::{HostNo, Peer, SwitchNo};
use pl_world::{AttachmentPoint, Item, SpokenFrame};
use pl_world_parts::{Attachments, HostCall, Incoming};

impl<S: SwitchLogic, M: ManagerLogic, H: HostLogic> World<S, M, H> {
    pub(crate) fn deliver_from_host(&mut self, h: HostNo) -> Result<(), Memory>
        requires host { h.0 < length self.old.plan.hosts }
        requires items { AllByRecursion (AllByRecursion IsDataItem) self.old.from_hosts }
        requires shaped { AllByRecursion IsShaped self.old.switches }
        requires there { has_items (items_at self.old.from_hosts h.0) ≡ true }
        ensures { OnOk result (DeliversFromHost S.rule self.old h.0 (items_at self.old.from_hosts h.0) self.new) }
    {
        match self.take_from_host(h) {
            None => Ok(()),
            Some(item) => {
                self.come_in(h, item)?;
                Ok(())
            }
        }
    }

    pub(crate) fn peer(&self, s: SwitchNo, port: u8) -> Peer
        requires switch { s.0 < switch_count self.now.plan.k }
        requires port { port < self.now.plan.k }
        ensures is { result ≡ peer_of self.now.plan s.0 port }
        ensures in_range { IsPort self.now.plan.k result }
    {
        self.wiring_index.wiring().peer(s, port)
    }

    pub(crate) fn deliver_out(&mut self, s: SwitchNo, port: u8) -> Result<(), Memory>
        requires switch { s.0 < switch_count self.old.plan.k }
        requires port { port < self.old.plan.k }
        requires items { AllByRecursion (AllByRecursion IsItem) self.old.out }
        requires shaped { AllByRecursion IsShaped self.old.switches }
        requires there { has_items (out_of self.old s.0 port) ≡ true }
        ensures { OnOk result (DeliversOut S.rule H.rule self.old s.0 port (out_of self.old s.0 port) self.new) }
    {
        let peer = self.peer(s, port);
        match self.take_out(s, port) {
            None => Ok(()),
            Some(item) => {
                self.come_over(s, port, item, peer)?;
                Ok(())
            }
        }
    }

    pub(crate) fn deliver_to_manager(&mut self, s: SwitchNo) -> Result<(), Memory>
        requires switch { s.0 < switch_count self.old.plan.k }
        requires hears { (id : SwitchId) → slice_get self.old.plan.ids s.0 ≡ Some id → CanHear self.old.manager id }
        requires there { has_items (items_at self.old.to_manager s.0) ≡ true }
        ensures { OnOk result (DeliversToManager M.rule self.old s.0 (items_at self.old.to_manager s.0) self.new) }
    {
        match self.take_to_manager(s) {
            None => Ok(()),
            Some(told) => {
                self.manager_hears(s, &told)?;
                Ok(())
            }
        }
    }

    pub(crate) fn deliver_from_manager(&mut self, s: SwitchNo) -> Result<(), Memory>
        requires switch { s.0 < switch_count self.old.plan.k }
        requires shaped { AllByRecursion IsShaped self.old.switches }
        requires there { has_items (items_at self.old.from_manager s.0) ≡ true }
        ensures { OnOk result (DeliversFromManager S.rule self.old s.0 (items_at self.old.from_manager s.0) self.new) }
    {
        match self.take_from_manager(s) {
            None => Ok(()),
            Some(says) => {
                self.switch_hears(s, Incoming::Message(&says), SpokenFrame::Silent)?;
                Ok(())
            }
        }
    }

    pub(crate) fn tick(&mut self, s: SwitchNo) -> Result<(), Memory>
        requires switch { s.0 < switch_count self.old.plan.k }
        requires shaped { AllByRecursion IsShaped self.old.switches }
        ensures { OnOk result (Ticks S.rule self.old s.0 self.new) }
    {
        self.count_tick(s);
        self.switch_hears(s, Incoming::Tick, SpokenFrame::Silent)?;
        Ok(())
    }

    // The tick counts for the hosts that stand at the switch.
    fn count_tick(&mut self, s: SwitchNo)
        ensures { self.new ≡ record self.old { heard = heard_after_tick s.0 self.old.attachments self.old.heard } }
    {
        let k = self.wiring_index.wiring().k();
        count_ticks(&mut self.heard, &self.attachments, s, k);
    }

    pub(crate) fn lose(&mut self, s: SwitchNo, port: u8) -> Result<(), Memory>
        requires switch { s.0 < switch_count self.old.plan.k }
        requires port { port < self.old.plan.k }
        requires there { has_items (out_of self.old s.0 port) ≡ true }
        ensures { OnOk result (Loses self.old s.0 port (out_of self.old s.0 port) self.new) }
    {
        match self.take_out(s, port) {
            None => Ok(()),
            Some(item) => {
                self.lose_item(item)?;
                Ok(())
            }
        }
    }

    fn lose_item(&mut self, item: Item) -> Result<(), Memory>
        ensures { OnOk result (self.new ≡ item_lost self.old item) }
    {
        match item {
            Item::Control(_) => Ok(()),
            Item::Data(number, _) => self.note(Entry::Dropped(number, Cause::Lost)),
        }
    }

    pub(crate) fn move_host(&mut self, h: HostNo, to: AttachmentPoint) -> Result<(), Memory>
        requires host { h.0 < length self.old.plan.hosts }
        requires to { IsTreePort self.old.plan.k to }
        requires free { host_at self.old to.edge.0 to.port ≡ None }
        ensures { OnOk result (HostMoves H.rule self.old h.0 to (slice_get self.old.attachments h.0) self.new) }
    {
        let from = self.attachment_of(h);
        self.go(h, from, to)?;
        self.host_does(h, HostCall::Moved)?;
        Ok(())
    }

    // A host leaves its port for another one.
    fn go(&mut self, h: HostNo, from: AttachmentPoint, to: AttachmentPoint) -> Result<(), Memory>
        requires host { h.0 < length self.old.plan.hosts }
        requires from { IsTreePort self.old.plan.k from }
        requires to { IsTreePort self.old.plan.k to }
        requires free { host_at self.old to.edge.0 to.port ≡ None }
        ensures gone { OnOk result (self.new ≡ host_moved self.old h.0 from to) }
        ensures plan { OnOk result (self.new.plan ≡ self.old.plan) }
    {
        self.attachment(h, to)?;
        self.note(Entry::Moved(h, to.edge, to.port))?;
        self.empty_from_host(h, Cause::HostGone)?;
        self.empty_out(from.edge, from.port, Cause::HostGone)
    }

    fn attachment(&mut self, h: HostNo, to: AttachmentPoint) -> Result<(), Memory>
        requires host { h.0 < length self.old.plan.hosts }
        requires to { IsTreePort self.old.plan.k to }
        requires free { host_at self.old to.edge.0 to.port ≡ None }
        ensures { OnOk result (self.new ≡ record self.old { attachments = slice_set self.old.attachments h.0 to; heard = slice_set self.old.heard h.0 None }) }
    {
        self.attachments.move_to(h, to)?;
        self.heard[h.0 as usize] = None;
        Ok(())
    }

    // The data frames in a queue end for a cause.
    fn empty_from_host(&mut self, h: HostNo, cause: Cause) -> Result<(), Memory>
        requires { h.0 < length self.old.plan.hosts }
        ensures { OnOk result (self.new ≡ emptied_from_host self.old h.0 cause) }
    {
        let mut items = Vec::new(self.alloc);
        self.from_hosts.clear_into(h.0 as usize, &mut items)?;
        self.end_all(&items, cause)
    }

    pub(crate) fn empty_out(&mut self, s: SwitchNo, port: u8, cause: Cause) -> Result<(), Memory>
        requires switch { s.0 < switch_count self.old.plan.k }
        requires port { port < self.old.plan.k }
        ensures { OnOk result (self.new ≡ emptied_out self.old s.0 port cause) }
    {
        let mut items = Vec::new(self.alloc);
        self.switches.clear_into(s.0 as usize, port, &mut items)?;
        self.end_all(&items, cause)
    }

    fn end_all(&mut self, items: &[Item], cause: Cause) -> Result<(), Memory>
        ensures { OnOk result (self.new ≡ all_noted self.old (ends_of cause items.now)) }
    {
        for item in items {
            self.end_item(item, cause)?;
        }
        Ok(())
    }

    fn end_item(&mut self, item: &Item, cause: Cause) -> Result<(), Memory>
        ensures { OnOk result (self.new ≡ all_noted self.old (ends_of cause (item.now ∷ []))) }
    {
        match item {
            Item::Control(_) => Ok(()),
            Item::Data(number, _) => self.note(Entry::Dropped(*number, cause)),
        }
    }
}

// A tick counts for the hosts that stand at the ports of the switch.
fn count_ticks(heard: &mut Vec<Option<u32>>, attachments: &Attachments, s: SwitchNo, k: u8)
    requires many { length attachments.now ≡ length heard.old.items }
    requires at_ports { AllByRecursion (IsTreePort k) attachments.now }
    ensures { heard.new.items ≡ heard_after_tick s.0 attachments.now heard.old.items }
{
    for port in 0..k {
        if let Some(h) = attachments.host_at(s, port) {
            let ticks = one_more_tick(heard[h.0 as usize]);
            heard[h.0 as usize] = ticks;
        }
    }
}

fn one_more_tick(ticks: Option<u32>) -> Option<u32>
    ensures { result ≡ one_more_tick ticks }
{
    match ticks {
        None => None,
        Some(count) => { if count >= 299 { None } else { Some(count + 1) } }
    }
}
