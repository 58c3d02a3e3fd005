ghost use Rattle.std.specs.Prelude.{◌≡◌, IfOk, None, OnOk};
ghost use Rattle.pl_arp.specs.Reception.{hardware_of};
ghost use Rattle.pl_host_rule.specs.HostRule.{holding, playing_frame, sending, sending_to, skip_of, unicast_skip};
ghost use Rattle.pl_node.specs.HostInputs.HostAnswer.{Played};
ghost use Rattle.pl_node.specs.Accounting.{IsWholeFrame};
ghost use Rattle.pl_host.specs.Host.{Takes, host_view};

use crate::carried::Carried;
use crate::frames::request;
use crate::host::Host;
use crate::reading::{is_foreign, is_group};
use crate::sending::{put, send};
use pl_arp::Me;
use pl_frame::{Ip4, LONGEST, Mac, Memory, SHORTEST};
use pl_journal::Skip;
use pl_layouts::frames::{is_arp, is_control};
use pl_node::HostOutbox;

// So many frames wait for an address at most.
const HOLD_LIMIT: usize = 64;

impl Host {
    /// Why a recorded frame is not played: the first thing that speaks against it.
    #[tactic(auto, unfolding(pl_host_rule::specs::HostRule::skip_of))]
    pub(crate) fn skip_of(&mut self, raw: bool, frame: &[u8], original: u32) -> Option<Skip>
        ensures skip { result ≡ skip_of (host_view self.old) raw frame.now original }
        ensures carried { result ≡ None → IsWholeFrame frame.now }
        ensures stays { host_view self.new ≡ host_view self.old }
    {
        if frame.len() < original as usize {
            return Some(Skip::CutRecord);
        }
        if frame.len() < SHORTEST {
            return Some(Skip::Short);
        }
        if frame.len() > LONGEST {
            return Some(Skip::Long);
        }
        if is_foreign(self.me, raw, frame) {
            return Some(Skip::ForeignSource);
        }
        if is_control(frame) {
            return Some(Skip::ControlType);
        }
        if raw {
            return None;
        }
        if is_arp(frame) {
            return Some(Skip::RecordedArp);
        }
        let dst = Mac::read_at(frame, 0);
        if is_group(dst) {
            return None;
        }
        let host = self.hosts.other_host(self.me, dst);
        self.unicast_skip(host)
    }

    // Why a frame to one host is not played.
    fn unicast_skip(&self, host: Option<Me>) -> Option<Skip>
        ensures { result ≡ unicast_skip (host_view self.now) host }
    {
        match host {
            None => Some(Skip::NoOwner),
            Some(host) if self.neighbours.waiting.len_for(host.ip) >= HOLD_LIMIT => {
                Some(Skip::HoldFull)
            }
            Some(_) => None,
        }
    }

    /// A recorded frame is sent as it is.
    pub(crate) fn send_frame(&mut self, frame: Carried, out: &mut HostOutbox) -> Result<(), Memory>
        ensures step { OnOk result (Takes (sending (host_view self.old) frame) (host_view self.new) (Played None) out.old out.new) }
        ensures me { self.new.me ≡ self.old.me }
        ensures hosts { self.new.hosts ≡ self.old.hosts }
    {
        send(&mut self.joined, frame, out)
    }

    /// A recorded frame that is not skipped is played.
    pub(crate) fn play_frame(
        &mut self,
        frame: &[u8],
        out: &mut HostOutbox,
    ) -> Result<Option<Skip>, Memory>
        requires { IsWholeFrame frame.now }
        ensures step { IfOk result (λ skip. Takes (playing_frame (host_view self.old) frame.now) (host_view self.new) (Played skip) out.old out.new) }
        ensures me { self.new.me ≡ self.old.me }
        ensures hosts { self.new.hosts ≡ self.old.hosts }
    {
        let dst = Mac::read_at(frame, 0);
        let frame = Carried::copy(self.alloc, frame)?;
        if is_group(dst) {
            self.send_frame(frame, out)?;
            return Ok(None);
        }
        let Some(host) = self.hosts.other_host(self.me, dst) else {
            return Ok(Some(Skip::NoOwner));
        };
        self.send_to(host.ip, frame, out)?;
        Ok(None)
    }

    // A frame to another host goes to the address that the cache has for it, or waits.
    fn send_to(&mut self, ip: Ip4, mut frame: Carried, out: &mut HostOutbox) -> Result<(), Memory>
        ensures step { OnOk result (Takes (sending_to (host_view self.old) ip frame (hardware_of self.old.neighbours.cache ip)) (host_view self.new) (Played None) out.old out.new) }
        ensures me { self.new.me ≡ self.old.me }
        ensures hosts { self.new.hosts ≡ self.old.hosts }
    {
        let Some(mac) = self.neighbours.cache.get(ip) else {
            return self.hold(ip, frame, out);
        };
        frame.set_destination(mac);
        self.send_frame(frame, out)
    }

    // A frame waits, and where it is the first of its address the host asks for it.
    fn hold(&mut self, ip: Ip4, frame: Carried, out: &mut HostOutbox) -> Result<(), Memory>
        requires { hardware_of self.old.neighbours.cache ip ≡ None }
        ensures step { OnOk result (Takes (holding (host_view self.old) ip frame) (host_view self.new) (Played None) out.old out.new) }
        ensures me { self.new.me ≡ self.old.me }
        ensures hosts { self.new.hosts ≡ self.old.hosts }
    {
        if self.neighbours.waiting.len_for(ip) == 0 {
            put(request(self.alloc, self.me, ip)?, out)?;
        }
        self.neighbours.hold(self.alloc, ip, frame)
    }
}
