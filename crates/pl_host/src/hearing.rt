ghost use Rattle.std.specs.Prelude.{◌≡◌, IfOk, OnOk, Some};
ghost use Rattle.pl_node.specs.declared.reception.Reception.TheVariants.{Kept};
ghost use Rattle.pl_host_rule.specs.HostRule.{hearing, is_not_joined, receiving};
ghost use Rattle.pl_node.specs.HostInputs.HostAnswer.{Received};
ghost use Rattle.pl_host.specs.Host.{Takes, host_view};

use crate::host::Host;
use crate::reading::group_in;
use crate::sending::{answer, release};
use pl_arp::Arp;
use pl_frame::Memory;
use pl_layouts::frames::packet_in;
use pl_multicast::FLOOD;
use pl_node::{HostOutbox, Reception};

impl Host {
    /// What a host makes of a frame that arrives.
    pub(crate) fn hear_frame(
        &mut self,
        frame: &[u8],
        out: &mut HostOutbox,
    ) -> Result<Reception, Memory>
        ensures step { IfOk result (λ reception. Takes (receiving (host_view self.old) frame.now) (host_view self.new) (Received reception) out.old out.new) }
        ensures me { self.new.me ≡ self.old.me }
        ensures hosts { self.new.hosts ≡ self.old.hosts }
    {
        if self.is_not_joined(group_in(frame)) {
            return Ok(Reception::NotMember);
        }
        let Some(arp) = packet_in(frame) else {
            return Ok(Reception::Kept);
        };
        self.hear(&arp, out)?;
        Ok(Reception::Kept)
    }

    // Whether a frame goes to a routed group that the host has not joined.
    fn is_not_joined(&self, group: Option<u32>) -> bool
        ensures { result ≡ is_not_joined (host_view self.now) group }
    {
        match group {
            Some(group) => group != FLOOD && !self.joined.contains(group),
            None => false,
        }
    }

    // A packet is heard: its answer goes first, then the frames that waited for its sender.
    fn hear(&mut self, arp: &Arp, out: &mut HostOutbox) -> Result<(), Memory>
        ensures step { OnOk result (Takes (hearing (host_view self.old) (Some arp.now)) (host_view self.new) (Received Kept) out.old out.new) }
        ensures me { self.new.me ≡ self.old.me }
        ensures hosts { self.new.hosts ≡ self.old.hosts }
    {
        let heard = self.neighbours.hear(self.alloc, self.me, arp)?;
        answer(self.alloc, &mut self.joined, heard.answer, out)?;
        release(&mut self.joined, heard.frames, arp.sha, out)
    }
}
