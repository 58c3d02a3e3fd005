ghost use Rattle.std.specs.Prelude.{◌≡◌, ◌<◌, length, option_map, slice_get, IfSome, Some, OnErr, OnOk, true};
ghost use Rattle.pl_wiring.specs.Labels.{switch_count};
ghost use Rattle.pl_world.specs.Changes.{host_at, noted, out_of};
ghost use Rattle.pl_world.specs.Flying.{IsTreePort};
ghost use Rattle.pl_world.specs.Ready.{CanStep};
ghost use Rattle.pl_schedule.specs.Looks.{queue_len};
ghost use Rattle.pl_world.specs.Pending.{pending};
ghost use Rattle.pl_world.specs.Refusals.{has_port};
ghost use Rattle.pl_world.specs.Runs.{IsMark};

use crate::world::World;
use pl_frame::Memory;
use pl_journal::Entry;
use pl_node::{HostLogic, ManagerLogic, SwitchLogic};
use pl_wiring::{HostNo, SwitchNo};
use pl_world::{AttachmentPoint, QueueName};
use pl_world_parts::WiringIndex;

impl<S: SwitchLogic, M: ManagerLogic, H: HostLogic> World<S, M, H> {
    /// How many items wait in a queue; none exactly where the wiring has no such queue.
    pub fn queue_len(&self, name: QueueName) -> Option<usize>
        ensures { result ≡ queue_len self.now name }
    {
        match name {
            QueueName::FromHost(h) => self.len_from_host(h),
            QueueName::Port(s, port) => self.len_out(s, port),
            QueueName::ToManager(s) => self.len_to_manager(s),
            QueueName::FromManager(s) => self.len_from_manager(s),
        }
    }

    fn len_from_host(&self, h: HostNo) -> Option<usize>
        ensures { result ≡ queue_len self.now (QueueName.FromHost h) }
    {
        if self.has_host(h) {
            Some(self.from_hosts.len_at(h.0 as usize))
        } else {
            None
        }
    }

    fn len_out(&self, s: SwitchNo, port: u8) -> Option<usize>
        ensures { result ≡ queue_len self.now (QueueName.Port s port) }
    {
        if self.has_port(s, port) {
            Some(self.len_at_port(s, port))
        } else {
            None
        }
    }

    fn len_at_port(&self, s: SwitchNo, port: u8) -> usize
        requires { has_port self.now.plan s.0 port ≡ true }
        ensures { result ≡ length (out_of self.now s.0 port) }
    {
        self.switches.queue_len(s.0 as usize, port)
    }

    fn len_to_manager(&self, s: SwitchNo) -> Option<usize>
        ensures { result ≡ queue_len self.now (QueueName.ToManager s) }
    {
        if self.has_switch(s) {
            Some(self.to_manager.queues().len_at(s.0 as usize))
        } else {
            None
        }
    }

    fn len_from_manager(&self, s: SwitchNo) -> Option<usize>
        ensures { result ≡ queue_len self.now (QueueName.FromManager s) }
    {
        if self.has_switch(s) {
            Some(self.from_manager.queues().len_at(s.0 as usize))
        } else {
            None
        }
    }

    /// How many queued items stand against a settled fabric: control frames out of ports that their
    /// switch would not send there now, and the messages to and from the manager that no host's question
    /// brought about. The count is kept, and takes no search.
    pub fn pending(&self) -> u64
        ensures { result ≡ pending self.now }
    {
        self.switches.stale() + self.to_manager.counted() + self.from_manager.counted()
    }

    pub fn switch(&self, s: SwitchNo) -> &S
        requires { s.0 < switch_count self.now.plan.k }
        ensures { slice_get self.now.switches s.0 ≡ Some (S.view result.now) }
    {
        self.switches.device(s.0 as usize)
    }

    pub fn manager(&self) -> &M
        ensures { M.view result.now ≡ self.now.manager }
    {
        &self.manager
    }

    pub fn host(&self, h: HostNo) -> &H
        requires { h.0 < length self.now.plan.hosts }
        ensures { slice_get self.now.hosts h.0 ≡ Some (H.view result.now) }
    {
        &self.hosts[h.0 as usize]
    }

    /// The wiring, with its switches by their ids.
    pub fn wiring_index(&self) -> &WiringIndex
        ensures { result.now ≡ self.now.plan }
    {
        &self.wiring_index
    }

    /// Where a host stands; none exactly where the wiring has no such host.
    pub fn place_of_host(&self, h: HostNo) -> Option<AttachmentPoint>
        ensures is { result ≡ slice_get self.now.attachments h.0 }
        ensures at_port { IfSome result (λ at. IsTreePort self.now.plan.k at) }
    {
        // One for each host.
        let _ = &self.attachments;
        if self.has_host(h) {
            Some(self.attachment_of(h))
        } else {
            None
        }
    }

    /// The host that stands at a port.
    pub fn host_at(&self, s: SwitchNo, port: u8) -> Option<HostNo>
        ensures is { option_map (λ h. h.0) result ≡ host_at self.now s.0 port }
        ensures within { IfSome result (λ h. h.0 < length self.now.plan.hosts) }
    {
        self.attachments.host_at(s, port)
    }

    /// For how many ticks of its switch no frame of the host came there; none where it is not heard.
    pub fn heard(&self, h: HostNo) -> Option<u32>
        requires { h.0 < length self.now.plan.hosts }
        ensures { slice_get self.now.heard h.0 ≡ Some result }
    {
        self.heard[h.0 as usize]
    }

    /// Writes of a script what no step writes: one of its lines, or how a settling ended. After want of
    /// memory the world is as it was.
    pub fn mark(&mut self, entry: Entry) -> Result<(), Memory>
        requires { IsMark entry }
        ensures marked { OnOk result (self.new ≡ noted self.old entry) }
        ensures err { OnErr result (self.new ≡ self.old) }
        ensures orderly { OnOk result (CanStep self.old → CanStep self.new) }
    {
        self.note(entry)?;
        Ok(())
    }
}
