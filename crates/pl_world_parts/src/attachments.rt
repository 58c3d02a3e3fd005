ghost use Rattle.std.specs.Prelude.{◌≡◌, ℕ, ◌^◌, ◌<◌, AllPairs, true, if◌then◌else◌, length, map, option_map, slice_get, slice_set, IfOk, IfSome, None, OnErr, OnOk, Some};
ghost use Rattle.std.specs.List.{position};
ghost use Rattle.std.specs.Map.{lookup};
ghost use Rattle.pl_wiring.specs.Plan.{IsAttachedAt};
ghost use Rattle.pl_world.specs.declared.attachment.AttachmentPoint.{AttachmentPoint};
ghost use Rattle.pl_world.specs.Booting.{first_attachment};
ghost use Rattle.pl_world.specs.Changes.{stands_at};
ghost use Rattle.pl_world_parts.specs.Attachments.{same_attachment};

use indexmap::IndexMap;
use pl_frame::Memory;
use pl_wiring::{Host, HostNo, SwitchNo};
use pl_world::AttachmentPoint;
use std::alloc::Global;
use std::marker::Model;

/// Where each host stands, and which host stands at each port. Contracts see the list of where they
/// stand, in the order of the wiring.
#[derive(Debug, Drop)]
pub struct Attachments {
    attachments: Vec<AttachmentPoint>,
    by_port: IndexMap<AttachmentPoint, HostNo>,
}

impl Model for Attachments {
    ghost use Rattle.std.specs.Prelude.{List};
    ghost use Rattle.pl_world.specs.declared.attachment.AttachmentPoint.{AttachmentPoint};
    ghost use Rattle.pl_world_parts.specs.Attachments.{TellsWhoIsAttached};

    ghost Value = { List AttachmentPoint };

    ghost view = { λ attachments. attachments.attachments.items };

    ghost invariant = { λ attachments. TellsWhoIsAttached attachments.attachments.items attachments.by_port.entries };
}

impl Attachments {
    /// Where the wiring has its hosts.
    pub fn first(alloc: Global, hosts: &[Host]) -> Result<Attachments, Memory>
        requires few { length hosts.now < 2 ^ 32 }
        requires apart { AllPairs (λ g h. ¬ IsAttachedAt g h.edge.0 h.port) hosts.now }
        ensures { IfOk result (λ attachments. attachments ≡ map first_attachment hosts.now) }
    {
        let mut attachments = Vec::new(alloc);
        let mut by_port = IndexMap::new(alloc);
        for n in 0..hosts.len() {
            let attachment = first_attachment(&hosts[n]);
            place(&mut by_port, attachment, HostNo(n as u32))?;
            attachments.push(attachment)?;
        }
        Ok(Attachments {
            attachments,
            by_port,
        })
    }

    pub fn attachment_of(&self, h: HostNo) -> AttachmentPoint
        requires { h.0 < length self.now }
        ensures { slice_get self.now h.0 ≡ Some result }
    {
        self.attachments[h.0 as usize]
    }

    /// The host that stands at a port; no other one stands there.
    pub fn host_at(&self, s: SwitchNo, port: u8) -> Option<HostNo>
        ensures is { option_map (λ h. h.0) result ≡ position (stands_at s.0 port) self.now }
        ensures within { IfSome result (λ h. h.0 < length self.now) }
        ensures alone { (n : ℕ) (attachment : AttachmentPoint) → slice_get self.now n ≡ Some attachment → stands_at s.0 port attachment ≡ true → option_map (λ h. h.0) result ≡ Some n }
    {
        self.by_port
            .get(&AttachmentPoint { edge: s, port })
            .copied()
    }

    /// A host leaves its port for one where no host stands.
    pub fn move_to(&mut self, h: HostNo, to: AttachmentPoint) -> Result<(), Memory>
        requires host { h.0 < length self.old }
        requires free { position (stands_at to.edge.0 to.port) self.old ≡ None }
        ensures ok { OnOk result (self.new ≡ slice_set self.old h.0 to) }
        ensures err { OnErr result (self.new ≡ self.old) }
    {
        let from = self.attachments[h.0 as usize];
        place(&mut self.by_port, to, h)?;
        leave(&mut self.by_port, from);
        self.attachments[h.0 as usize] = to;
        Ok(())
    }
}

fn first_attachment(host: &Host) -> AttachmentPoint
    ensures { result ≡ first_attachment host.now }
{
    AttachmentPoint {
        edge: host.edge,
        port: host.port,
    }
}

// A host comes to a port.
fn place(
    by_port: &mut IndexMap<AttachmentPoint, HostNo>,
    to: AttachmentPoint,
    h: HostNo,
) -> Result<(), Memory>
    ensures ok { OnOk result ((at : AttachmentPoint) → lookup (same_attachment at) by_port.new.entries
        ≡ (if same_attachment to at then Some h else lookup (same_attachment at) by_port.old.entries)) }
    ensures err { OnErr result (by_port.new.entries ≡ by_port.old.entries) }
{
    by_port.insert(to, h)?;
    Ok(())
}

// The host at a port goes away.
fn leave(by_port: &mut IndexMap<AttachmentPoint, HostNo>, from: AttachmentPoint)
    ensures { (at : AttachmentPoint) → lookup (same_attachment at) by_port.new.entries
        ≡ (if same_attachment from at then None else lookup (same_attachment at) by_port.old.entries) }
{
    by_port.swap_remove(&from);
}
