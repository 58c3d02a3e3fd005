ghost use Rattle.std.specs.Prelude.{◌≡◌, ◌∷◌, ◌++◌, [], IfOk, None, Ok, OnOk, Some};
ghost use Rattle.pl_node.specs.declared.acts.Act.{Act};
ghost use Rattle.pl_node.specs.SwitchViews.{SwitchView};
ghost use Rattle.pl_migrate.specs.AddressTables.{address_table_in, held_in, traps};
ghost use Rattle.pl_migrate.specs.Keeping.{IsCaughtUp, KeepsGrants};
ghost use Rattle.pl_steps.specs.Taken.{IsTaken};
ghost use Rattle.pl_switch_rule.specs.Messages.{probe_frame, probes, probes_at};

use crate::delivery::address_to_host;
use pl_arp::{Arp, REQUEST};
use pl_frame::{Frame, Ip4, Mac};
use pl_layouts::frames::{ARP_FRAME, arp_frame};
use pl_migrate::{AddressTable, Grant, Trap};
use pl_node::{Act, Memory, Outbox};
use pl_pmac::{Pmac, pack};
use std::alloc::Global;

/// A host has a newer address than this one: a trap is set. The answer is what was granted under the old
/// address, as it stood before; none where it was never granted here, or is free. Of that grant the
/// memberships are to be forgotten, and then it is probed.
pub fn invalidate(
    address_table: &mut AddressTable,
    old: Pmac,
    to: Trap,
) -> Result<Option<Grant>, Memory>
    ensures answer { IfOk result (λ grant. grant ≡ held_in address_table.old old) }
    ensures step { OnOk result ((v : SwitchView) → address_table_in address_table.new v ≡ traps (address_table_in address_table.old v) old to (held_in address_table.old old)) }
    ensures caught_up { IsCaughtUp address_table.old → IsCaughtUp address_table.new }
    ensures kept { KeepsGrants address_table.old address_table.new }
{
    let grant = address_table.held(old);
    address_table.trap(old, to)?;
    Ok(grant)
}

/// A host that may still stand at an old address is asked for its own IPv4 address. It is not asked where
/// the address was not in use, or where its IPv4 address is not known.
pub fn probe(alloc: Global, old: Pmac, grant: &Grant, out: &mut Outbox) -> Result<(), Memory>
    ensures { OnOk result ((v : SwitchView) → IsTaken (probes old grant.now v) v out.old out.new) }
{
    match grant.ip {
        Some(ip) if grant.held.is_in_use() => send_probe(alloc, old, grant.amac, ip, out),
        _ => Ok(()),
    }
}

fn send_probe(alloc: Global, old: Pmac, amac: Mac, ip: Ip4, out: &mut Outbox) -> Result<(), Memory>
    ensures { OnOk result ((v : SwitchView) → IsTaken (probes_at old amac (Some ip) v) v out.old out.new) }
{
    let probe = probe_frame(old, ip);
    out.push(Act::Make(Frame::copy(alloc, &probe)?))?;
    let mut frame = Frame::copy(alloc, &probe)?;
    address_to_host(&mut frame, amac);
    out.push(Act::Pass(old.port, frame))
}

// The request to a host that may still stand at an old address, in the name of no host.
fn probe_frame(old: Pmac, ip: Ip4) -> [u8; ARP_FRAME]
    ensures { result ≡ probe_frame old ip }
{
    let arp = Arp {
        op: REQUEST,
        sha: pack(Pmac { vmid: 0, ..old }),
        spa: Ip4(0),
        tha: Mac([0; 6]),
        tpa: ip,
    };
    arp_frame(pack(old), &arp)
}
