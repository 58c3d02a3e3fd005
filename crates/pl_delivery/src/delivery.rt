ghost use Rattle.std.specs.Prelude.{◌≡◌, ◌≤◌, ◌∷◌, ◌++◌, [], length, None, OnOk, Some};
ghost use Rattle.pl_node.specs.declared.acts.Act.{Act};
ghost use Rattle.pl_layouts.specs.Frames.{arriving};
ghost use Rattle.pl_migrate.specs.AddressTables.{address_table_in};
ghost use Rattle.pl_steps.specs.Taken.{IsTakenByPart};
ghost use Rattle.pl_switch_rule.specs.Delivering.{delivers, destination};

use pl_frame::{Frame, Mac};
use pl_layouts::frames::arrive;
use pl_migrate::AddressTable;
use pl_node::{Act, Cause, Memory, Outbox};
use pl_pmac::Pmac;

/// A frame for an address of this edge switch leaves by the port of the host that has it, under that
/// host's actual address, in an ARP packet too. One for an address that was never granted, or is free, is
/// dropped.
/// Takes memory for the outbox alone.
pub fn deliver(address_table: &AddressTable, frame: Frame, out: &mut Outbox) -> Result<(), Memory>
    requires { 14 ≤ length frame }
    ensures { OnOk result (IsTakenByPart address_table_in (λ v. delivers v frame) address_table.now address_table.now out.old out.new) }
{
    let to = destination(frame.bytes());
    match address_table.held(to) {
        Some(grant) => pass_to_host(to.port, grant.amac, frame, out),
        None => out.push(Act::Drop(Cause::NoAddress)),
    }
}

// A frame leaves by the port of a host, under that host's actual address.
fn pass_to_host(port: u8, amac: Mac, mut frame: Frame, out: &mut Outbox) -> Result<(), Memory>
    requires { 14 ≤ length frame }
    ensures { OnOk result (out.new ≡ out.old ++ Act.Pass port (arriving frame None (Some amac)) ∷ []) }
{
    address_to_host(&mut frame, amac);
    out.push(Act::Pass(port, frame))
}

/// Writes the actual address of a host as the destination, in an ARP packet too.
pub(crate) fn address_to_host(frame: &mut Frame, amac: Mac)
    requires { 14 ≤ length frame.old }
    ensures { frame.new ≡ arriving frame.old None (Some amac) }
{
    arrive(frame.bytes_mut(), None, Some(amac));
}

/// The address that a frame is for.
pub(crate) fn destination(frame: &[u8]) -> Pmac
    requires { 14 ≤ length frame.now }
    ensures { result ≡ destination frame.now }
{
    pl_pmac::unpack(Mac::read_at(frame, 0))
}
