ghost use Rattle.std.specs.Prelude.{◌≡◌, ◌≤◌, length, IfOk};
ghost use Rattle.pl_delivery.specs.Sending.{HasLength, IsSentBy};
ghost use Rattle.pl_frame.specs.Ethernet.{with_destination};
ghost use Rattle.pl_pmac.specs.Pmac.{mac_of};
ghost use Rattle.pl_switch_rule.specs.Delivering.{comes_home, goes_on, is_trapped, makes};

use crate::Sent;
use crate::delivery::{deliver, destination};
use pl_frame::{Frame, set_destination};
use pl_migrate::{AddressTable, Trap};
use pl_node::{Act, Memory, Outbox};
use pl_pmac::{Pmac, pack};
use std::alloc::Global;

/// A frame for this pod and position goes out to the host that has its address. Where a trap stands for
/// that address, the frame goes on along the traps, under the address of the last: here, or upward.
pub fn egress(address_table: &AddressTable, frame: Frame, out: &mut Outbox) -> Result<Sent, Memory>
    requires { 14 ≤ length frame }
    ensures taken { IfOk result (IsSentBy (λ choose v. comes_home choose v frame) address_table.now out.old out.new) }
    ensures length { IfOk result (HasLength (length frame)) }
{
    match address_table.follow(destination(frame.bytes())) {
        Some(trap) => redirect(address_table, trap, frame, out),
        None => {
            deliver(address_table, frame, out)?;
            Ok(Sent::Here)
        }
    }
}

/// A frame that is made begins here. It goes home as every frame for an address of this edge switch,
/// or upward.
pub fn begin(
    address_table: &AddressTable,
    alloc: Global,
    frame: Frame,
    out: &mut Outbox,
) -> Result<Sent, Memory>
    requires { 14 ≤ length frame }
    ensures taken { IfOk result (IsSentBy (λ choose v. makes choose frame v) address_table.now out.old out.new) }
    ensures length { IfOk result (HasLength (length frame)) }
{
    out.push(Act::Make(Frame::copy(alloc, frame.bytes())?))?;
    if address_table.is_local(destination(frame.bytes())) {
        egress(address_table, frame, out)
    } else {
        Ok(Sent::Upward(frame))
    }
}

// A frame meets the trap of its address.
fn redirect(
    address_table: &AddressTable,
    trap: Trap,
    mut frame: Frame,
    out: &mut Outbox,
) -> Result<Sent, Memory>
    requires { 14 ≤ length frame }
    ensures taken { IfOk result (IsSentBy (λ choose v. is_trapped choose v frame trap) address_table.now out.old out.new) }
    ensures length { IfOk result (HasLength (length frame)) }
{
    let old = destination(frame.bytes());
    let last = address_table.redirect(old, trap, out)?;
    readdress(&mut frame, last.new);
    go_on(address_table, frame, out)
}

// Writes a newer address as the destination. The target of an ARP packet stays.
fn readdress(frame: &mut Frame, to: Pmac)
    requires { 14 ≤ length frame.old }
    ensures frame { frame.new ≡ with_destination frame.old (mac_of to) }
    ensures length { length frame.new ≡ length frame.old }
{
    set_destination(frame.bytes_mut(), pack(to));
}

// A frame goes on under a newer address.
fn go_on(address_table: &AddressTable, frame: Frame, out: &mut Outbox) -> Result<Sent, Memory>
    requires { 14 ≤ length frame }
    ensures taken { IfOk result (IsSentBy (λ choose v. goes_on choose v frame) address_table.now out.old out.new) }
    ensures length { IfOk result (HasLength (length frame)) }
{
    if address_table.is_local(destination(frame.bytes())) {
        deliver(address_table, frame, out)?;
        Ok(Sent::Here)
    } else {
        Ok(Sent::Upward(frame))
    }
}
