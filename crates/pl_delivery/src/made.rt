ghost use Rattle.std.specs.Prelude.{◌≡◌, ◌≤◌, length, option_map, IfOk, IfSome};
ghost use Rattle.pl_node.specs.SwitchViews.{SwitchView};
ghost use Rattle.pl_delivery.specs.Replies.{last_from, reply_to};
ghost use Rattle.pl_delivery.specs.Sending.{makes_any};
ghost use Rattle.pl_migrate.specs.AddressTables.{address_table_in, trap_in};
ghost use Rattle.pl_switch_rule.specs.Delivering.{destination, newer_address, tells_sender, trap_for};
ghost use Rattle.pl_switch_rule.specs.Forwarding.{Choice};
ghost use Rattle.pl_switch_rule.specs.Messages.{answer_frame, flood_frame};

use crate::delivery::destination;
use pl_arp::{Arp, REPLY, REQUEST};
use pl_frame::{Frame, Ip4, Mac};
use pl_layouts::frames::{arp_frame, is_arp};
use pl_migrate::{AddressTable, Trap};
use pl_node::Memory;
use pl_pmac::{Pmac, pack};
use std::alloc::Global;

/// The reply that tells the sender of a frame the newer address of the host, that of the last trap: to be
/// made behind what `egress` does with the frame. None where no trap stands for the frame's address, where
/// the IPv4 address of the host is not known, or where the frame is an ARP frame.
pub fn reply(
    address_table: &AddressTable,
    alloc: Global,
    frame: &[u8],
) -> Result<Option<Frame>, Memory>
    requires { 14 ≤ length frame.now }
    ensures reply { IfOk result (λ reply. (v : SwitchView) → reply ≡ reply_to frame.now (last_from (address_table_in address_table.now v) (trap_in address_table.now (destination frame.now)))) }
    ensures tells { IfOk result (λ reply. (choose : Choice) (v : SwitchView) → makes_any choose reply (address_table_in address_table.now v) ≡ tells_sender choose frame.now (trap_for (address_table_in address_table.now v) (destination frame.now)) (address_table_in address_table.now v)) }
    ensures length { IfOk result (λ reply. IfSome reply (λ frame. length frame ≡ 42)) }
{
    if is_arp(frame) {
        return Ok(None);
    }
    match address_table.follow(destination(frame)) {
        Some(trap) => newer_address(alloc, frame, address_table.last_trap(trap)),
        None => Ok(None),
    }
}

/// The ARP reply to a host here that asked: the address that the manager answered has the IPv4 address.
pub fn answer(
    alloc: Global,
    asker: Pmac,
    asker_ip: Ip4,
    ip: Ip4,
    pmac: Pmac,
) -> Result<Frame, Memory>
    ensures frame { IfOk result (λ frame. frame ≡ answer_frame asker asker_ip ip pmac) }
    ensures length { IfOk result (λ frame. length frame ≡ 42) }
{
    let arp = Arp {
        op: REPLY,
        sha: pack(pmac),
        spa: ip,
        tha: pack(asker),
        tpa: asker_ip,
    };
    Frame::copy(alloc, &arp_frame(arp.tha, &arp))
}

/// The ARP request to all hosts, in the name of a host here that asked.
pub fn flood(alloc: Global, asker: Pmac, asker_ip: Ip4, ip: Ip4) -> Result<Frame, Memory>
    ensures frame { IfOk result (λ frame. frame ≡ flood_frame asker asker_ip ip) }
    ensures length { IfOk result (λ frame. length frame ≡ 42) }
{
    let arp = Arp {
        op: REQUEST,
        sha: pack(asker),
        spa: asker_ip,
        tha: Mac([0; 6]),
        tpa: ip,
    };
    Frame::copy(alloc, &arp_frame(Mac::BROADCAST, &arp))
}

// That reply, with the newer address that the last trap names.
fn newer_address(alloc: Global, frame: &[u8], last: Trap) -> Result<Option<Frame>, Memory>
    requires { 14 ≤ length frame.now }
    ensures reply { IfOk result (λ reply. reply ≡ option_map (newer_address frame.now last.new) last.ip) }
    ensures length { IfOk result (λ reply. IfSome reply (λ frame. length frame ≡ 42)) }
{
    match last.ip {
        Some(ip) => {
            let sender = Mac::read_at(frame, 6);
            let arp = Arp {
                op: REPLY,
                sha: pack(last.new),
                spa: ip,
                tha: sender,
                tpa: ip,
            };
            let reply = Frame::copy(alloc, &arp_frame(sender, &arp))?;
            Ok(Some(reply))
        }
        None => Ok(None),
    }
}
