ghost use Rattle.std.specs.Prelude.{◌≡◌, true, List, [], ◌∷◌, length, slice_range};
ghost use Rattle.pl_arp.specs.declared.cache.Me.{Me};
ghost use Rattle.pl_layouts.specs.declared.membership.Change.{Change};
ghost use Rattle.pl_layouts.specs.Memberships.{changes_in, is_routed_group};
ghost use Rattle.pl_layouts.specs.Checksum.{ones_sum};
ghost use Rattle.pl_layouts.specs.Reports.{receiver_of, group_mac, header_of, message_of_change, membership_frame};

use crate::Change;
use crate::checksum::checksum;
use crate::reading::{IGMP, LEAVE, REPORT};
use byteorder::{BigEndian, ByteOrder};
use pl_arp::Me;
use pl_frame::{Ip4, Mac, TYPE_IPV4};

// 224.0.0.2
const ALL_ROUTERS: Ip4 = Ip4(0xe000_0002);

// A header of six words with total length 32, one hop, protocol 2 and the router alert option (RFC 2113);
// the checksum and the addresses are still to be written.
const HEADER: [u8; 24] = [
    0x46, 0, 0, 32, 0, 0, 0, 0, 1, IGMP, 0, 0, 0, 0, 0, 0, 0, 0, 0, 0, 0x94, 4, 0, 0,
];

/// The frame by which a host joins or leaves a group: a report of version 2 to the group itself, or a
/// leave to all routers (RFC 2236, sections 3 and 6), in an IPv4 packet of one hop with the router
/// alert option. Both Internet checksums are written.
pub fn write_igmp(me: Me, change: Change) -> [u8; 46]
    ensures { result ≡ membership_frame me change }
{
    let to = receiver_of(change);
    let mut frame = [0; 46];
    let (dst, rest) = frame.split_at_mut(6);
    let (src, rest) = rest.split_at_mut(6);
    let (kind, rest) = rest.split_at_mut(2);
    let (header, message) = rest.split_at_mut(24);
    dst.copy_from_slice(&group_mac(to).0);
    src.copy_from_slice(&me.mac.0);
    BigEndian::write_u16(kind, TYPE_IPV4);
    header.copy_from_slice(&header_of(me.ip, to));
    message.copy_from_slice(&message_for(change));
    frame
}

// A report goes to its group, so that its members hear it too.
fn receiver_of(change: Change) -> Ip4
    ensures { result.0 ≡ receiver_of change }
{
    if change.join {
        change.group
    } else {
        ALL_ROUTERS
    }
}

// The Ethernet address of a group (RFC 1112, section 6.4).
fn group_mac(group: Ip4) -> Mac
    ensures { result ≡ group_mac group.0 }
{
    let mut address = [0x01, 0x00, 0x5e, 0, 0, 0];
    BigEndian::write_u24(&mut address[3..], group.0 & 0x7f_ffff);
    Mac(address)
}

// The IPv4 header before a message of 8 bytes.
#[tactic(auto, unfolding(pl_layouts::specs::Reports::header_of))]
fn header_of(src: Ip4, dst: Ip4) -> [u8; 24]
    ensures { result ≡ header_of src.0 dst.0 }
{
    let mut header = HEADER;
    BigEndian::write_u32(&mut header[12..], src.0);
    BigEndian::write_u32(&mut header[16..], dst.0);
    let sum = checksum(&header);
    BigEndian::write_u16(&mut header[10..], sum);
    header
}

// The message itself.
#[tactic(auto, unfolding(pl_layouts::specs::Reports::message_of_change))]
fn message_for(change: Change) -> [u8; 8]
    ensures { result ≡ message_of_change change }
{
    let kind = if change.join { REPORT } else { LEAVE };
    let mut message = [kind, 0, 0, 0, 0, 0, 0, 0];
    BigEndian::write_u32(&mut message[4..], change.group.0);
    let sum = checksum(&message);
    BigEndian::write_u16(&mut message[2..], sum);
    message
}

/// What is written for a routed group is read as that change, and both checksums are right: with its
/// checksum the ones' complement sum of each part is 0xffff (RFC 1071, section 1).
pub fn a_written_change_is_read()
    ensures read { (me : Me) (change : Change) → length me.mac.0 ≡ 6 → is_routed_group change.group.0 ≡ true →
        changes_in (membership_frame me change) ≡ change ∷ [] }
    ensures header_sum { (me : Me) (change : Change) → ones_sum (header_of me.ip.0 (receiver_of change)) ≡ 0xffff }
    ensures message_sum { (change : Change) → ones_sum (message_of_change change) ≡ 0xffff }
{}
