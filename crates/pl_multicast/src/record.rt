ghost use Rattle.std.specs.Prelude.{◌≡◌, ◌≤◌, length, drop, slice_index};
ghost use Rattle.std.specs.Option.{option_to_list};
ghost use Rattle.byteorder.specs.Endian.{big_number};
ghost use Rattle.pl_layouts.specs.Memberships.{change_if_routed, record_change};
ghost use Rattle.pl_multicast.specs.Records.{record_end};

use crate::Change;
use crate::group::LOWEST_ROUTED;
use byteorder::{BigEndian, ByteOrder};
use pl_frame::Ip4;

// A record's bytes before its sources.
const HEAD: usize = 8;

// The kinds of a record that speak of a whole group (RFC 3376, section 4.2.12).
const MODE_IS_EXCLUDE: u8 = 2;

const CHANGE_TO_INCLUDE: u8 = 3;

const CHANGE_TO_EXCLUDE: u8 = 4;

// The change of a group's membership, where the group is routed.
pub(crate) fn change_if_routed(group: Ip4, join: bool) -> Option<Change>
    ensures { option_to_list result ≡ change_if_routed group.0 join }
{
    let is_multicast = group.0 >> 28 == 0b1110;
    let number = group.0 & 0x7f_ffff;
    (is_multicast && number >= LOWEST_ROUTED).then_some(Change { group, join })
}

// The length of the group record at the front of some bytes, where it is whole.
pub(crate) fn record_end(bytes: &[u8]) -> Option<usize>
    ensures { result ≡ record_end bytes.now }
{
    if bytes.len() < HEAD {
        return None;
    }
    let sources = usize::from(BigEndian::read_u16(&bytes[2..]));
    let auxiliary_words = usize::from(bytes[1]);
    let end = HEAD + 4 * sources + 4 * auxiliary_words;
    (end <= bytes.len()).then_some(end)
}

// What the group record at the front of some bytes says.
pub(crate) fn record_change(bytes: &[u8]) -> Option<Change>
    requires { 8 ≤ length bytes.now }
    ensures { option_to_list result
        ≡ record_change (slice_index bytes.now 0) (big_number 2 (drop 2 bytes.now)) (big_number 4 (drop 4 bytes.now)) }
{
    let sources = BigEndian::read_u16(&bytes[2..]);
    let group = Ip4(BigEndian::read_u32(&bytes[4..]));
    match bytes[0] {
        MODE_IS_EXCLUDE | CHANGE_TO_EXCLUDE if sources == 0 => change_if_routed(group, true),
        CHANGE_TO_INCLUDE if sources == 0 => change_if_routed(group, false),
        _ => None,
    }
}
