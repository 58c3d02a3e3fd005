ghost use Rattle.std.specs.Prelude.{◌≡◌, ◌↔◌, false, None};
ghost use Rattle.pl_layouts.specs.Memberships.{group_of, is_group};

use byteorder::{BigEndian, ByteOrder};
use pl_frame::Mac;

/// The number under which the frames of every group go that is not routed.
pub const FLOOD: u32 = 0x80_0000;

// The lowest number of a group that is routed. Groups below it are local to one network (224.0.0.0/24)
// or have the Ethernet address of one that is (RFC 1112, section 6.4).
pub(crate) const LOWEST_ROUTED: u32 = 256;

/// The group that a frame with this destination goes to. Of an address 01:00:5e with a zero bit behind
/// it the number is its low 23 bits, where that is 256 or more; every other group goes as `FLOOD`.
pub fn group_of(dst: Mac) -> Option<u32>
    ensures number { result ≡ group_of dst }
    ensures unicast { (result ≡ None) ↔ (is_group dst ≡ false) }
{
    if !dst.is_group() {
        return None;
    }
    let [0x01, 0x00, 0x5e, 0..=0x7f, ..] = dst.0 else {
        return Some(FLOOD);
    };
    let number = BigEndian::read_u24(&dst.0[3..]);
    Some(if number < LOWEST_ROUTED {
        FLOOD
    } else {
        number
    })
}
