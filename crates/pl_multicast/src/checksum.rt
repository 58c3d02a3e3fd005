ghost use Rattle.std.specs.Prelude.{◌≡◌, ◌%◌, length};
ghost use Rattle.pl_layouts.specs.Checksum.{checksum_of, ones_plus};

use byteorder::{BigEndian, ByteOrder};

// Ones' complement addition.
#[tactic(auto, unfolding(pl_layouts::specs::Checksum::ones_plus))]
fn ones_plus(a: u16, b: u16) -> u16
    ensures { result ≡ ones_plus a b }
{
    let (sum, has_carry) = a.overflowing_add(b);
    if has_carry { sum + 1 } else { sum }
}

// The Internet checksum of an even number of bytes (RFC 1071).
pub(crate) fn checksum(bytes: &[u8]) -> u16
    requires { length bytes.now % 2 ≡ 0 }
    ensures { result ≡ checksum_of bytes.now }
{
    let mut sum = 0;
    let mut left = bytes;
    while left.len() >= 2 {
        sum = ones_plus(sum, BigEndian::read_u16(left));
        left = left.split_at(2).1;
    }
    !sum
}
