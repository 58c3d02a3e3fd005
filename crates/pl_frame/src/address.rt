ghost use Rattle.std.specs.Prelude.{◌≡◌, ◌+◌, ◌≤◌, ◌↔◌, length, nat_eq, IsTrue, Some};
ghost use Rattle.pl_frame.specs.Address.{IsGroup, hex_pair, mac_at, mac_text, ip4_text};
ghost use Rattle.std.proofs.Common.{rules};
ghost use Rattle.std.specs.Cmp.Rules.{comparing};
ghost use Rattle.std.specs.Cmp.Lexicographic.{pointwise};
ghost use Rattle.std.specs.Ordering.{on};

use std::fmt;

/// A 48-bit MAC address (IEEE 802), its bytes in the order of transmission.
#[derive(Clone, Copy, Debug, Eq, PartialOrd, Ord, Hash)]
pub struct Mac(pub [u8; 6]);

impl Mac {
    pub const BROADCAST: Mac = Mac([0xff; 6]);

    /// The address in the six bytes from a place on.
    pub fn read_at(bytes: &[u8], at: usize) -> Mac
        requires { at + 6 ≤ length bytes.now }
        ensures { result ≡ mac_at bytes.now at }
    {
        let mut address = [0; 6];
        address.copy_from_slice(&bytes[at..at + 6]);
        Mac(address)
    }

    /// Whether the address names a group: the low bit of its first byte is set.
    pub fn is_group(&self) -> bool
        ensures { IsTrue result ↔ IsGroup self.now }
    {
        self.0[0] % 2 == 1
    }
}

/// All six bytes at once: a derived comparison goes byte by byte.
impl PartialEq for Mac {
    ghost eq = { on (λ mac. mac.0) (pointwise nat_eq) };

    ghost laws = { Prim.search (comparing, rules) };

    fn eq(&self, other: &Self) -> bool {
        let [a0, a1, a2, a3, a4, a5] = self.0;
        let [b0, b1, b2, b3, b4, b5] = other.0;
        a0 == b0 && a1 == b1 && a2 == b2 && a3 == b3 && a4 == b4 && a5 == b5
    }
}

/// Six two-digit lower-case hexadecimal numbers joined by colons.
impl fmt::Display for Mac {
    ghost output = { λ mac. Some (mac_text mac) };

    fn fmt<W: fmt::Write>(&self, f: &mut fmt::Formatter<W>) -> fmt::Result {
        let [b0, b1, b2, b3, b4, b5] = self.0.map(HexPair);
        write!(f, "{b0}:{b1}:{b2}:{b3}:{b4}:{b5}")
    }
}

// A byte as two hexadecimal digits.
#[derive(Clone, Copy)]
struct HexPair(u8);

impl fmt::Display for HexPair {
    ghost output = { λ pair. Some (hex_pair pair.0) };

    fn fmt<W: fmt::Write>(&self, f: &mut fmt::Formatter<W>) -> fmt::Result {
        let byte = self.0;
        write!(f, "{byte:02x}")
    }
}

/// An IPv4 address, its first byte the most significant.
#[derive(Clone, Copy, Debug, PartialEq, Eq, PartialOrd, Ord, Hash)]
pub struct Ip4(pub u32);

/// Dotted decimal, as 10.0.0.1.
impl fmt::Display for Ip4 {
    ghost output = { λ ip. Some (ip4_text ip) };

    fn fmt<W: fmt::Write>(&self, f: &mut fmt::Formatter<W>) -> fmt::Result {
        let [b0, b1, b2, b3] = self.0.to_be_bytes();
        write!(f, "{b0}.{b1}.{b2}.{b3}")
    }
}

/// The number that a switch knows itself by, 1 to 2^48 - 1.
#[derive(Clone, Copy, Debug, PartialEq, Eq, PartialOrd, Ord, Hash)]
pub struct SwitchId(pub u64);
