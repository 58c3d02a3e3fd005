ghost use Rattle.std.specs.Prelude.{◌≡◌, ◌<◌, ℕ, Some, refl, length, slice_index};
ghost use Rattle.std.specs.Cmp.{eq_by_cmp_equiv, partial_equiv_from_equiv, partial_order_from_agreeing_total};
ghost use Rattle.std.specs.Ordering.{eq_by_cmp};
ghost use Rattle.pl_layouts.specs.Frames.{mac_number};
ghost use Rattle.pl_members.specs.Ranking.{member_cmp_total};
ghost use Rattle.pl_members.specs.Reached.{IsMac};
ghost use Rattle.pl_switch_rule.specs.Intake.{is_member, member_cmp};

use byteorder::{BigEndian, ByteOrder};
use pl_frame::Mac;
use pl_node::Member;
use std::cmp::Ordering;
use std::marker::Model;

/// A membership, in the order by group, port and address, with the number by which the address is compared.
/// Contracts see the membership.
#[derive(Debug, Drop)]
pub struct RankedMember {
    member: Member,
    number: u64,
}

impl Model for RankedMember {
    ghost use Rattle.std.specs.Prelude.{◌≡◌};
    ghost use Rattle.pl_node.specs.declared.switch_records.Member.{Member};
    ghost use Rattle.pl_layouts.specs.Frames.{mac_number};

    ghost Value = { Member };

    ghost view = { λ ranked. ranked.member };

    ghost invariant = { λ ranked. ranked.number ≡ mac_number ranked.member.amac };
}

impl RankedMember {
    pub fn new(member: Member) -> RankedMember
        ensures member { result ≡ member }
        ensures amac { IsMac member.amac }
    {
        let number = number(member.amac);
        RankedMember { member, number }
    }

    pub fn group(&self) -> u32
        ensures { result ≡ self.now.group }
    {
        self.member.group
    }

    pub fn port(&self) -> u8
        ensures { result ≡ self.now.port }
    {
        self.member.port
    }

    /// Whether it is of the host with this address at this port.
    pub fn is_of(&self, port: u8, amac: Mac) -> bool
        ensures { result ≡ is_member port amac self.now }
    {
        self.member.port == port && self.member.amac == amac
    }
}

impl PartialEq for RankedMember {
    ghost eq = { eq_by_cmp member_cmp };

    ghost laws = { partial_equiv_from_equiv (eq_by_cmp_equiv member_cmp_total) };

    fn eq(&self, other: &RankedMember) -> bool {
        self.cmp(other).is_eq()
    }
}

impl Eq for RankedMember {
    ghost laws = { eq_by_cmp_equiv member_cmp_total };
}

impl PartialOrd for RankedMember {
    ghost partial_cmp = { λ a b. Some (member_cmp a b) };

    ghost laws = { partial_order_from_agreeing_total member_cmp member_cmp_total (λ a b. refl) (λ a b. refl) };

    fn partial_cmp(&self, other: &RankedMember) -> Option<Ordering> {
        Some(self.cmp(other))
    }
}

impl Ord for RankedMember {
    ghost cmp = { member_cmp };

    ghost total = { member_cmp_total };

    ghost matches_partial_cmp = { λ a b. refl };

    ghost matches_eq = { λ a b. refl };

    fn cmp(&self, other: &RankedMember) -> Ordering {
        let groups = self.member.group.cmp(&other.member.group);
        let ports = self.member.port.cmp(&other.member.port);
        groups.then(ports.then(self.number.cmp(&other.number)))
    }
}

// An address as a number of 48 bits.
fn number(mac: Mac) -> u64
    ensures number { result ≡ mac_number mac }
    ensures many { length mac.0 ≡ 6 }
    ensures bytes { (i : ℕ) → slice_index mac.0 i < 256 }
{
    let bytes: &[u8] = &mac.0;
    BigEndian::read_u48(bytes)
}
