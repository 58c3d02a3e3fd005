ghost use Rattle.std.specs.Prelude.{◌≡◌, IfOk};
ghost use Rattle.pl_host_rule.specs.HostRule.{reply_frame, request_frame};
ghost use Rattle.pl_layouts.specs.Reports.{membership_frame};

use crate::carried::Carried;
use pl_arp::{Arp, Me, REQUEST};
use pl_frame::{Ip4, Mac, Memory};
use pl_layouts::Change;
use pl_layouts::frames::arp_frame;
use pl_multicast::write_igmp;
use std::alloc::Global;

/// The request by which a host asks all others who has an IPv4 address.
pub(crate) fn request(alloc: Global, me: Me, ip: Ip4) -> Result<Carried, Memory>
    ensures { IfOk result (λ frame. frame ≡ request_frame me ip) }
{
    let arp = Arp {
        op: REQUEST,
        sha: me.mac,
        spa: me.ip,
        tha: Mac([0; 6]),
        tpa: ip,
    };
    Carried::copy(alloc, &arp_frame(Mac::BROADCAST, &arp))
}

/// A reply in a frame to its target.
pub(crate) fn reply(alloc: Global, arp: &Arp) -> Result<Carried, Memory>
    ensures { IfOk result (λ frame. frame ≡ reply_frame arp.now) }
{
    Carried::copy(alloc, &arp_frame(arp.tha, arp))
}

/// The frame by which a host joins or leaves a group.
pub(crate) fn membership(alloc: Global, me: Me, change: Change) -> Result<Carried, Memory>
    ensures { IfOk result (λ frame. frame ≡ membership_frame me change) }
{
    Carried::copy(alloc, &write_igmp(me, change))
}
