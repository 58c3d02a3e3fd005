use crate::{AvoidList, SwitchList};
use pl_frame::{Ip4, Mac, SwitchId};
use pl_layouts::Place;
use pl_pmac::Pmac;

/// What a switch tells the fabric manager.
#[derive(Clone, Copy, Debug, PartialEq, Eq)]
pub enum ToManager {
    /// Its place changed.
    Place(Place),
    /// Its link to a neighbour became usable, or ceased to be.
    Link {
        neighbour: SwitchId,
        usable: bool,
    },
    /// It has position 0, and asks for the number of its pod.
    PodWanted,
    /// It granted a pseudo address, or learnt the IPv4 address of one.
    Learned {
        pmac: Pmac,
        amac: Mac,
        ip: Option<Ip4>,
    },
    /// It uses an address no more, and sends frames for it nowhere else: behind a trap of this number, or 0
    /// where none stood.
    Aged {
        pmac: Pmac,
        number: u64,
    },
    /// A manager began anew, for the time of this number: what follows is all that it has to know of this switch.
    Begin(u32),
    /// That was all.
    End(u32),
    /// A trap of this number stands for an address, and leads to a newer one.
    Trapped {
        old: Pmac,
        new: Pmac,
        number: u64,
    },
    /// A host asks who has an IPv4 address.
    Query {
        asker: Pmac,
        asker_ip: Ip4,
        ip: Ip4,
    },
    /// Its members of a routed group became some, or none.
    Members {
        group: u32,
        any: bool,
    },
}

/// What the fabric manager tells a switch.
#[derive(Debug, Drop)]
pub enum ToSwitch {
    /// The number of its pod.
    Pod(u16),
    /// The pseudo address of the host that has the IPv4 address that was asked for.
    Answer {
        asker: Pmac,
        asker_ip: Ip4,
        ip: Ip4,
        pmac: Pmac,
    },
    /// Nobody is known to have it: all hosts are to be asked.
    Flood {
        asker: Pmac,
        asker_ip: Ip4,
        ip: Ip4,
    },
    /// Its avoid list, whole.
    Avoid(AvoidList),
    /// A host has a newer address than this one.
    Invalidate {
        old: Pmac,
        new: Pmac,
        number: u64,
        ip: Option<Ip4>,
    },
    /// An address that it told to have aged is nobody's from now on: no trap leads to it.
    Release(Pmac),
    /// The manager begins anew, for the time of this number, and knows nothing.
    Hello(u32),
    /// Its part of a group's tree; none where it has no part.
    Tree {
        group: u32,
        part: Option<TreePart>,
    },
}

/// What a switch knows of a group's tree: the neighbour above, if there is one, and those below.
#[derive(Debug, Drop)]
pub struct TreePart {
    pub up: Option<SwitchId>,
    pub down: SwitchList,
}
