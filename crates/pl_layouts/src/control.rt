ghost use Rattle.std.specs.Prelude.{◌≡◌};
ghost use Rattle.pl_layouts.specs.Votes.{counts, gives_way};

use crate::Place;
use pl_frame::SwitchId;
use thiserror::Error;

/// What a switch tells a neighbour at a tick: its place, which way the neighbour lies (0 unknown, 1 up,
/// 2 down), and the id that it last heard at that port.
#[derive(Clone, Copy, Debug, PartialEq, Eq)]
pub struct Ldm {
    pub place: Place,
    pub direction: u8,
    pub echo: Option<SwitchId>,
}

/// An edge switch's proposal to take a position, by the number of its attempt.
#[derive(Clone, Copy, Debug, PartialEq, Eq)]
pub struct Proposal {
    pub attempt: u32,
    pub position: u8,
}

/// An aggregation switch's answer to a proposal. A refusal names the switch that holds the position,
/// and whether its position is fixed.
#[derive(Clone, Copy, Debug, PartialEq, Eq)]
pub struct Vote {
    pub attempt: u32,
    pub position: u8,
    pub granted: bool,
    pub holder: Option<SwitchId>,
    pub fixed: bool,
}

impl Vote {
    /// Whether the vote counts for a switch at this place that makes this attempt at this position: for an
    /// edge switch without a position, and on the present attempt and position alone.
    pub fn counts(&self, place: Place, attempt: u32, position: u8) -> bool
        ensures { result ≡ counts place attempt position self.now }
    {
        place.level == Some(0)
            && place.position.is_none()
            && self.attempt == attempt
            && self.position == position
    }

    /// Whether the proposer is to try the next position: the holder is fixed there, or has a smaller id.
    pub fn gives_way(&self, me: SwitchId) -> bool
        ensures { result ≡ gives_way me self.now }
    {
        match self.holder {
            Some(holder) => self.fixed || holder.0 < me.0,
            None => self.fixed,
        }
    }
}

/// What a control frame says, with the id of the switch that says it.
#[derive(Clone, Copy, Debug, PartialEq, Eq)]
pub enum Control {
    Ldm(SwitchId, Ldm),
    Proposal(SwitchId, Proposal),
    Vote(SwitchId, Vote),
}

/// Why a payload is none of a control frame.
#[derive(Clone, Copy, Debug, PartialEq, Eq, Error)]
pub enum ControlError {
    #[error("Cut")]
    Cut,
    #[error("BadVersion")]
    BadVersion,
    #[error("BadKind")]
    BadKind,
    #[error("BadField")]
    BadField,
}
