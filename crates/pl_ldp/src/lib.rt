//! The control frames of the fabric: location discovery messages, proposals of a position and votes on
//! them (the protocol is that of PortLand, SIGCOMM 2009, section 3.4; the layout is the fabric's own).
//!
//! `read_control` accepts exactly the payloads that `write_control` writes, whatever bytes follow, and
//! names the first thing that is wrong with any other. What a switch makes of a message is left to the
//! crates above.
#![tactic(auto)]

pub use pl_layouts::{Control, ControlError, Ldm, Proposal, Vote};
pub use read::read_control;
pub use spelling::spelling_is_exact;
pub use write::write_control;

mod read;
mod spelling;
mod write;

// The first byte of a payload.
const VERSION: u8 = 1;

// The second byte of a payload.
const KIND_LDM: u8 = 1;

const KIND_PROPOSAL: u8 = 2;

const KIND_VOTE: u8 = 3;

// The bytes of a payload of each kind.
const LDM_LENGTH: usize = 19;

const PROPOSAL_LENGTH: usize = 13;

const VOTE_LENGTH: usize = 21;
