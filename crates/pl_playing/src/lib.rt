//! What was read is played on a fabric of lawful switches, manager and hosts, or on learning bridges, and what came of it is saved or printed: the saved
//! texts are those of a world to which the script leads. To its hosts the fabric is one lossy switch; the frames of bridges keep to their tree.
//!
//! Which switches, manager and hosts these are, what is read and what is answered for it is left to the crate above.
#![tactic(auto)]

pub use printing::play_and_print;
pub use saving::{bridge_and_save, play_and_save};
pub use watched::{Watched, play_before};

mod on_bridges;
mod on_fabric;
mod played;
mod printing;
mod saving;
mod watched;
