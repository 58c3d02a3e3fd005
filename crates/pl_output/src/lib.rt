//! What a run saves: the journal's text, the captures that hosts receive, and the summary; and what is
//! told of a wiring.
#![tactic(auto)]

pub use printing::Piece;
pub use saving::{Texts, print, save_all};
pub use wiring::wiring_line;

mod printing;
mod saving;
pub mod summary;
mod wiring;
