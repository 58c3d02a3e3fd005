//! Where each frame is on its way, and that the journal of a world is a run of one lossy switch with good
//! trails: kept by each step of the fabric, whichever candidate ports its switches choose.
#![tactic(auto)]

pub use flight_laws::{each_step_keeps_the_journal_true, the_journal_says_what_is_so_at_first};

mod flight_laws;
