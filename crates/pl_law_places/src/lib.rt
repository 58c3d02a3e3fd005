//! Places in every run: what a switch knows of its own place and of its neighbours is true, and a message
//! or a frame comes over a link only as its evidence allows.
#![tactic(auto)]

pub use place_laws::{each_step_keeps_places_true, places_are_true_at_first};

mod place_laws;
