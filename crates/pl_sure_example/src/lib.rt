//! A worked run that computes, from the beginning of a fabric on, in which a frame is sure from its sending to
//! its arrival.
#![tactic(auto)]

pub use worked_run::a_frame_is_sure_until_it_arrives;

mod worked_run;
