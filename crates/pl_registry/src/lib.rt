//! What the fabric manager learns of addresses, each found in constant time, and of switches that want a
//! pod, of which there are few. Only the release of an address that has aged goes through all addresses.
//!
//! `Registry` has the pseudo addresses in the order in which they were first learnt, with where each leads
//! since its host has a newer one, the newest address of each host, and the host of each IPv4 address. An
//! address that has aged, and to which nothing leads any more, is forgotten. What reports alone tell of
//! addresses it has beside them, in the order in which it was told.
//! `Askers` has the switches that asked for the number of a pod, with what they were given. Which number that is
//! and what the manager makes of it is left to the crates above.
#![tactic(auto)]

pub use askers::Askers;
pub use registry::{Learning, Registry, Release, Replaced};

mod addresses;
mod askers;
mod owners;
mod registry;
mod reported_addresses;
