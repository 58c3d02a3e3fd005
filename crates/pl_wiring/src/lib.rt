//! The wiring of a fat tree.
//!
//! A `Wiring` is seen by contracts as a `Plan` (`specs/Plan.antt`): its k, its switches' ids in
//! label order, its links in link order and its hosts. The type keeps that these are the fat tree
//! of Al-Fares, Loukissas and Vahdat (SIGCOMM 2008), with each host at an edge port of its own.
//! `LinkStates` says which of its links are live. Files are read in the crate above.
#![tactic(auto)]

pub use host::{Host, HostNo};
pub use label::{Label, SwitchNo};
pub use label_text::switch_named;
pub use link::{Link, Peer};
pub use link_laws::{a_port_leads_to_the_other_end_of_its_link, two_switches_have_one_link};
pub use links::LinkStates;
pub use name::Name;
pub use order::{edges, half, label_at, switch_at, switches};
pub use path::Path;
pub use pl_frame::Memory;
pub use text::{dotted, six_bytes};
pub use wiring::Wiring;

mod host;
mod label;
mod label_text;
mod link;
mod link_laws;
mod links;
mod name;
mod order;
mod path;
mod tables;
pub mod text;
mod wiring;
