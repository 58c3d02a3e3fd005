//! What an edge switch does with the frames of its hosts: it learns their sources, takes what they say of
//! themselves, and sends the rest on under pseudo addresses (PortLand, SIGCOMM 2009, sections 3.2 to 3.4).
//!
//! An `EdgeTable` is the part of a switch that these rules speak of: the address table once the switch
//! is placed, the last source of each port before, and who joined which group. Each of its calls is what
//! the rules say of that part, whatever else the switch knows. Where frames leave, and what comes from
//! above, is left to the crates above.
#![tactic(auto)]

pub use edge_act::EdgeAct;
pub use edge_table::EdgeTable;
pub use pl_delivery::Sent;
pub use pl_node::Memory;

mod edge_act;
mod edge_table;
mod groups_before;
mod homing;
mod ingress;
mod membership;
mod reading;
