//! What the three kinds of node know, hear and do: a switch, the fabric manager and a host.
//!
//! Each has a view (what it knows), inputs (what comes) and acts (what it does); the traits
//! `SwitchLogic`, `ManagerLogic` and `HostLogic` say what a body of it is to meet, under whatever rule it
//! has, and what every such rule owes. The rules of this fabric stand in the crates above.
#![tactic(auto)]

pub use acts::{Act, HostAct, ManagerAct};
pub use address_use::AddressUse;
pub use avoid_bits::AvoidBits;
pub use avoid_list::AvoidList;
pub use avoid_row::AvoidRow;
pub use hidden::Hidden;
pub use host_logic::HostLogic;
pub use host_table::HostTable;
pub use manager_logic::ManagerLogic;
pub use messages::{ToManager, ToSwitch, TreePart};
pub use neighbour::{Neighbour, PortRecord};
pub use outbox::{HostOutbox, ManagerOutbox, Outbox};
pub use pl_frame::Memory;
pub use pl_journal::{Cause, Entry, Journal, Skip};
pub use pl_layouts::{Change, Control, ControlError, Ldm, Place, Proposal, Vote};
pub use pl_lists::{Items, PortSet, Queue, Rising};
pub use places::is_same_place;
pub use pod_given::PodGiven;
pub use reception::Reception;
pub use switch_lists::SwitchList;
pub use switch_logic::{SwitchFacts, SwitchLogic};
pub use switch_records::{Grant, Hold, Member, Source};
pub use trap::Trap;

mod acts;
mod address_use;
mod avoid_bits;
mod avoid_list;
mod avoid_row;
mod avoid_within;
mod hidden;
mod host_logic;
mod host_table;
mod manager_logic;
mod messages;
mod neighbour;
mod outbox;
mod places;
mod pod_given;
mod reception;
mod switch_lists;
mod switch_logic;
mod switch_records;
mod trap;
