//! The tables in which a checker of journals keeps the past.
//!
//! Each says of the entries so far what the lossy switch asks of them: the frames in flight, the last words
//! on addresses, who held them when, where hosts stand, which links are live, and which groups are joined.
//! A look-up takes no longer for a longer past, but for `Holders::held_as_of`, which searches the tenures of
//! one address. Which entry may follow, and what it changes, is said in pl_checker.
#![tactic(auto)]

pub use addresses::{Addresses, Grant};
pub use frames::Frames;
pub use groups::Groups;
pub use holders::Holders;
pub use hosts::{Hosts, is_at};
pub use keys::{Point, fits, mac_number, number_of};
pub use leg::{Leg, Trail};
pub use links::{Links, is_adjacent};
pub use row::{Carried, Row, destination, source};

mod addresses;
mod frames;
mod groups;
mod holders;
mod hosts;
mod keys;
mod last;
mod leg;
mod links;
mod row;
