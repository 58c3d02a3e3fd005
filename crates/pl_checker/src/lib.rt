//! Whether an entry of a journal may follow those before it.
//!
//! `Past` holds the tables of pl_past_tables. `Past::may_follow` says just what the definitions of pl_journal
//! say of an entry and of all entries before it, and `Past::keep` puts the entry in: a function for each row
//! of the lossy switch. How a journal's text is read is left to the crates above.
#![tactic(auto)]

pub use past::Past;

mod arrival;
mod beginning;
mod checking;
mod crossing;
mod ending;
mod fabric;
mod granting;
mod past;
mod redirection;
