//! What the program `portland_watch` does: its words, what it reads, and the log that it writes.
#![tactic(auto)]

pub use watching::watch;

mod look;
mod watching;
mod words;
