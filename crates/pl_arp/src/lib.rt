//! ARP for Ethernet and IPv4 (RFC 826): the packet, and the table that reception keeps.
//!
//! `read` accepts exactly the payloads that begin with the 28 bytes of a packet, and `Cache::receive`
//! is the reception of RFC 826. Who asks, and when, is left to the crates above.
#![tactic(auto)]

pub use cache::{Cache, Me, a_pair_is_put_in};
pub use packet::{Arp, ArpError, LENGTH, REPLY, REQUEST, read, spelling_is_exact, write};

mod cache;
mod packet;
