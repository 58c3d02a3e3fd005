//! Captures in the pcapng format, of Ethernet frames.
//!
//! A file is a list of whole blocks and a tail: the bytes behind the last whole block, which are
//! accepted, since a capture may be cut off at any byte. A section header begins a section, with a
//! byte order of its own and no interface yet; interface descriptions add interfaces to it, numbered
//! from 0; enhanced and simple packets have the frames. Blocks of every other type are passed over,
//! the obsolete packet block among them, and so are packets of an interface that is no Ethernet.
//! The format is that of the Internet draft draft-ietf-opsawg-pcapng, version 1.
//!
//! It is proved that walking a file with [`Sections`] gives the records that the format has there,
//! each with its offsets and lengths, in order, or the first refusal. `specs/Standing.antt` is a
//! table of what stands at an offset of a file in a section, a row for each kind of block and each
//! refusal; in `specs/Sections.antt`, `IsSections` and `IsRefused` are the grammar of files, and
//! `reading_of` says the same as a function of a file's bytes. [`one_at_each_position`] and
//! [`one_reading`] tie them.
//!
//! Options, minor versions, section lengths, reserved fields and time stamps are not read. Files are
//! read by the caller, no frame is copied, and the only memory that is taken is the list of the
//! present section's interfaces.
#![tactic(auto)]

mod block;
mod error;
mod kind;
mod laws;
mod packets;
mod sections;

pub use error::BlockError;
pub use laws::{one_at_each_position, one_reading, records_are_within};
pub use sections::{Memory, Sections, is_pcapng};
