//! Captures in the classic libpcap file format, version 2.4, of Ethernet frames.
//!
//! A capture is a file header, whole records one after the other, and a tail: the bytes behind the
//! last whole record, which are accepted whatever they are, since a capture may be cut off at any
//! byte. A file too short for a header is all tail. Files of either byte order are read, with time
//! stamps of microseconds or of nanoseconds. The format is that of pcap-savefile(5).
//!
//! It is proved that walking a file with [`Records`] gives the records that the format has there,
//! each with its offsets and lengths, in order and without a gap, or the first refusal, and that a
//! file made of [`write_header`], and of [`write_record_head`] before each frame, is read as those
//! frames. In `specs/Capture.antt`, `IsCapture` and `IsRefused` are the grammar of files, and
//! `reading_of` says the same as a function of a file's bytes; [`one_reading`] ties them.
//!
//! Time stamps, zone, accuracy and snapshot length are not read. Files are read and saved by the
//! caller, and what a frame means is left to it.
#![tactic(auto)]

mod endianness;
mod error;
mod header;
mod laws;
mod records;
mod writing;

pub use endianness::Endianness;
pub use error::CaptureError;
pub use laws::{one_at_each_offset, one_reading, records_are_within, written_is_read};
pub use records::{Captured, Records};
pub use writing::{write_header, write_record_head};
