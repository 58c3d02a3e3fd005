ghost use Rattle.std.specs.Prelude.{◌≡◌, ◌-◌, ◌^◌, ◌<◌, [], length, slice_get, slice_index_or, OnSome};
ghost use Rattle.std.specs.Option.{option_map};
ghost use Rattle.pl_inputs.specs.Records.{records_of, recorded};

use crate::capture::Capture;
use pl_wiring::HostNo;

/// A record of a capture: the bytes that it has of a frame, and how many the frame had.
#[derive(Clone, Copy, Debug)]
pub struct RecordedFrame<'a> {
    pub frame: &'a [u8],
    pub original: u32,
}

/// The record of a host at an index, from 0.
pub fn record_at(captures: &[Capture], host: HostNo, n: u64) -> Option<RecordedFrame<'_>>
    ensures { option_map recorded result ≡ slice_get (slice_index_or (records_of captures.now) host.0 []) n }
{
    let capture = captures.get(host.0 as usize)?;
    let record = capture.records.get(n as usize)?;
    let start = record.start;
    Some(RecordedFrame {
        frame: &capture.bytes[start..start + record.len as usize],
        original: record.original,
    })
}

/// How many records a host has.
pub fn record_count(captures: &[Capture], host: HostNo) -> u64
    ensures { result ≡ length (slice_index_or (records_of captures.now) host.0 []) }
{
    match captures.get(host.0 as usize) {
        None => 0,
        Some(capture) => capture.records.len() as u64,
    }
}
