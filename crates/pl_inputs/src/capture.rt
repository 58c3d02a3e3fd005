ghost use Rattle.std.specs.Prelude.{◌≡◌, ◌+◌, ◌≤◌, All, length, Ok, []};
ghost use Rattle.pl_inputs.specs.Readings.{reading_of};

use pl_capture::Captured;
use std::alloc::Global;

/// A host's capture: the file, its records in order, and how many bytes stand behind them. A host
/// without a capture has no bytes.
#[derive(Debug, Drop)]
pub struct Capture {
    pub bytes: Vec<u8>,
    pub records: Vec<Captured>,
    pub tail: u64,
    ghost read: { reading_of bytes.items ≡ Ok (records.items, tail) },
    ghost within: { All (λ c. c.start + c.len ≤ length bytes.items) records.items },
}

impl Capture {
    /// The capture of a host that names none.
    #[tactic(auto, using(crate::proofs::Nothing::nothing_is_read))]
    pub fn none(alloc: Global) -> Capture
        ensures { result.bytes.items ≡ [] }
    {
        Capture {
            bytes: Vec::new(alloc),
            records: Vec::new(alloc),
            tail: 0,
        }
    }
}
