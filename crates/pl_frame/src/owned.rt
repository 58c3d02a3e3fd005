ghost use Rattle.std.specs.Prelude.{◌≡◌, IfOk};

use crate::Memory;
use std::alloc::Global;
use std::marker::Model;

/// A frame that owns its bytes. Contracts see it as the list of them.
#[derive(Debug, Drop)]
pub struct Frame {
    bytes: Vec<u8>,
}

impl Model for Frame {
    ghost use Rattle.std.specs.Prelude.{List, ℕ};

    ghost Value = { List ℕ };

    ghost view = { λ frame. frame.bytes.items };
}

impl Frame {
    ghost use Rattle.std.specs.Borrow.{sem};
    ghost use Rattle.pl_frame.specs.Lending.{LendsBytes};

    pub fn copy(alloc: Global, bytes: &[u8]) -> Result<Frame, Memory>
        ensures { IfOk result (λ frame. frame ≡ bytes.now) }
    {
        Ok(Frame {
            bytes: Vec::from_slice(alloc, bytes)?,
        })
    }

    pub fn bytes(&self) -> &[u8]
        ensures { result.now ≡ self.now }
    {
        self.bytes.as_slice()
    }

    /// The same bytes for writing. Their number stays.
    pub fn bytes_mut(&mut self) -> &mut [u8]
        ensures* writes_back { sem 𝓛 (LendsBytes self.entry result) }
        ensures value { result.now ≡ self.old }
    {
        self.bytes.as_mut_slice()
    }
}
