ghost use Rattle.std.specs.Prelude.{◌≡◌};
ghost use Rattle.pl_capture.specs.CaptureError.{offset_of};

use thiserror::Error;

/// Why a file is no capture: the first fault of the file.
#[derive(Clone, Copy, Debug, PartialEq, Eq, Error)]
pub enum CaptureError {
    /// The magic number is of no byte order and no time stamps that the format has.
    #[error("BadMagic")]
    BadMagic,
    /// The version is not 2.4.
    #[error("BadVersion")]
    BadVersion,
    /// The link type is not Ethernet in all 32 bits of its field.
    #[error("BadLink")]
    BadLink,
    /// The record whose head stands at this offset has a captured length above 262,144.
    #[error("BadRecord {0}")]
    BadRecord(u64),
}

impl CaptureError {
    /// The offset in the file of the field or record head that is refused.
    pub fn offset(self) -> u64
        ensures { result ≡ offset_of self }
    {
        match self {
            CaptureError::BadMagic => 0,
            CaptureError::BadVersion => 4,
            CaptureError::BadLink => 20,
            CaptureError::BadRecord(at) => at,
        }
    }
}
