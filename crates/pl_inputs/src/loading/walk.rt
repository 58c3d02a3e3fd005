ghost use Rattle.std.specs.Prelude.{◌≡◌, ◌+◌, ◌≤◌, All, length, IfOk, IfErr, Ok};
ghost use Rattle.pl_inputs.specs.Readings.{reading_of};
ghost use Rattle.pl_inputs.specs.declared.fault.CaptureFault.TheVariants.{OfRecords};
ghost use Rattle.pl_inputs.specs.declared.loading.walk.WalkError.TheVariants as walk;
ghost use Rattle.pl_inputs.specs.Walks.{IsRefusedWalk, of_sections};

use crate::fault::CaptureFault;
use crate::loading::reader::Reader;
use pl_capture::{CaptureError, Captured};
use pl_pcapng::BlockError;
use std::alloc::{AllocError, AllocFailed, Global};

/// The records of a capture's file, and how many bytes stand behind them.
#[derive(Debug, Drop)]
pub(crate) struct Walk {
    pub records: Vec<Captured>,
    pub tail: u64,
}

/// Why a capture was not walked to its end.
#[derive(Clone, Copy, Debug, PartialEq, Eq)]
pub(crate) enum WalkError {
    Refused(CaptureFault),
    Memory,
}

impl From<CaptureError> for WalkError {
    ghost from_gives = { λ e x. x ≡ walk.Refused (OfRecords e) };

    fn from(e: CaptureError) -> WalkError {
        WalkError::Refused(CaptureFault::OfRecords(e))
    }
}

impl From<BlockError> for WalkError {
    ghost from_gives = { λ e x. x ≡ of_sections e };

    fn from(e: BlockError) -> WalkError {
        match e {
            BlockError::Memory => WalkError::Memory,
            _ => WalkError::Refused(CaptureFault::OfSections(e)),
        }
    }
}

impl From<AllocError> for WalkError {
    ghost from_gives = { λ _ e. e ≡ walk.Memory };

    fn from(_e: AllocError) -> WalkError {
        WalkError::Memory
    }
}

impl<T: Drop> From<AllocFailed<T>> for WalkError {
    ghost from_gives = { λ _ e. e ≡ walk.Memory };

    fn from(_e: AllocFailed<T>) -> WalkError {
        WalkError::Memory
    }
}

/// Reads all records of a capture's file.
pub(crate) fn read_records(alloc: Global, file: &[u8]) -> Result<Walk, WalkError>
    ensures ok { IfOk result (λ walk. reading_of file.now ≡ Ok (walk.records.items, walk.tail)) }
    ensures err { IfErr result (λ e. IsRefusedWalk file.now e) }
{
    let mut records = Vec::new(alloc);
    let mut reader = Reader::begin(alloc, file)?;
    while let Some(record) = reader.next(file)? {
        records.push(record)?;
    }
    let tail = reader.tail(file);
    Ok(Walk { records, tail })
}
