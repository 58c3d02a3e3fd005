ghost use Rattle.std.specs.Prelude.{◌≡◌, Some};
ghost use Rattle.pl_pcapng.specs.BlockError.{offset_of};
ghost use Rattle.pl_inputs.specs.Status.{status_number, status_text, capture_reason_text, section_reason_text, section_place_text};
ghost use Rattle.pl_inputs.specs.declared.status.Status.TheVariants.{OutOfMemory};

use crate::StepReason;
use pl_capture::CaptureError;
use pl_pcapng::BlockError;
use pl_script::ScriptReason;
use pl_topology::TopologyError;
use pl_wiring::{HostNo, Name};
use std::alloc::{AllocError, AllocFailed};
use std::fmt;

/// What came of a call of the program.
#[derive(Debug, Drop)]
pub enum Status {
    /// All was saved.
    Done,
    /// The words are no command.
    Usage,
    /// This file could not be read.
    ReadFault(Name),
    BadTopology(TopologyError),
    /// The first line that is refused, counted from 1, and why.
    BadScript(u32, ScriptReason),
    /// The host, why its libpcap file is refused, and at which byte.
    BadCapture(HostNo, CaptureError, u64),
    /// This file could not be written.
    WriteFault(Name),
    /// The `expect` line that is false of the journal so far.
    ExpectFailed(u32),
    /// The line with a step that was refused, and why.
    Refused(u32, StepReason),
    /// This file is longer than what the program takes.
    TooLong(Name),
    /// The line with a step beyond the last that a run may have.
    StepsSpent(u32),
    /// The line with a step for which the journal has no room.
    JournalFull(u32),
    OutOfMemory,
    /// The first entry of a journal that may not follow those before it, counted from 1.
    NotLegal(u32),
    /// The first line of a journal that is no entry's, counted from 1.
    BadJournal(u32),
    /// The host, and why its pcapng file is refused.
    BadSection(HostNo, BlockError),
}

impl Status {
    /// The number with which the program ends.
    pub fn number(&self) -> u8
        ensures { result ≡ status_number self.now }
    {
        match self {
            Status::Done => 0,
            Status::Usage => 2,
            Status::ReadFault(_) => 3,
            Status::BadTopology(_) => 4,
            Status::BadScript(_, _) => 5,
            Status::BadCapture(_, _, _) => 6,
            Status::WriteFault(_) => 7,
            Status::ExpectFailed(_) => 8,
            Status::Refused(_, _) => 9,
            Status::TooLong(_) => 10,
            Status::StepsSpent(_) | Status::JournalFull(_) => 11,
            Status::OutOfMemory => 12,
            Status::NotLegal(_) => 13,
            Status::BadJournal(_) => 14,
            Status::BadSection(_, _) => 15,
        }
    }
}

impl From<AllocError> for Status {
    ghost from_gives = { λ _ status. status ≡ OutOfMemory };

    fn from(_e: AllocError) -> Status {
        Status::OutOfMemory
    }
}

impl<T: Drop> From<AllocFailed<T>> for Status {
    ghost from_gives = { λ _ status. status ≡ OutOfMemory };

    fn from(_e: AllocFailed<T>) -> Status {
        Status::OutOfMemory
    }
}

/// The line that tells of it, without a newline.
impl fmt::Display for Status {
    ghost output = { λ status. Some (status_text status) };

    fn fmt<W: fmt::Write>(&self, f: &mut fmt::Formatter<W>) -> fmt::Result {
        write!(f, "portland: ")?;
        match self {
            Status::Done => write!(f, "done"),
            Status::Usage => {
                write!(
                    f,
                    "usage: run --topology T --script S --captures DIR --out DIR, \
                     bridge --topology T --script S --captures DIR --out DIR, \
                     check --topology T, gen --k K --number N --frames F, \
                     verify --topology T --journal J"
                )
            }
            Status::ReadFault(name) => write!(f, "cannot read {name}"),
            Status::BadTopology(reason) => write!(f, "bad topology: {reason}"),
            Status::BadScript(line, reason) => write!(f, "bad script, line {line}: {reason}"),
            Status::BadCapture(HostNo(host), e, at) => {
                let reason = CaptureReason(*e);
                write!(
                    f,
                    "bad capture of host number {host} at byte {at}: {reason}"
                )
            }
            Status::WriteFault(name) => write!(f, "cannot write {name}"),
            Status::ExpectFailed(line) => write!(f, "expectation false, line {line}"),
            Status::Refused(line, reason) => write!(f, "refused, line {line}: {reason}"),
            Status::TooLong(name) => write!(f, "too long: {name}"),
            Status::StepsSpent(line) => write!(f, "steps spent, line {line}"),
            Status::JournalFull(line) => write!(f, "journal full, line {line}"),
            Status::OutOfMemory => write!(f, "out of memory"),
            Status::NotLegal(entry) => write!(f, "not legal, entry {entry}"),
            Status::BadJournal(line) => write!(f, "bad journal, line {line}"),
            Status::BadSection(HostNo(host), e) => {
                let place = SectionPlace(*e);
                let reason = SectionReason(*e);
                write!(f, "bad capture of host number {host}{place}: {reason}")
            }
        }
    }
}

// Prints as the refusal itself does, with a text that contracts can name.
#[derive(Clone, Copy)]
struct CaptureReason(CaptureError);

impl fmt::Display for CaptureReason {
    ghost output = { λ reason. Some (capture_reason_text reason.0) };

    fn fmt<W: fmt::Write>(&self, f: &mut fmt::Formatter<W>) -> fmt::Result {
        match self.0 {
            CaptureError::BadMagic => write!(f, "BadMagic"),
            CaptureError::BadVersion => write!(f, "BadVersion"),
            CaptureError::BadLink => write!(f, "BadLink"),
            CaptureError::BadRecord(at) => write!(f, "BadRecord {at}"),
        }
    }
}

// Which block is refused. Want of memory refuses none.
#[derive(Clone, Copy)]
struct SectionPlace(BlockError);

impl fmt::Display for SectionPlace {
    ghost output = { λ place. Some (section_place_text (offset_of place.0)) };

    fn fmt<W: fmt::Write>(&self, f: &mut fmt::Formatter<W>) -> fmt::Result {
        match self.0.offset() {
            Some(at) => write!(f, " at byte {at}"),
            None => Ok(()),
        }
    }
}

// The same as CaptureReason, of a pcapng file.
#[derive(Clone, Copy)]
struct SectionReason(BlockError);

impl fmt::Display for SectionReason {
    ghost output = { λ reason. Some (section_reason_text reason.0) };

    fn fmt<W: fmt::Write>(&self, f: &mut fmt::Formatter<W>) -> fmt::Result {
        match self.0 {
            BlockError::BadMagic(at) => write!(f, "BadMagic {at}"),
            BlockError::BadBlock(at) => write!(f, "BadBlock {at}"),
            BlockError::BadTrailer(at) => write!(f, "BadTrailer {at}"),
            BlockError::BadVersion(at) => write!(f, "BadVersion {at}"),
            BlockError::BadInterface(at) => write!(f, "BadInterface {at}"),
            BlockError::BadRecord(at) => write!(f, "BadRecord {at}"),
            BlockError::Memory => write!(f, "out of memory"),
        }
    }
}
