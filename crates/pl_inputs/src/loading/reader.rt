ghost use Rattle.std.specs.Prelude.{◌≡◌, ◌<◌, List, [], ◌∷◌, ◌++◌, IfOk, IfErr, IfSome, IfNone, Ok};
ghost use Rattle.pl_capture.specs.declared.records.Captured.{Captured};
ghost use Rattle.pl_inputs.specs.Reader.{HasRead, IsReaderIn, tail_of};
ghost use Rattle.pl_inputs.specs.Readings.{reading_of};
ghost use Rattle.pl_inputs.specs.Walks.{IsRefusedWalk};

use crate::loading::walk::WalkError;
use pl_capture::{Captured, Records};
use pl_pcapng::{Sections, is_pcapng};
use std::alloc::Global;

/// A reading cursor in a capture, which is a libpcap file or a pcapng file.
#[derive(Debug, Drop)]
pub(crate) enum Reader {
    Libpcap(Records),
    Pcapng(Sections),
}

impl Reader {
    /// The cursor before the first record.
    pub fn begin(alloc: Global, file: &[u8]) -> Result<Reader, WalkError>
        ensures ok { IfOk result (λ reader. HasRead file.now [] reader) }
        ensures err { IfErr result (λ e. IsRefusedWalk file.now e) }
    {
        if is_pcapng(file) {
            let sections = Sections::begin(alloc, file)?;
            return Ok(Reader::Pcapng(sections));
        }
        let records = Records::begin(file)?;
        Ok(Reader::Libpcap(records))
    }

    /// Reads the next record and moves behind it.
    pub fn next(&mut self, file: &[u8]) -> Result<Option<Captured>, WalkError>
        requires { IsReaderIn file.now self.old }
        ensures same_file { IsReaderIn file.now self.new }
        ensures found { (records : List Captured) → HasRead file.now records self.old →
            IfOk result (λ found.
            IfSome found (λ c. HasRead file.now (records ++ c ∷ []) self.new)) }
        ensures ended { (records : List Captured) → HasRead file.now records self.old →
            IfOk result (λ found.
            IfNone found (reading_of file.now ≡ Ok (records, tail_of file.now self.new))) }
        ensures refused { IfErr result (λ e. IsRefusedWalk file.now e) }
        ensures nearer { IfOk result (λ found.
            IfSome found (λ _. tail_of file.now self.new < tail_of file.now self.old)) }
    {
        match self {
            Reader::Libpcap(records) => Ok(records.next(file)?),
            Reader::Pcapng(sections) => Ok(sections.next(file)?),
        }
    }

    /// The number of bytes behind the last record that was read.
    pub fn tail(&self, file: &[u8]) -> u64
        requires { IsReaderIn file.now self.now }
        ensures { result ≡ tail_of file.now self.now }
    {
        match self {
            Reader::Libpcap(records) => records.tail(file),
            Reader::Pcapng(sections) => sections.tail(file),
        }
    }
}
