ghost use Rattle.std.specs.Prelude.{◌≡◌, ◌+◌, ◌<◌, ◌≤◌, List, [], ◌∷◌, ◌++◌, length, IfOk, IfErr, IfSome, IfNone, Ok, Err};
ghost use Rattle.pl_capture.specs.declared.records.Captured.{Captured};
ghost use Rattle.pl_capture.specs.Record.{behind};
ghost use Rattle.pl_capture.specs.Capture.{reading_of};
ghost use Rattle.pl_capture.specs.Records.{begin_of, record_at, cursor_after, tail_of, HasReadRecords, IsCursorIn};

use crate::endianness::Endianness;
use crate::error::CaptureError;
use crate::header::{HEADER_LEN, read_header};

const HEAD_LEN: usize = 16;

/// The longest captured length that is read, which is the largest snapshot length of libpcap.
const LONGEST: u32 = 262_144;

/// A whole record of a capture file.
#[derive(Clone, Copy, Debug, PartialEq, Eq)]
pub struct Captured {
    /// The offset in the file of the record's head.
    pub at: u64,
    /// The offset in the file of the record's frame, which ends at `start + len`.
    pub start: usize,
    /// The captured length: how many bytes of the frame the file has.
    pub len: u32,
    /// The original length: how many bytes the frame had on its link.
    pub original: u32,
}

/// A reading cursor in a capture file. The file itself is handed in at each call, and has to be one
/// that the cursor stands in: that which [`Records::begin`] was given.
#[derive(Clone, Copy, Debug, PartialEq, Eq)]
pub struct Records {
    endianness: Option<Endianness>,
    at: usize,
}

impl Records {
    /// The cursor before the first record. A file below 24 bytes has no record, and is all tail.
    ///
    /// The header is refused as [`CaptureError::BadMagic`], then [`CaptureError::BadVersion`], then
    /// [`CaptureError::BadLink`].
    pub fn begin(file: &[u8]) -> Result<Records, CaptureError>
        ensures exact { result ≡ begin_of file.now }

        // No record was read yet, or the file has no reading.
        ensures ok { IfOk result (λ cursor. HasReadRecords file.now [] cursor) }
        ensures err { IfErr result (λ e. reading_of file.now ≡ Err e) }
    {
        let cursor = match read_header(file)? {
            Some(order) => Records {
                endianness: Some(order),
                at: HEADER_LEN,
            },
            None => Records {
                endianness: None,
                at: 0,
            },
        };
        Ok(cursor)
    }

    /// Reads the record at this cursor and moves behind it. None is answered exactly where no whole
    /// record follows, and [`CaptureError::BadRecord`] exactly where a whole head has a captured
    /// length above 262,144; the cursor then stays, so the next call answers the same again.
    pub fn next(&mut self, file: &[u8]) -> Result<Option<Captured>, CaptureError>
        requires { IsCursorIn file.now self.old }
        ensures exact { result ≡ record_at file.now self.old }
        ensures cursor { self.new ≡ cursor_after self.old result }
        ensures same_file { IsCursorIn file.now self.new }

        // The records that were read so far, and this one, are the first of the file.
        ensures found { (records : List Captured) → HasReadRecords file.now records self.old →
            IfOk result (λ found.
            IfSome found (λ c. HasReadRecords file.now (records ++ c ∷ []) self.new)) }

        // At the end they are all of it, and the bytes behind the last one are its tail.
        ensures ended { (records : List Captured) → HasReadRecords file.now records self.old →
            IfOk result (λ found.
            IfNone found (reading_of file.now ≡ Ok (records, tail_of file.now self.new))) }
        ensures refused { (records : List Captured) → HasReadRecords file.now records self.old →
            IfErr result (λ e. reading_of file.now ≡ Err e) }

        // A walk ends: each record leaves fewer bytes.
        ensures nearer { IfOk result (λ found.
            IfSome found (λ _. tail_of file.now self.new < tail_of file.now self.old)) }
    {
        let found = self.record(file)?;
        if let Some(captured) = &found {
            self.at = captured.start + captured.len as usize;
        }
        Ok(found)
    }

    /// The number of bytes behind the last record that was read, or behind the header where none
    /// was; of a file below 24 bytes its length.
    pub fn tail(&self, file: &[u8]) -> u64
        requires { IsCursorIn file.now self.now }
        ensures { result ≡ tail_of file.now self.now }
    {
        self.room(file) as u64
    }

    fn room(&self, file: &[u8]) -> usize
        requires { IsCursorIn file.now self.now }
        ensures { result + self.now.at ≡ length file.now }
    {
        file.len() - self.at
    }

    #[tactic(auto, unfolding(crate::specs::Record::record_in))]
    fn record(&self, file: &[u8]) -> Result<Option<Captured>, CaptureError>
        requires { IsCursorIn file.now self.now }
        ensures exact { result ≡ record_at file.now self.now }
        ensures within { IfOk result (λ found. IfSome found (λ c. behind c ≤ length file.now)) }
    {
        let Some(order) = self.endianness else {
            return Ok(None);
        };
        let room = self.room(file);
        if room < HEAD_LEN {
            return Ok(None);
        }
        let len = order.read_u32(&file[self.at + 8..]);
        if len > LONGEST {
            return Err(CaptureError::BadRecord(self.at as u64));
        }
        if room - HEAD_LEN < len as usize {
            return Ok(None);
        }
        let original = order.read_u32(&file[self.at + 12..]);
        Ok(Some(Captured {
            at: self.at as u64,
            start: self.at + HEAD_LEN,
            len,
            original,
        }))
    }
}
