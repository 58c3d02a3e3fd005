ghost use Rattle.std.specs.Prelude.{◌≡◌, ℕ, ◌+◌, ◌≤◌, ◌↔◌, List, length, map, All, Some, None, Ok, Err};
ghost use Rattle.pl_capture.specs.declared.records.Captured.{Captured};
ghost use Rattle.pl_capture.specs.declared.error.CaptureError.{CaptureError};
ghost use Rattle.pl_capture.specs.declared.error.CaptureError.TheVariants.{BadRecord};
ghost use Rattle.pl_capture.specs.declared.endianness.Endianness.{Endianness};
ghost use Rattle.pl_capture.specs.Record.{IsRecord, IsTail, IsTooLong, record_in};
ghost use Rattle.pl_capture.specs.Capture.{IsCapture, IsCaptureRefused, reading_of};
ghost use Rattle.pl_capture.specs.Spelling.{Heading, IsHeading, Packet, IsWritablePacket, file_bytes, end_of, records_of, frame_of, saved_bytes};

/// The law that exactly one of three stands at an offset of a file, and that reading there tells
/// which: a whole record, less than a whole record, or a head with too large a captured length.
pub fn one_at_each_offset()
    ensures record { (file : List ℕ) (order : Endianness) (at : ℕ) (c : Captured) →
        (record_in file order at ≡ Ok (Some c)) ↔ IsRecord file order at c }
    ensures tail { (file : List ℕ) (order : Endianness) (at : ℕ) →
        (record_in file order at ≡ Ok None) ↔ IsTail file order at }
    ensures too_long { (file : List ℕ) (order : Endianness) (at : ℕ) (e : CaptureError) →
        (record_in file order at ≡ Err e) ↔ (IsTooLong file order at × (e ≡ BadRecord at)) }
{}

/// The law that the grammar of captures and their reading say the same. So each file has one
/// reading: it is a capture of one list of records with one tail, or it is refused for one reason,
/// and never both.
pub fn one_reading()
    ensures capture { (file : List ℕ) (records : List Captured) (tail : ℕ) →
        IsCapture file records tail ↔ (reading_of file ≡ Ok (records, tail)) }
    ensures refused { (file : List ℕ) (e : CaptureError) →
        IsCaptureRefused file e ↔ (reading_of file ≡ Err e) }
{}

/// The law that the records of a capture lie within its file.
pub fn records_are_within()
    ensures { (file : List ℕ) (records : List Captured) (tail : ℕ) →
        reading_of file ≡ Ok (records, tail) → All (λ c. c.start + c.len ≤ length file) records }
{}

/// The law that what is written is read. A file that any writer spells, in either byte order and
/// with time stamps of microseconds or of nanoseconds, has its packets as records, in order, and
/// what is left behind them as its tail. So has one that is made of [`write_header`] and
/// [`write_record_head`].
///
/// [`write_header`]: crate::write_header
/// [`write_record_head`]: crate::write_record_head
pub fn written_is_read()
    ensures whole { (h : Heading) (packets : List Packet) (rest : List ℕ) →
        IsHeading h → All IsWritablePacket packets → IsTail rest h.order 0 →
        IsCapture (file_bytes h packets rest) (records_of 24 packets) (length rest) }
    ensures refused { (h : Heading) (packets : List Packet) (rest : List ℕ) →
        IsHeading h → All IsWritablePacket packets → IsTooLong rest h.order 0 →
        IsCaptureRefused (file_bytes h packets rest) (BadRecord (end_of h packets)) }

    // The records hold the frames.
    ensures frames { (h : Heading) (packets : List Packet) (rest : List ℕ) →
        map (frame_of (file_bytes h packets rest)) (records_of 24 packets)
        ≡ map (λ p. p.frame) packets }

    ensures saved { (packets : List Packet) → All IsWritablePacket packets →
        reading_of (saved_bytes packets) ≡ Ok (records_of 24 packets, 0) }
    ensures saved_frames { (packets : List Packet) →
        map (frame_of (saved_bytes packets)) (records_of 24 packets) ≡ map (λ p. p.frame) packets }
{}
