ghost use Rattle.std.specs.Prelude.{◌≡◌, ℕ, ◌+◌, ◌≤◌, ◌↔◌, List, length, All, Ok, Err};
ghost use Rattle.pl_capture.specs.declared.records.Captured.{Captured};
ghost use Rattle.pl_pcapng.specs.declared.error.BlockError.{BlockError};
ghost use Rattle.pl_pcapng.specs.Position.{Position};
ghost use Rattle.pl_pcapng.specs.Standing.{Found, Stands};
ghost use Rattle.pl_pcapng.specs.Reading.{block_in};
ghost use Rattle.pl_pcapng.specs.Sections.{IsSections, AreSectionsRefused, reading_of};

/// The law that exactly one row of the table holds at a position of a file, and that reading there
/// tells which: a whole block with what it says, less than a whole block, or the first of the
/// refusals.
pub fn one_at_each_position()
    ensures { (file : List ℕ) (p : Position) (found : Found) →
        Stands file p found ↔ (block_in file p ≡ found) }
{}

/// The law that the grammar of files and their reading say the same. So each file has one reading:
/// it has one list of records with one tail, or it is refused for one reason, and never both.
pub fn one_reading()
    ensures sections { (file : List ℕ) (records : List Captured) (tail : ℕ) →
        IsSections file records tail ↔ (reading_of file ≡ Ok (records, tail)) }
    ensures refused { (file : List ℕ) (e : BlockError) →
        AreSectionsRefused file e ↔ (reading_of file ≡ Err e) }
{}

/// The law that the records of a file lie within it.
pub fn records_are_within()
    ensures { (file : List ℕ) (records : List Captured) (tail : ℕ) →
        reading_of file ≡ Ok (records, tail) → All (λ c. c.start + c.len ≤ length file) records }
{}
