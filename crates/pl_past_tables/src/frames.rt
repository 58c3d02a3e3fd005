ghost use Rattle.std.specs.Prelude.{◌≡◌, ◌+◌, ◌-◌, ◌≤◌, ◌++◌, ◌∷◌, [], List, ℕ, IfNone, IfOk, IfSome, OnOk, length, set, true, false};
ghost use Rattle.pl_wiring.specs.Plan.{Plan};
ghost use Rattle.pl_journal.specs.declared.entry.Entry.{Entry};
ghost use Rattle.pl_journal.specs.Flights.{begun, is_flying};
ghost use Rattle.pl_journal.specs.Lossy.{RunTo};
ghost use Rattle.pl_past.specs.Kept.{kept};
ghost use Rattle.pl_past_tables.specs.Frames.{IsRow, KeepsFrames};

use crate::row::Row;
use pl_journal::Memory;
use std::alloc::Global;

/// What is kept of frames 1, 2, 3 and so on.
#[derive(Debug, Drop)]
pub struct Frames {
    pub rows: Vec<Row>,
}

impl Frames {
    pub fn new(alloc: Global) -> Frames
        ensures { (plan : Plan) (text : List ℕ) → KeepsFrames plan text [] result.rows.items }
    {
        Frames {
            rows: Vec::new(alloc),
        }
    }

    /// How many frames have begun.
    pub fn begun(&self) -> u64
        ensures { result ≡ length self.now.rows.items }
    {
        self.rows.len() as u64
    }

    /// What is kept of a frame that has begun and has not ended.
    pub fn flying(&self, id: u64) -> Option<Row>
        ensures found { (plan : Plan) (text : List ℕ) (past : List Entry) → RunTo plan past → KeepsFrames plan text past self.now.rows.items →
            IfSome result (λ row. (is_flying past id ≡ true) × IsRow text row (kept plan past id)) }
        ensures place { IfSome result (λ _. (1 ≤ id) × (id ≤ length self.now.rows.items)) }
        ensures none { (plan : Plan) (text : List ℕ) (past : List Entry) → RunTo plan past → KeepsFrames plan text past self.now.rows.items →
            IfNone result (is_flying past id ≡ false) }
    {
        if id == 0 {
            return None;
        }
        if id > self.rows.len() as u64 {
            return None;
        }
        let row = self.rows[(id - 1) as usize];
        if row.over { None } else { Some(row) }
    }

    /// A frame begins.
    pub fn begin(&mut self, row: Row) -> Result<(), Memory>
        ensures { OnOk result (self.new.rows.items ≡ self.old.rows.items ++ row ∷ []) }
    {
        self.rows.push(row)?;
        Ok(())
    }

    /// Something befalls a frame that has begun.
    pub fn put(&mut self, id: u64, row: Row)
        requires first { 1 ≤ id }
        requires last { id ≤ length self.old.rows.items }
        ensures { self.new.rows.items ≡ set self.old.rows.items (id - 1) row }
    {
        self.rows[(id - 1) as usize] = row;
    }
}
