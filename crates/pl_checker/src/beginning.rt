//! A frame begins: it is sent, made or copied.
ghost use Rattle.std.specs.Prelude.{◌≡◌, ◌↔◌, ◌+◌, ◌*◌, ◌≤◌, ◌∷◌, List, ℕ, IsTrue, OnOk, length, take, drop};
ghost use Rattle.hex.specs.Hex.{IsBytes, encode_lower};
ghost use Rattle.pl_wiring.specs.declared.host.HostNo.{HostNo};
ghost use Rattle.pl_wiring.specs.declared.label.SwitchNo.{SwitchNo};
ghost use Rattle.pl_journal.specs.declared.entry.Entry.{Entry};
ghost use Rattle.pl_journal.specs.declared.entry.Entry.TheVariants.{Copied, Made, Sent};
ghost use Rattle.pl_journal.specs.Flights.{begun};
ghost use Rattle.pl_checker.specs.Past.{Keeps, MayFollow};

use crate::past::Past;
use pl_frame::Frame;
use pl_journal::Memory;
use pl_past_tables::{Carried, Row, destination, mac_number};
use pl_wiring::{HostNo, SwitchNo, Wiring};

impl Past {
    /// Whether this is the number of the frame that begins next.
    pub(crate) fn is_next(&self, wiring: &Wiring, id: u64) -> bool
        ensures { (text : List ℕ) (past : List Entry) → Keeps wiring.now text past self.now →
            (IsTrue result ↔ (id ≡ begun past + 1)) }
    {
        if id == 0 {
            return false;
        }
        id - 1 == self.frames.begun()
    }

    pub(crate) fn may_send(&self, wiring: &Wiring, id: u64) -> bool
        ensures { (text : List ℕ) (past : List Entry) (host : HostNo) (frame : List ℕ) → Keeps wiring.now text past self.now →
            (IsTrue result ↔ MayFollow wiring.now past (Sent id host frame)) }
    {
        self.is_next(wiring, id)
    }

    pub(crate) fn may_make(&self, wiring: &Wiring, id: u64) -> bool
        ensures { (text : List ℕ) (past : List Entry) (s : SwitchNo) (frame : List ℕ) → Keeps wiring.now text past self.now →
            (IsTrue result ↔ MayFollow wiring.now past (Made id s frame)) }
    {
        self.is_next(wiring, id)
    }

    pub(crate) fn may_copy(&self, wiring: &Wiring, id: u64, new: u64) -> bool
        ensures { (text : List ℕ) (past : List Entry) → Keeps wiring.now text past self.now →
            (IsTrue result ↔ MayFollow wiring.now past (Copied id new)) }
    {
        let Some(row) = self.frames.flying(id) else {
            return false;
        };
        if row.carried.group.is_none() {
            return false;
        }
        self.is_next(wiring, new)
    }

    /// A host sends a frame by entry `n`; its digits stand in the text from a place on.
    pub(crate) fn send(
        &mut self,
        wiring: &Wiring,
        n: u64,
        id: u64,
        host: HostNo,
        frame: &Frame,
        from: usize,
    ) -> Result<(), Memory>
        requires { 14 ≤ length frame.now }
        ensures { OnOk result ((text : List ℕ) (past : List Entry) → Keeps wiring.now text past self.old → n ≡ length past + 1 →
            length frame.now ≤ 65553 → IsBytes frame.now → take (2 * length frame.now) (drop from text) ≡ encode_lower frame.now →
            MayFollow wiring.now past (Sent id host frame.now) → Keeps wiring.now text (Sent id host frame.now ∷ past) self.new) }
    {
        let to = mac_number(destination(frame));
        let row = Row::first(id, Some(host), to, Carried::of(frame, from), n);
        self.frames.begin(row)?;
        self.groups.send(host, frame)?;
        self.just = None;
        Ok(())
    }

    /// A switch makes a frame; its digits stand in the text from a place on.
    pub(crate) fn make(
        &mut self,
        wiring: &Wiring,
        id: u64,
        s: SwitchNo,
        frame: &Frame,
        from: usize,
    ) -> Result<(), Memory>
        requires { 14 ≤ length frame.now }
        ensures { OnOk result ((text : List ℕ) (past : List Entry) → Keeps wiring.now text past self.old →
            length frame.now ≤ 65553 → IsBytes frame.now → take (2 * length frame.now) (drop from text) ≡ encode_lower frame.now →
            MayFollow wiring.now past (Made id s frame.now) → Keeps wiring.now text (Made id s frame.now ∷ past) self.new) }
    {
        let to = mac_number(destination(frame));
        let row = Row::first(id, None, to, Carried::of(frame, from), 0);
        self.frames.begin(row)?;
        self.just = None;
        Ok(())
    }

    /// A frame of a group is copied.
    pub(crate) fn copy(&mut self, wiring: &Wiring, id: u64, new: u64) -> Result<(), Memory>
        ensures { OnOk result ((text : List ℕ) (past : List Entry) → Keeps wiring.now text past self.old →
            MayFollow wiring.now past (Copied id new) → Keeps wiring.now text (Copied id new ∷ past) self.new) }
    {
        let Some(row) = self.frames.flying(id) else {
            return Ok(());
        };
        self.frames.begin(row)?;
        self.just = None;
        Ok(())
    }
}
