//! A host moves, a link fails or is repaired, the fabric manager begins anew.
ghost use Rattle.std.specs.Prelude.{◌≡◌, ◌↔◌, ◌+◌, ◌∷◌, List, ℕ, IsTrue, OnOk, length};
ghost use Rattle.pl_journal.specs.declared.entry.Entry.{Entry};
ghost use Rattle.pl_journal.specs.declared.entry.Entry.TheVariants.{LinkDown, LinkUp, Moved, Restarted};
ghost use Rattle.pl_checker.specs.Past.{Keeps, MayFollow};

use crate::past::Past;
use pl_journal::Memory;
use pl_past_tables::{Point, is_adjacent};
use pl_wiring::{HostNo, SwitchNo, Wiring};

impl Past {
    pub(crate) fn may_move(&self, wiring: &Wiring, host: HostNo, point: Point) -> bool
        ensures { (text : List ℕ) (past : List Entry) → Keeps wiring.now text past self.now →
            (IsTrue result ↔ MayFollow wiring.now past (Moved host point.edge point.port)) }
    {
        if host.0 >= wiring.host_count() {
            return false;
        }
        self.hosts.is_free(wiring, point)
    }

    pub(crate) fn may_fail(&self, wiring: &Wiring, a: SwitchNo, b: SwitchNo) -> bool
        ensures { (text : List ℕ) (past : List Entry) → Keeps wiring.now text past self.now →
            (IsTrue result ↔ MayFollow wiring.now past (LinkDown a b)) }
    {
        if a.0 >= b.0 {
            return false;
        }
        if !is_adjacent(wiring, a, b) {
            return false;
        }
        !self.links.is_failed(a, b)
    }

    pub(crate) fn may_repair(&self, wiring: &Wiring, a: SwitchNo, b: SwitchNo) -> bool
        ensures { (text : List ℕ) (past : List Entry) → Keeps wiring.now text past self.now →
            (IsTrue result ↔ MayFollow wiring.now past (LinkUp a b)) }
    {
        if a.0 >= b.0 {
            return false;
        }
        if !is_adjacent(wiring, a, b) {
            return false;
        }
        self.links.is_failed(a, b)
    }

    pub(crate) fn may_restart(&self, wiring: &Wiring, number: u32) -> bool
        ensures { (text : List ℕ) (past : List Entry) → Keeps wiring.now text past self.now →
            (IsTrue result ↔ MayFollow wiring.now past (Restarted number)) }
    {
        if number == 0 {
            return false;
        }
        number - 1 == self.restarts
    }

    /// A host moves by entry `n`.
    pub(crate) fn go(
        &mut self,
        wiring: &Wiring,
        n: u64,
        host: HostNo,
        point: Point,
    ) -> Result<(), Memory>
        ensures { OnOk result ((text : List ℕ) (past : List Entry) → Keeps wiring.now text past self.old → n ≡ length past + 1 →
            MayFollow wiring.now past (Moved host point.edge point.port) → Keeps wiring.now text (Moved host point.edge point.port ∷ past) self.new) }
    {
        self.hosts.go(wiring, host, point, n)?;
        self.just = None;
        Ok(())
    }

    /// A link fails.
    pub(crate) fn fail(&mut self, wiring: &Wiring, a: SwitchNo, b: SwitchNo) -> Result<(), Memory>
        ensures { OnOk result ((text : List ℕ) (past : List Entry) → Keeps wiring.now text past self.old →
            MayFollow wiring.now past (LinkDown a b) → Keeps wiring.now text (LinkDown a b ∷ past) self.new) }
    {
        self.links.fail(a, b)?;
        self.just = None;
        Ok(())
    }

    /// A link is repaired by entry `n`.
    pub(crate) fn repair(
        &mut self,
        wiring: &Wiring,
        n: u64,
        a: SwitchNo,
        b: SwitchNo,
    ) -> Result<(), Memory>
        ensures { OnOk result ((text : List ℕ) (past : List Entry) → Keeps wiring.now text past self.old → n ≡ length past + 1 →
            MayFollow wiring.now past (LinkUp a b) → Keeps wiring.now text (LinkUp a b ∷ past) self.new) }
    {
        self.links.repair(a, b, n)?;
        self.just = None;
        Ok(())
    }

    /// The fabric manager begins anew.
    pub(crate) fn restart(&mut self, wiring: &Wiring, number: u32)
        ensures { (text : List ℕ) (past : List Entry) → Keeps wiring.now text past self.old →
            MayFollow wiring.now past (Restarted number) → Keeps wiring.now text (Restarted number ∷ past) self.new }
    {
        self.restarts = number;
        self.just = None;
    }
}
