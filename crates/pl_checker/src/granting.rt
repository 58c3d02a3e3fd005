//! An address is granted, registered and freed.
ghost use Rattle.std.specs.Prelude.{◌≡◌, ◌↔◌, ◌+◌, ◌∷◌, List, ℕ, IsTrue, OnOk, length};
ghost use Rattle.pl_wiring.specs.Plan.{Plan};
ghost use Rattle.pl_wiring.specs.declared.host.HostNo.{HostNo};
ghost use Rattle.pl_wiring.specs.declared.label.SwitchNo.{SwitchNo};
ghost use Rattle.pl_pmac.specs.declared.pmac.Pmac.{Pmac};
ghost use Rattle.pl_journal.specs.declared.entry.Entry.{Entry};
ghost use Rattle.pl_journal.specs.declared.entry.Entry.TheVariants.{Freed, Granted, Registered};
ghost use Rattle.pl_journal.specs.Flights.{has_just_crossed, is_frame};
ghost use Rattle.pl_journal.specs.Lossy.{RunTo};
ghost use Rattle.pl_past_tables.specs.Addresses.{KeepsAddresses};
ghost use Rattle.pl_past_tables.specs.Frames.{KeepsFrames};
ghost use Rattle.pl_checker.specs.Past.{Keeps, MayFollow};

use crate::past::Past;
use pl_journal::Memory;
use pl_past_tables::{Addresses, Frames, Grant, Point, fits, number_of};
use pl_pmac::Pmac;
use pl_wiring::{HostNo, Wiring};

impl Past {
    pub(crate) fn may_grant(&self, wiring: &Wiring, x: Pmac, host: HostNo, point: Point) -> bool
        ensures { (text : List ℕ) (past : List Entry) → Keeps wiring.now text past self.now →
            (IsTrue result ↔ MayFollow wiring.now past (Granted x host point.edge point.port)) }
    {
        if x.port != point.port {
            return false;
        }
        if self.holders.is_live(number_of(x)) {
            return false;
        }
        if !self.hosts.has_stood(wiring, host, point) {
            return false;
        }
        self.addresses.is_of_edge(x, point.edge)
    }

    /// An address is granted by entry `n`.
    pub(crate) fn grant(
        &mut self,
        wiring: &Wiring,
        n: u64,
        x: Pmac,
        grant: Grant,
    ) -> Result<(), Memory>
        ensures { OnOk result ((text : List ℕ) (past : List Entry) → Keeps wiring.now text past self.old → n ≡ length past + 1 →
            MayFollow wiring.now past (Granted x grant.host grant.point.edge grant.point.port) →
            Keeps wiring.now text (Granted x grant.host grant.point.edge grant.point.port ∷ past) self.new) }
    {
        fits(x);
        let address = number_of(x);
        let before = self.addresses.point_of(address);
        self.holders.grant(n, address, grant.host, before)?;
        self.addresses.grant(x, grant)?;
        renew(&mut self.frames, &self.addresses, self.just, n);
        self.just = None;
        Ok(())
    }

    pub(crate) fn may_free(&self, wiring: &Wiring, x: Pmac) -> bool
        ensures { (text : List ℕ) (past : List Entry) → Keeps wiring.now text past self.now →
            (IsTrue result ↔ MayFollow wiring.now past (Freed x)) }
    {
        self.holders.is_live(number_of(x))
    }

    /// An address is freed by entry `n`.
    pub(crate) fn free(&mut self, wiring: &Wiring, n: u64, x: Pmac) -> Result<(), Memory>
        ensures { OnOk result ((text : List ℕ) (past : List Entry) → Keeps wiring.now text past self.old → n ≡ length past + 1 →
            MayFollow wiring.now past (Freed x) → Keeps wiring.now text (Freed x ∷ past) self.new) }
    {
        let address = number_of(x);
        let there = self.addresses.point_of(address);
        self.holders.free(n, address, there)?;
        self.just = None;
        Ok(())
    }

    pub(crate) fn may_register(&self, wiring: &Wiring, x: Pmac, n: u64) -> bool
        ensures { (text : List ℕ) (past : List Entry) → Keeps wiring.now text past self.now →
            (IsTrue result ↔ MayFollow wiring.now past (Registered x n)) }
    {
        if n <= self.addresses.highest() {
            return false;
        }
        self.holders.is_live(number_of(x))
    }

    /// An address is registered.
    pub(crate) fn register(&mut self, wiring: &Wiring, x: Pmac, n: u64) -> Result<(), Memory>
        ensures { OnOk result ((text : List ℕ) (past : List Entry) → Keeps wiring.now text past self.old →
            MayFollow wiring.now past (Registered x n) → Keeps wiring.now text (Registered x n ∷ past) self.new) }
    {
        self.addresses.register(x, n)?;
        self.just = None;
        Ok(())
    }
}

// A grant counts for the frame that has just crossed a switch: for whom it is for, and for its source if it came in.
fn renew(frames: &mut Frames, addresses: &Addresses, just: Option<u64>, n: u64)
    ensures { (plan : Plan) (text : List ℕ) (past : List Entry) (x : Pmac) (h : HostNo) (e : SwitchNo) (p : ℕ) → RunTo plan past →
        KeepsFrames plan text past frames.old.rows.items → ((id : ℕ) → has_just_crossed past id ≡ is_frame just id) → n ≡ length past + 1 →
        KeepsAddresses (Granted x h e p ∷ past) addresses.now → KeepsFrames plan text (Granted x h e p ∷ past) frames.new.rows.items }
{
    let Some(id) = just else {
        return;
    };
    let Some(row) = frames.flying(id) else {
        return;
    };
    let source = addresses.address_at(row.sender, row.came_in);
    frames.put(id, row.granting(n, source));
}
