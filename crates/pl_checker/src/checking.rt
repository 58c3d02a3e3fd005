//! Whether an entry may follow, and what is kept then: a function a kind of entry.
ghost use Rattle.std.specs.Prelude.{◌≡◌, ◌↔◌, ◌+◌, ◌∷◌, List, ℕ, IfOk, IsTrue, OnOk, length};
ghost use Rattle.pl_journal.specs.declared.entry.Entry.{Entry};
ghost use Rattle.pl_checker.specs.Past.{HasDigits, IsCheckable, IsQuiet, Keeps, MayFollow};

use crate::past::Past;
use pl_journal::{Entry, Memory};
use pl_past_tables::{Grant, Point};
use pl_wiring::Wiring;
use std::alloc::Global;

impl Past {
    /// Whether an entry may follow those that are past. The text is that in which the digits of frames
    /// stand.
    pub fn may_follow(
        &self,
        alloc: Global,
        wiring: &Wiring,
        text: &[u8],
        entry: &Entry,
    ) -> Result<bool, Memory>
        requires { IsCheckable wiring.now entry.now }
        ensures { IfOk result (λ follows. (past : List Entry) → Keeps wiring.now text.now past self.now →
            (IsTrue follows ↔ MayFollow wiring.now past entry.now)) }
    {
        match entry {
            Entry::Line(_) => Ok(true),
            Entry::Skipped(..) => Ok(true),
            Entry::Placed(..) => Ok(true),
            Entry::Settled(_) => Ok(true),
            Entry::Unsettled(_) => Ok(true),
            Entry::Sent(id, ..) => Ok(self.may_send(wiring, *id)),
            Entry::Made(id, ..) => Ok(self.may_make(wiring, *id)),
            Entry::Crossed(id, s) => Ok(self.may_cross(wiring, *id, *s)),
            Entry::Redirected(id, old, new) => Ok(self.may_redirect(wiring, *id, *old, *new)),
            Entry::Copied(id, new) => Ok(self.may_copy(wiring, *id, *new)),
            Entry::Arrived(id, host, frame) => {
                let arrives = self.may_arrive(alloc, wiring, text, *id, *host, frame)?;
                Ok(arrives)
            }
            Entry::Taken(id, s) => Ok(self.may_take(wiring, *id, *s)),
            Entry::Dropped(id, cause) => Ok(self.may_drop(wiring, *id, *cause)),
            Entry::Granted(x, host, edge, port) => {
                let point = Point {
                    edge: *edge,
                    port: *port,
                };
                Ok(self.may_grant(wiring, *x, *host, point))
            }
            Entry::Registered(x, n) => Ok(self.may_register(wiring, *x, *n)),
            Entry::Freed(x) => Ok(self.may_free(wiring, *x)),
            Entry::Restarted(number) => Ok(self.may_restart(wiring, *number)),
            Entry::LinkDown(a, b) => Ok(self.may_fail(wiring, *a, *b)),
            Entry::LinkUp(a, b) => Ok(self.may_repair(wiring, *a, *b)),
            Entry::Moved(host, edge, port) => {
                let point = Point {
                    edge: *edge,
                    port: *port,
                };
                Ok(self.may_move(wiring, *host, point))
            }
        }
    }

    /// Entry `n` follows. The digits of a frame that it begins stand in the text from this place on.
    pub fn keep(
        &mut self,
        wiring: &Wiring,
        n: u64,
        from: usize,
        entry: &Entry,
    ) -> Result<(), Memory>
        requires { IsCheckable wiring.now entry.now }
        ensures { OnOk result ((text : List ℕ) (past : List Entry) → Keeps wiring.now text past self.old → n ≡ length past + 1 →
            HasDigits text from entry.now → MayFollow wiring.now past entry.now → Keeps wiring.now text (entry.now ∷ past) self.new) }
    {
        match entry {
            Entry::Line(_) => {
                self.pass(wiring);
                Ok(())
            }
            Entry::Skipped(..) => {
                self.pass(wiring);
                Ok(())
            }
            Entry::Placed(..) => {
                self.pass(wiring);
                Ok(())
            }
            Entry::Settled(_) => {
                self.pass(wiring);
                Ok(())
            }
            Entry::Unsettled(_) => {
                self.pass(wiring);
                Ok(())
            }
            Entry::Sent(id, host, frame) => {
                self.send(wiring, n, *id, *host, frame, from)?;
                Ok(())
            }
            Entry::Made(id, s, frame) => {
                self.make(wiring, *id, *s, frame, from)?;
                Ok(())
            }
            Entry::Crossed(id, s) => {
                self.cross(wiring, n, *id, *s);
                Ok(())
            }
            Entry::Redirected(id, old, new) => {
                self.redirect(wiring, *id, *old, *new);
                Ok(())
            }
            Entry::Copied(id, new) => {
                self.copy(wiring, *id, *new)?;
                Ok(())
            }
            Entry::Arrived(id, host, frame) => {
                self.arrive(wiring, *id, *host, frame)?;
                Ok(())
            }
            Entry::Taken(id, s) => {
                self.take(wiring, *id, *s);
                Ok(())
            }
            Entry::Dropped(id, cause) => {
                self.drop_frame(wiring, *id, *cause);
                Ok(())
            }
            Entry::Granted(x, host, edge, port) => {
                let host = *host;
                let point = Point {
                    edge: *edge,
                    port: *port,
                };
                self.grant(wiring, n, *x, Grant { host, point })?;
                Ok(())
            }
            Entry::Registered(x, number) => {
                self.register(wiring, *x, *number)?;
                Ok(())
            }
            Entry::Freed(x) => {
                self.free(wiring, n, *x)?;
                Ok(())
            }
            Entry::Restarted(number) => {
                self.restart(wiring, *number);
                Ok(())
            }
            Entry::LinkDown(a, b) => {
                self.fail(wiring, *a, *b)?;
                Ok(())
            }
            Entry::LinkUp(a, b) => {
                self.repair(wiring, n, *a, *b)?;
                Ok(())
            }
            Entry::Moved(host, edge, port) => {
                let point = Point {
                    edge: *edge,
                    port: *port,
                };
                self.go(wiring, n, *host, point)?;
                Ok(())
            }
        }
    }

    // An entry that changes nothing.
    fn pass(&mut self, wiring: &Wiring)
        ensures { (text : List ℕ) (past : List Entry) (entry : Entry) → IsQuiet entry → Keeps wiring.now text past self.old →
            Keeps wiring.now text (entry ∷ past) self.new }
    {
        self.just = None;
    }
}
