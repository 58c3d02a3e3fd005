ghost use Rattle.std.specs.Prelude.{◌≡◌, ◌+◌, [], ◌∷◌, Some, OnOk};
ghost use Rattle.pl_output.specs.Summary.{begun_text, ended_text, flying, frames_line, totals_of};
ghost use Rattle.pl_output.specs.Tallied.{plus};

use pl_frame::Memory;
use pl_inputs::one_more;
use pl_journal::Entry;
use std::fmt;

/// How many entries there are of each kind.
#[derive(Clone, Copy, Debug)]
pub(crate) struct Totals {
    pub lines: u64,
    pub sent: u64,
    pub made: u64,
    pub copied: u64,
    pub arrived: u64,
    pub taken: u64,
    pub dropped: u64,
    pub crossed: u64,
}

impl Totals {
    pub fn none() -> Totals
        ensures { result ≡ totals_of [] }
    {
        Totals {
            lines: 0,
            sent: 0,
            made: 0,
            copied: 0,
            arrived: 0,
            taken: 0,
            dropped: 0,
            crossed: 0,
        }
    }

    pub fn count(&mut self, entry: &Entry) -> Result<(), Memory>
        ensures { OnOk result (self.new ≡ plus self.old (totals_of (entry.now ∷ []))) }
    {
        match entry {
            Entry::Line(_) => self.lines = one_more(self.lines)?,
            Entry::Sent(_, _, _) => self.sent = one_more(self.sent)?,
            Entry::Made(_, _, _) => self.made = one_more(self.made)?,
            Entry::Copied(_, _) => self.copied = one_more(self.copied)?,
            Entry::Arrived(_, _, _) => self.arrived = one_more(self.arrived)?,
            Entry::Taken(_, _) => self.taken = one_more(self.taken)?,
            Entry::Dropped(_, _) => self.dropped = one_more(self.dropped)?,
            Entry::Crossed(_, _) => self.crossed = one_more(self.crossed)?,
            _ => {}
        }
        Ok(())
    }

    /// How many frames began and did not end.
    fn flying(&self) -> u128
        ensures { result ≡ flying self.now }
    {
        let begun = u128::from(self.sent) + u128::from(self.made) + u128::from(self.copied);
        begun
            .saturating_sub(u128::from(self.arrived))
            .saturating_sub(u128::from(self.taken))
            .saturating_sub(u128::from(self.dropped))
    }
}

/// The line of the frames.
impl fmt::Display for Totals {
    ghost output = { λ totals. Some (frames_line totals) };

    #[tactic(auto, unfolding(crate::specs::Summary::frames_line))]
    fn fmt<W: fmt::Write>(&self, f: &mut fmt::Formatter<W>) -> fmt::Result {
        let begun = Begun(*self);
        let ended = Ended(*self);
        let flying = self.flying();
        write!(f, "{begun} {ended} flying {flying}\n")
    }
}

// The frames that began.
#[derive(Clone, Copy)]
struct Begun(Totals);

impl fmt::Display for Begun {
    ghost output = { λ begun. Some (begun_text begun.0) };

    #[tactic(auto, unfolding(crate::specs::Summary::begun_text))]
    fn fmt<W: fmt::Write>(&self, f: &mut fmt::Formatter<W>) -> fmt::Result {
        let Totals {
            sent,
            made,
            copied,
            ..
        } = self.0;
        write!(f, "sent {sent} made {made} copied {copied}")
    }
}

// The frames that ended.
#[derive(Clone, Copy)]
struct Ended(Totals);

impl fmt::Display for Ended {
    ghost output = { λ ended. Some (ended_text ended.0) };

    #[tactic(auto, unfolding(crate::specs::Summary::ended_text))]
    fn fmt<W: fmt::Write>(&self, f: &mut fmt::Formatter<W>) -> fmt::Result {
        let Totals {
            arrived,
            taken,
            dropped,
            ..
        } = self.0;
        write!(f, "arrived {arrived} taken {taken} dropped {dropped}")
    }
}
