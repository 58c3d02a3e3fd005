ghost use Rattle.std.specs.Prelude.{◌≡◌, Some};
ghost use Rattle.pl_journal.specs.Text.{cause_text, skip_text};

use std::fmt;

/// Why a frame ended without arriving.
#[derive(Clone, Copy, Debug, PartialEq, Eq, PartialOrd, Ord, Hash)]
pub enum Cause {
    NotPlaced,
    NoNextHop,
    NoAddress,
    HostGone,
    LinkDown,
    Lost,
    Spent,
    BadArp,
    NoMember,
}

impl Cause {
    /// The variant's name.
    pub fn name(&self) -> &'static str
        ensures { result.now ≡ cause_text self.now }
    {
        match self {
            Cause::NotPlaced => "NotPlaced",
            Cause::NoNextHop => "NoNextHop",
            Cause::NoAddress => "NoAddress",
            Cause::HostGone => "HostGone",
            Cause::LinkDown => "LinkDown",
            Cause::Lost => "Lost",
            Cause::Spent => "Spent",
            Cause::BadArp => "BadArp",
            Cause::NoMember => "NoMember",
        }
    }
}

/// The variant's name.
impl fmt::Display for Cause {
    ghost output = { λ cause. Some (cause_text cause) };

    fn fmt<W: fmt::Write>(&self, f: &mut fmt::Formatter<W>) -> fmt::Result {
        let name = self.name();
        write!(f, "{name}")
    }
}

/// Why a recorded frame was not played.
#[derive(Clone, Copy, Debug, PartialEq, Eq, PartialOrd, Ord, Hash)]
pub enum Skip {
    CutRecord,
    Short,
    Long,
    ForeignSource,
    ControlType,
    RecordedArp,
    NoOwner,
    HoldFull,
}

impl Skip {
    /// The variant's name.
    pub fn name(&self) -> &'static str
        ensures { result.now ≡ skip_text self.now }
    {
        match self {
            Skip::CutRecord => "CutRecord",
            Skip::Short => "Short",
            Skip::Long => "Long",
            Skip::ForeignSource => "ForeignSource",
            Skip::ControlType => "ControlType",
            Skip::RecordedArp => "RecordedArp",
            Skip::NoOwner => "NoOwner",
            Skip::HoldFull => "HoldFull",
        }
    }
}

/// The variant's name.
impl fmt::Display for Skip {
    ghost output = { λ skip. Some (skip_text skip) };

    fn fmt<W: fmt::Write>(&self, f: &mut fmt::Formatter<W>) -> fmt::Result {
        let name = self.name();
        write!(f, "{name}")
    }
}
