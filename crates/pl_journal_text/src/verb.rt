ghost use Rattle.std.specs.Prelude.{◌≡◌, find};
ghost use Rattle.std.specs.Str.{bytes_eq};
ghost use Rattle.pl_journal_text.specs.Verbs.{all_causes, all_skips, all_verbs, verb_text};
ghost use Rattle.pl_journal.specs.Text.{cause_text, skip_text};
ghost use Rattle.pl_journal_text.specs.Reading.{Reads};

use pl_journal::{Cause, Skip};

/// The word that a line begins with.
#[derive(Clone, Copy)]
pub(crate) enum Verb {
    Line,
    Sent,
    Skipped,
    Made,
    Crossed,
    Redirected,
    Copied,
    Arrived,
    Taken,
    Dropped,
    Granted,
    Registered,
    Freed,
    Placed,
    LinkDown,
    LinkUp,
    Moved,
    Restarted,
    Settled,
    Unsettled,
}

impl Verb {
    const ALL: [Verb; 20] = [
        Verb::Line,
        Verb::Sent,
        Verb::Skipped,
        Verb::Made,
        Verb::Crossed,
        Verb::Redirected,
        Verb::Copied,
        Verb::Arrived,
        Verb::Taken,
        Verb::Dropped,
        Verb::Granted,
        Verb::Registered,
        Verb::Freed,
        Verb::Placed,
        Verb::LinkDown,
        Verb::LinkUp,
        Verb::Moved,
        Verb::Restarted,
        Verb::Settled,
        Verb::Unsettled,
    ];

    fn name(&self) -> &'static str
        ensures { result.now ≡ verb_text self.now }
    {
        match self {
            Verb::Line => "line",
            Verb::Sent => "sent",
            Verb::Skipped => "skipped",
            Verb::Made => "made",
            Verb::Crossed => "crossed",
            Verb::Redirected => "redirected",
            Verb::Copied => "copied",
            Verb::Arrived => "arrived",
            Verb::Taken => "taken",
            Verb::Dropped => "dropped",
            Verb::Granted => "granted",
            Verb::Registered => "registered",
            Verb::Freed => "freed",
            Verb::Placed => "placed",
            Verb::LinkDown => "linkdown",
            Verb::LinkUp => "linkup",
            Verb::Moved => "moved",
            Verb::Restarted => "restarted",
            Verb::Settled => "settled",
            Verb::Unsettled => "unsettled",
        }
    }

    /// The verb that is this word.
    pub(crate) fn named(word: &str) -> Option<Verb>
        ensures { Reads verb_text (λ _. Unit {0}) word.now result }
    {
        find_verb(word)
    }
}

fn find_verb(word: &str) -> Option<Verb>
    ensures { result ≡ find (λ verb. bytes_eq (verb_text verb) word.now) all_verbs }
{
    Verb::ALL.iter().copied().find(|verb| verb.name() == word)
}

const CAUSES: [Cause; 9] = [
    Cause::NotPlaced,
    Cause::NoNextHop,
    Cause::NoAddress,
    Cause::HostGone,
    Cause::LinkDown,
    Cause::Lost,
    Cause::Spent,
    Cause::BadArp,
    Cause::NoMember,
];

const SKIPS: [Skip; 8] = [
    Skip::CutRecord,
    Skip::Short,
    Skip::Long,
    Skip::ForeignSource,
    Skip::ControlType,
    Skip::RecordedArp,
    Skip::NoOwner,
    Skip::HoldFull,
];

/// The cause of this name.
pub(crate) fn cause_named(name: &str) -> Option<Cause>
    ensures { result ≡ find (λ cause. bytes_eq (cause_text cause) name.now) all_causes }
{
    CAUSES.iter().copied().find(|cause| cause.name() == name)
}

/// The reason of this name.
pub(crate) fn skip_named(name: &str) -> Option<Skip>
    ensures { result ≡ find (λ skip. bytes_eq (skip_text skip) name.now) all_skips }
{
    SKIPS.iter().copied().find(|skip| skip.name() == name)
}
