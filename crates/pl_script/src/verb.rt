ghost use Rattle.std.specs.Prelude.{◌≡◌};
ghost use Rattle.pl_script.specs.Verbs.{verb_of, host_verb, fabric_verb, cause_of, expectation_of};

use pl_journal::Cause;

/// The first word of a line.
#[derive(Clone, Copy)]
pub(crate) enum Verb {
    Start,
    Send,
    Raw,
    Retry,
    Join,
    Leave,
    Move,
    Fail,
    Repair,
    Lose,
    Deliver,
    Tick,
    Sweep,
    Settle,
    Random,
    Restart,
    Expect,
}

/// The word behind `expect`.
#[derive(Clone, Copy)]
pub(crate) enum Expectation {
    Arrived,
    Dropped,
    Address,
    Settled,
}

impl Verb {
    #[tactic(auto, unfolding(crate::specs::Verbs::verb_of))]
    pub(crate) fn read(word: &str) -> Option<Verb>
        ensures { result ≡ verb_of word.now }
    {
        match host_verb(word) {
            Some(verb) => Some(verb),
            None => fabric_verb(word),
        }
    }
}

#[tactic(auto, unfolding(crate::specs::Verbs::host_verb))]
fn host_verb(word: &str) -> Option<Verb>
    ensures { result ≡ host_verb word.now }
{
    if word == "start" {
        Some(Verb::Start)
    } else if word == "send" {
        Some(Verb::Send)
    } else if word == "raw" {
        Some(Verb::Raw)
    } else if word == "retry" {
        Some(Verb::Retry)
    } else if word == "join" {
        Some(Verb::Join)
    } else if word == "leave" {
        Some(Verb::Leave)
    } else if word == "move" {
        Some(Verb::Move)
    } else {
        None
    }
}

#[tactic(auto, unfolding(crate::specs::Verbs::fabric_verb))]
fn fabric_verb(word: &str) -> Option<Verb>
    ensures { result ≡ fabric_verb word.now }
{
    if word == "fail" {
        Some(Verb::Fail)
    } else if word == "repair" {
        Some(Verb::Repair)
    } else if word == "lose" {
        Some(Verb::Lose)
    } else if word == "deliver" {
        Some(Verb::Deliver)
    } else if word == "tick" {
        Some(Verb::Tick)
    } else if word == "sweep" {
        Some(Verb::Sweep)
    } else if word == "settle" {
        Some(Verb::Settle)
    } else if word == "random" {
        Some(Verb::Random)
    } else if word == "restart" {
        Some(Verb::Restart)
    } else if word == "expect" {
        Some(Verb::Expect)
    } else {
        None
    }
}

impl Expectation {
    #[tactic(auto, unfolding(crate::specs::Verbs::expectation_of))]
    pub(crate) fn read(word: &str) -> Option<Expectation>
        ensures { result ≡ expectation_of word.now }
    {
        if word == "arrived" {
            Some(Expectation::Arrived)
        } else if word == "dropped" {
            Some(Expectation::Dropped)
        } else if word == "address" {
            Some(Expectation::Address)
        } else if word == "settled" {
            Some(Expectation::Settled)
        } else {
            None
        }
    }
}

/// The cause that is called so.
#[tactic(auto, unfolding(crate::specs::Verbs::cause_of))]
pub(crate) fn cause_named(word: &str) -> Option<Cause>
    ensures { result ≡ cause_of word.now }
{
    if word == "NotPlaced" {
        Some(Cause::NotPlaced)
    } else if word == "NoNextHop" {
        Some(Cause::NoNextHop)
    } else if word == "NoAddress" {
        Some(Cause::NoAddress)
    } else if word == "HostGone" {
        Some(Cause::HostGone)
    } else if word == "LinkDown" {
        Some(Cause::LinkDown)
    } else if word == "Lost" {
        Some(Cause::Lost)
    } else if word == "Spent" {
        Some(Cause::Spent)
    } else if word == "BadArp" {
        Some(Cause::BadArp)
    } else if word == "NoMember" {
        Some(Cause::NoMember)
    } else {
        None
    }
}
