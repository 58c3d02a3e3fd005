ghost use Rattle.std.specs.Prelude.{◌≡◌, find};
ghost use Rattle.std.specs.Str.{bytes_eq};
ghost use Rattle.pl_log_lines.specs.Kinds.{all_kinds, kind_text};

/// What a line below an event speaks of: its second word.
#[derive(Clone, Copy, Debug, PartialEq, Eq)]
pub enum Kind {
    // Frames between switches.
    Ldm,
    Proposal,
    Vote,
    Unread,
    Frame,
    // What the manager is told, and says.
    Place,
    Link,
    PodWanted,
    Learned,
    Aged,
    Begin,
    End,
    Trapped,
    Query,
    Members,
    Pod,
    Answer,
    Flood,
    Avoid,
    Invalidate,
    Release,
    Hello,
    Tree,
    // What becomes of frames and addresses.
    Grant,
    Free,
    Make,
    Redirect,
    Pass,
    Take,
    Drop,
    Number,
    // What a switch knows.
    Port,
    Silent,
    Attempt,
    Granted,
    Hold,
    Below,
}

impl Kind {
    const ALL: [Kind; 37] = [
        Kind::Ldm,
        Kind::Proposal,
        Kind::Vote,
        Kind::Unread,
        Kind::Frame,
        Kind::Place,
        Kind::Link,
        Kind::PodWanted,
        Kind::Learned,
        Kind::Aged,
        Kind::Begin,
        Kind::End,
        Kind::Trapped,
        Kind::Query,
        Kind::Members,
        Kind::Pod,
        Kind::Answer,
        Kind::Flood,
        Kind::Avoid,
        Kind::Invalidate,
        Kind::Release,
        Kind::Hello,
        Kind::Tree,
        Kind::Grant,
        Kind::Free,
        Kind::Make,
        Kind::Redirect,
        Kind::Pass,
        Kind::Take,
        Kind::Drop,
        Kind::Number,
        Kind::Port,
        Kind::Silent,
        Kind::Attempt,
        Kind::Granted,
        Kind::Hold,
        Kind::Below,
    ];

    pub fn text(&self) -> &'static str
        ensures { result.now ≡ kind_text self.now }
    {
        match self {
            Kind::Ldm => "ldm",
            Kind::Proposal => "proposal",
            Kind::Vote => "vote",
            Kind::Unread => "unread",
            Kind::Frame => "frame",
            Kind::Place => "place",
            Kind::Link => "link",
            Kind::PodWanted => "podwanted",
            Kind::Learned => "learned",
            Kind::Aged => "aged",
            Kind::Begin => "begin",
            Kind::End => "end",
            Kind::Trapped => "trapped",
            Kind::Query => "query",
            Kind::Members => "members",
            Kind::Pod => "pod",
            Kind::Answer => "answer",
            Kind::Flood => "flood",
            Kind::Avoid => "avoid",
            Kind::Invalidate => "invalidate",
            Kind::Release => "release",
            Kind::Hello => "hello",
            Kind::Tree => "tree",
            Kind::Grant => "grant",
            Kind::Free => "free",
            Kind::Make => "make",
            Kind::Redirect => "redirect",
            Kind::Pass => "pass",
            Kind::Take => "take",
            Kind::Drop => "drop",
            Kind::Number => "number",
            Kind::Port => "port",
            Kind::Silent => "silent",
            Kind::Attempt => "attempt",
            Kind::Granted => "granted",
            Kind::Hold => "hold",
            Kind::Below => "below",
        }
    }

    /// The kind that a word names.
    pub fn named(text: &str) -> Option<Kind>
        ensures { result ≡ find (λ kind. bytes_eq (kind_text kind) text.now) all_kinds }
    {
        first_named(&Kind::ALL, text)
    }
}

// The first of some kinds that a word names.
#[tactic(auto, using(crate::proofs::Finding::found_here, crate::proofs::Finding::found_later, crate::proofs::Finding::found_nowhere))]
fn first_named(kinds: &[Kind], text: &str) -> Option<Kind>
    ensures { result ≡ find (λ kind. bytes_eq (kind_text kind) text.now) kinds.now }
{
    for kind in kinds {
        if kind.text() == text {
            return Some(*kind);
        }
    }
    None
}
