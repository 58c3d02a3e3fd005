ghost use Rattle.std.specs.Prelude.{◌≡◌, ◌<◌, ◌∷◌, ◌++◌, [], None, Some, codes, decimal, if◌then◌else◌, is_some, length, option_map, slice_get, true};
ghost use Rattle.std.specs.Option.{option_map_or};
ghost use Rattle.pl_journal.specs.Text.{host_text, switch_text};
ghost use Rattle.pl_wiring.specs.Labels.{switch_count};
ghost use Rattle.pl_wiring.specs.Peers.{peer_of};
ghost use Rattle.pl_world.specs.Changes.{host_at};
ghost use Rattle.pl_world.specs.LinksAndMoves.{link_between};
ghost use Rattle.pl_world.specs.Refusals.{has_queue, is_filled, refusal_of_event, refusal_of_queue};
ghost use Rattle.pl_watch.specs.Events.{along_words, end_of, entering_words, event_words, node_of};
ghost use Rattle.pl_log_lines.specs.Rows.{word_text, words_text};

use pl_journal::Field;
use pl_log_lines::{UNKNOWN, Word, label, port, text};
use pl_node::{HostLogic, ManagerLogic, SwitchLogic};
use pl_schedule::World;
use pl_wiring::{HostNo, Peer, SwitchNo};
use pl_world::{Event, QueueName};

/// The words of an event's line.
pub(crate) type EventWords<'a> = [Option<Word<'a>>; 5];

/// An event as a script would say it; beside each end of a link stands its port.
#[tactic(auto, using(crate::proofs::Ends::link_is_there, crate::proofs::Ends::lost_at, crate::proofs::Ends::moved_there, crate::proofs::Ends::host_there, crate::proofs::Ends::switch_there))]
pub(crate) fn event_words<'a, S: SwitchLogic, M: ManagerLogic, H: HostLogic>(
    world: &'a World<S, M, H>,
    event: &Event,
) -> EventWords<'a>
    requires { refusal_of_event world.now event.now ≡ None }
    ensures { words_text result ≡ event_words world.now event.now }
{
    match event {
        Event::Deliver(name) => delivery_words(world, name),
        Event::Tick(s) => words("tick", Some(switch(world, *s)), None, None, None),
        Event::Fail(a, b) => pair_words(world, "fail", *a, *b),
        Event::Repair(a, b) => pair_words(world, "repair", *a, *b),
        Event::Lose(s, at) => along_words(world, "lose", *s, *at),
        Event::Move(h, s, at) => entry_words(world, "move", *h, *s, *at),
        Event::Start(h) => host_words(world, "start", *h),
        Event::Play { host: h, raw, .. } => host_words(world, sending(*raw), *h),
        Event::Retry(h) => host_words(world, "retry", *h),
        Event::Join(h, group) => group_words(world, "join", *h, Word::Ip(*group)),
        Event::Leave(h, group) => group_words(world, "leave", *h, Word::Ip(*group)),
        Event::Restart => words("restart", None, None, None, None),
    }
}

// An event's line has up to four words beside its first one: the ports of both ends of a link among them.
fn words<'a>(
    first: &'static str,
    a: Option<Word<'a>>,
    b: Option<Word<'a>>,
    c: Option<Word<'a>>,
    d: Option<Word<'a>>,
) -> EventWords<'a>
    ensures { words_text result ≡ first.now ∷ words_text (a.entry ∷ b.entry ∷ c.entry ∷ d.entry ∷ []) }
{
    [Some(text(first)), a, b, c, d]
}

fn switch<'a, S: SwitchLogic, M: ManagerLogic, H: HostLogic>(
    world: &'a World<S, M, H>,
    s: SwitchNo,
) -> Word<'a>
    requires { s.0 < switch_count world.now.plan.k }
    ensures { word_text result ≡ switch_text world.now.plan s.0 }
{
    label(world.wiring_index(), s)
}

fn host<'a, S: SwitchLogic, M: ManagerLogic, H: HostLogic>(
    world: &'a World<S, M, H>,
    h: HostNo,
) -> Word<'a>
    requires { h.0 < length world.now.plan.hosts }
    ensures { word_text result ≡ host_text world.now.plan h.0 }
{
    Word::Field(Field::Text(world.wiring().host(h).name.text()))
}

fn host_words<'a, S: SwitchLogic, M: ManagerLogic, H: HostLogic>(
    world: &'a World<S, M, H>,
    first: &'static str,
    h: HostNo,
) -> EventWords<'a>
    requires { h.0 < length world.now.plan.hosts }
    ensures { words_text result ≡ first.now ∷ host_text world.now.plan h.0 ∷ [] }
{
    words(first, Some(host(world, h)), None, None, None)
}

// A host, and the port of a switch that it comes to.
fn entry_words<'a, S: SwitchLogic, M: ManagerLogic, H: HostLogic>(
    world: &'a World<S, M, H>,
    first: &'static str,
    h: HostNo,
    s: SwitchNo,
    at: u8,
) -> EventWords<'a>
    requires host { h.0 < length world.now.plan.hosts }
    requires switch { s.0 < switch_count world.now.plan.k }
    ensures { words_text result ≡ first.now ∷ host_text world.now.plan h.0 ∷ switch_text world.now.plan s.0 ∷ decimal at ∷ [] }
{
    let to = switch(world, s);
    words(first, Some(host(world, h)), Some(to), Some(port(at)), None)
}

fn sending(raw: bool) -> &'static str
    ensures { result.now ≡ if raw then codes "raw" else codes "send" }
{
    if raw { "raw" } else { "send" }
}

fn group_words<'a, S: SwitchLogic, M: ManagerLogic, H: HostLogic>(
    world: &'a World<S, M, H>,
    first: &'static str,
    h: HostNo,
    group: Word<'a>,
) -> EventWords<'a>
    requires { h.0 < length world.now.plan.hosts }
    ensures { words_text result ≡ first.now ∷ host_text world.now.plan h.0 ∷ word_text group.entry ∷ [] }
{
    words(first, Some(host(world, h)), Some(group), None, None)
}

// Two switches that have a link.
#[tactic(auto, using(crate::proofs::Ends::first_end, crate::proofs::Ends::second_end))]
fn pair_words<'a, S: SwitchLogic, M: ManagerLogic, H: HostLogic>(
    world: &'a World<S, M, H>,
    first: &'static str,
    a: SwitchNo,
    b: SwitchNo,
) -> EventWords<'a>
    requires { is_some (link_between world.now.plan a.0 b.0) ≡ true }
    ensures { words_text result ≡ first.now ∷ switch_text world.now.plan a.0 ∷ switch_text world.now.plan b.0 ∷ [] }
{
    // A wiring is a fat tree.
    let _hosts = world.wiring().hosts();
    let from = switch(world, a);
    let to = switch(world, b);
    words(first, Some(from), Some(to), None, None)
}

fn delivery_words<'a, S: SwitchLogic, M: ManagerLogic, H: HostLogic>(
    world: &'a World<S, M, H>,
    name: &QueueName,
) -> EventWords<'a>
    requires { refusal_of_queue (has_queue world.now.plan name.now) (is_filled world.now name.now) ≡ None }
    ensures { words_text result ≡ event_words world.now (Event.Deliver name.now) }
{
    match name {
        QueueName::FromHost(h) => from_host_words(world, *h),
        QueueName::Port(s, at) => along_words(world, "deliver", *s, *at),
        QueueName::ToManager(s) => {
            let from = switch(world, *s);
            words("deliver", Some(from), Some(text("manager")), None, None)
        }
        QueueName::FromManager(s) => {
            let to = switch(world, *s);
            words("deliver", Some(text("manager")), Some(to), None, None)
        }
    }
}

fn from_host_words<'a, S: SwitchLogic, M: ManagerLogic, H: HostLogic>(
    world: &'a World<S, M, H>,
    h: HostNo,
) -> EventWords<'a>
    requires { h.0 < length world.now.plan.hosts }
    ensures { words_text result ≡ codes "deliver" ∷ entering_words world.now h.0 (slice_get world.now.attachments h.0) }
{
    match world.place_of_host(h) {
        None => host_words(world, "deliver", h),
        Some(at) => entry_words(world, "deliver", h, at.edge, at.port),
    }
}

// From a port of a switch to the other end: a port of another switch, or the host that stands there, if one does.
fn along_words<'a, S: SwitchLogic, M: ManagerLogic, H: HostLogic>(
    world: &'a World<S, M, H>,
    first: &'static str,
    s: SwitchNo,
    at: u8,
) -> EventWords<'a>
    requires switch { s.0 < switch_count world.now.plan.k }
    requires port { at < world.now.plan.k }
    ensures { words_text result ≡ first.now ∷ along_words world.now s.0 at }
{
    let from = switch(world, s);
    match world.wiring().peer(s, at) {
        Peer::Switch(to, by) => {
            let to = switch(world, to);
            words(first, Some(from), Some(port(at)), Some(to), Some(port(by)))
        }
        Peer::HostPort => {
            let to = who_is_at(world, s, at);
            words(first, Some(from), Some(port(at)), Some(to), None)
        }
    }
}

// The host that stands at a port, if one does.
fn who_is_at<'a, S: SwitchLogic, M: ManagerLogic, H: HostLogic>(
    world: &'a World<S, M, H>,
    s: SwitchNo,
    at: u8,
) -> Word<'a>
    ensures { word_text result ≡ option_map_or (host_text world.now.plan) (host_at world.now s.0 at) (codes "-") }
{
    match world.host_at(s, at) {
        None => UNKNOWN,
        Some(h) => host(world, h),
    }
}

/// The switch of which an event speaks: the one that hears, tells or loses something, or that a link begins at.
pub(crate) fn node_of<S: SwitchLogic, M: ManagerLogic, H: HostLogic>(
    world: &World<S, M, H>,
    event: &Event,
) -> Option<SwitchNo>
    requires { refusal_of_event world.now event.now ≡ None }
    ensures { option_map (λ s. s.0) result ≡ node_of world.now event.now }
{
    match event {
        Event::Deliver(name) => node_of_delivery(world, name),
        Event::Tick(s) => Some(*s),
        Event::Fail(a, _) => Some(*a),
        Event::Repair(a, _) => Some(*a),
        Event::Lose(s, _) => Some(*s),
        Event::Move(_, s, _) => Some(*s),
        _ => None,
    }
}

fn node_of_delivery<S: SwitchLogic, M: ManagerLogic, H: HostLogic>(
    world: &World<S, M, H>,
    name: &QueueName,
) -> Option<SwitchNo>
    requires { refusal_of_queue (has_queue world.now.plan name.now) (is_filled world.now name.now) ≡ None }
    ensures { option_map (λ s. s.0) result ≡ node_of world.now (Event.Deliver name.now) }
{
    match name {
        QueueName::FromHost(h) => edge_of(world, *h),
        QueueName::Port(s, at) => Some(end_of(world, *s, *at)),
        QueueName::ToManager(s) => Some(*s),
        QueueName::FromManager(s) => Some(*s),
    }
}

// The switch at which a host stands.
fn edge_of<S: SwitchLogic, M: ManagerLogic, H: HostLogic>(
    world: &World<S, M, H>,
    h: HostNo,
) -> Option<SwitchNo>
    ensures { option_map (λ s. s.0) result ≡ node_of world.now (Event.Deliver (QueueName.FromHost h)) }
{
    match world.place_of_host(h) {
        None => None,
        Some(at) => Some(at.edge),
    }
}

// The switch at the other end of a port, or this one at a port for hosts.
fn end_of<S: SwitchLogic, M: ManagerLogic, H: HostLogic>(
    world: &World<S, M, H>,
    s: SwitchNo,
    at: u8,
) -> SwitchNo
    requires switch { s.0 < switch_count world.now.plan.k }
    requires port { at < world.now.plan.k }
    ensures { result.0 ≡ end_of s.0 (peer_of world.now.plan s.0 at) }
{
    match world.wiring().peer(s, at) {
        Peer::Switch(to, _) => to,
        Peer::HostPort => s,
    }
}
