ghost use Rattle.std.specs.Prelude.{◌≡◌, ◌<◌, ◌/◌};
ghost use Rattle.pl_node.specs.PortRecords.{is_usable_to, place_at};
ghost use Rattle.pl_layouts.specs.Placement.{is_known};
ghost use Rattle.pl_node.specs.SwitchFacts.{holder_of, is_answered, is_news};
ghost use Rattle.pl_fabric.specs.Settled.{holds_another, is_another, is_holder, would_change, would_change_by};

use pl_frame::SwitchId;
use pl_layouts::Place;
use pl_node::SwitchFacts;

// What the neighbour at a port is known to be.
fn place_at<F: SwitchFacts>(facts: &F, port: u8) -> Place
    requires { port < (F.view facts.now).k }
    ensures { result ≡ place_at (F.view facts.now) port }
{
    match facts.port(port).heard {
        Some(neighbour) => neighbour.place,
        None => Place {
            level: None,
            position: None,
            pod: None,
        },
    }
}

fn is_level(place: Place, level: u8) -> bool
    ensures { result ≡ is_known place.level level }
{
    match place.level {
        Some(known) => known == level,
        None => false,
    }
}

fn is_usable_to<F: SwitchFacts>(facts: &F, level: u8, port: u8) -> bool
    requires { port < (F.view facts.now).k }
    ensures { result ≡ is_usable_to (F.view facts.now) level port }
{
    facts.port(port).is_usable(facts.id()) && is_level(place_at(facts, port), level)
}

// Whether an aggregation switch answers who proposes this position at its port.
fn is_answered<F: SwitchFacts>(above: &F, port: u8, position: u8) -> bool
    requires { port < (F.view above.now).k }
    ensures answer { result ≡ is_answered (F.view above.now) port position }
{
    is_level(above.place(), 1) && is_level(place_at(above, port), 0) && position < above.k() / 2
}

fn is_holder(edge: SwitchId, hold: Option<(SwitchId, bool)>) -> bool
    ensures { result ≡ is_holder edge hold }
{
    match hold {
        Some((holder, _)) => holder.0 == edge.0,
        None => false,
    }
}

// Whether it holds a position for the edge switch, and that is another one.
fn is_another<F: SwitchFacts>(above: &F, edge: SwitchId, position: u8, p: u8) -> bool
    requires { p < (F.view above.now).k / 2 }
    ensures { result ≡ is_another (F.view above.now) edge position p }
{
    if p == position {
        false
    } else {
        is_holder(edge, above.hold(p))
    }
}

// Whether it holds another position for the edge switch.
fn holds_another<F: SwitchFacts>(above: &F, edge: SwitchId, position: u8) -> bool
    ensures { result ≡ holds_another (F.view above.now) edge position }
{
    for p in 0..above.k() / 2 {
        if is_another(above, edge, position, p) {
            return true;
        }
    }
    false
}

// Whether the answer to an attempt would tell the edge switch something new, or change the holder.
fn is_news<F: SwitchFacts>(edge: &F, port: u8, attempt: u32, hold: Option<(SwitchId, bool)>) -> bool
    requires { port < (F.view edge.now).k }
    ensures { result ≡ is_news (F.view edge.now) port attempt hold }
{
    match hold {
        None => true,
        Some((holder, fixed)) => {
            let me = edge.id();
            if holder.0 == me.0 {
                !edge.granted(port)
            } else {
                (fixed || holder.0 < me.0) && attempt != u32::MAX
            }
        }
    }
}

fn would_change_by<F: SwitchFacts>(
    edge: &F,
    port: u8,
    above: &F,
    there: u8,
    proposal: Option<(u32, u8)>,
) -> bool
    requires here { port < (F.view edge.now).k }
    requires there { there < (F.view above.now).k }
    ensures { result ≡ would_change_by (F.view edge.now) port (F.view above.now) there proposal }
{
    match proposal {
        None => false,
        Some((attempt, position)) => {
            if is_answered(above, there, position) {
                holds_another(above, edge.id(), position)
                    || is_news(edge, port, attempt, above.hold(position))
            } else {
                false
            }
        }
    }
}

/// Whether the proposal of an edge switch, sent again out of a port, would change something.
pub(crate) fn would_change<F: SwitchFacts>(edge: &F, port: u8, above: &F, there: u8) -> bool
    requires here { port < (F.view edge.now).k }
    requires there { there < (F.view above.now).k }
    ensures { result ≡ would_change (F.view edge.now) port (F.view above.now) there }
{
    if is_usable_to(edge, 1, port) {
        would_change_by(edge, port, above, there, edge.attempt())
    } else {
        false
    }
}
