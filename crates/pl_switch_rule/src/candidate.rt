ghost use Rattle.std.specs.Prelude.{◌≡◌, ◌<◌};
ghost use Rattle.pl_switch_rule.specs.Forwarding.{is_candidate, leads_from_aggregation, leads_from_core, leads_from_edge, leads_to_pod, leads_to_position, leads_up};

use crate::Came;
use pl_node::SwitchFacts;
use pl_pmac::Pmac;

/// Whether a frame for this pod and position may leave by a port of a switch.
pub fn is_candidate<F: SwitchFacts>(facts: &F, to: Pmac, came: Came, port: u8) -> bool
    requires { port < (F.view facts.now).k }
    ensures { result ≡ is_candidate (F.view facts.now) to came port }
{
    match facts.place().level {
        Some(0) => leads_from_edge(facts, to, came, port),
        Some(1) => leads_from_aggregation(facts, to, came, port),
        Some(2) => leads_from_core(facts, to, came, port),
        _ => false,
    }
}

fn leads_from_edge<F: SwitchFacts>(facts: &F, to: Pmac, came: Came, port: u8) -> bool
    requires { port < (F.view facts.now).k }
    ensures { result ≡ leads_from_edge (F.view facts.now) to came port }
{
    let place = facts.place();
    let is_local = place.level == Some(0)
        && place.pod == Some(to.pod)
        && place.position == Some(to.position);
    match came {
        Came::FromHost => !is_local && leads_up(facts, 1, to, port),
        Came::FromBelow | Came::FromAbove => false,
    }
}

fn leads_from_aggregation<F: SwitchFacts>(facts: &F, to: Pmac, came: Came, port: u8) -> bool
    requires { port < (F.view facts.now).k }
    ensures { result ≡ leads_from_aggregation (F.view facts.now) to came port }
{
    let is_own_pod = facts.place().pod == Some(to.pod);
    match came {
        Came::FromBelow if is_own_pod => leads_to_position(facts, to, port),
        Came::FromBelow => leads_up(facts, 2, to, port),
        Came::FromAbove => is_own_pod && leads_to_position(facts, to, port),
        Came::FromHost => false,
    }
}

fn leads_from_core<F: SwitchFacts>(facts: &F, to: Pmac, came: Came, port: u8) -> bool
    requires { port < (F.view facts.now).k }
    ensures { result ≡ leads_from_core (F.view facts.now) to came port }
{
    match came {
        Came::FromBelow => leads_to_pod(facts, to, port),
        Came::FromHost | Came::FromAbove => false,
    }
}

// A usable port to the level above, through which the addressed edge switch can be reached.
fn leads_up<F: SwitchFacts>(facts: &F, level: u8, to: Pmac, port: u8) -> bool
    requires { port < (F.view facts.now).k }
    ensures { result ≡ leads_up (F.view facts.now) level to port }
{
    let record = facts.port(port);
    match record.heard {
        Some(neighbour) => {
            record.is_usable(facts.id())
                && neighbour.place.level == Some(level)
                && !facts.avoids(neighbour.id, to.pod, to.position)
        }
        None => false,
    }
}

// A usable port to the edge switch of this position.
fn leads_to_position<F: SwitchFacts>(facts: &F, to: Pmac, port: u8) -> bool
    requires { port < (F.view facts.now).k }
    ensures { result ≡ leads_to_position (F.view facts.now) to port }
{
    let record = facts.port(port);
    match record.heard {
        Some(neighbour) => {
            record.is_usable(facts.id())
                && neighbour.place.level == Some(0)
                && neighbour.place.position == Some(to.position)
        }
        None => false,
    }
}

// A usable port to an aggregation switch of this pod.
fn leads_to_pod<F: SwitchFacts>(facts: &F, to: Pmac, port: u8) -> bool
    requires { port < (F.view facts.now).k }
    ensures { result ≡ leads_to_pod (F.view facts.now) to port }
{
    let record = facts.port(port);
    match record.heard {
        Some(neighbour) => {
            record.is_usable(facts.id())
                && neighbour.place.level == Some(1)
                && neighbour.place.pod == Some(to.pod)
        }
        None => false,
    }
}

#[cfg(test)]
mod tests;
