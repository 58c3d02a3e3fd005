ghost use Rattle.std.specs.Prelude.{◌≡◌};
ghost use Rattle.pl_tables.specs.Ways.{asked_at_aggregation, asked_at_core, asked_at_edge, asked_for, is_home};

use pl_layouts::Place;
use pl_pmac::Pmac;
use pl_switch_rule::Came;

/// What a switch asks its tables for a unicast frame: the ports up that it need not avoid, those down
/// under a key, or nothing.
#[derive(Clone, Copy, Debug, PartialEq, Eq)]
pub enum Asked {
    Up,
    Down(u32),
    Nothing,
}

/// What a switch at this place asks.
pub(crate) fn asked_for(place: Place, to: Pmac, came: Came) -> Asked
    ensures { result ≡ asked_for place to came }
{
    match place.level {
        Some(0) => asked_at_edge(place, to, came),
        Some(1) => asked_at_aggregation(place, to, came),
        Some(2) => asked_at_core(to, came),
        _ => Asked::Nothing,
    }
}

fn asked_at_edge(place: Place, to: Pmac, came: Came) -> Asked
    ensures { result ≡ asked_at_edge place to came }
{
    match came {
        Came::FromHost if !is_home(place, to) => Asked::Up,
        _ => Asked::Nothing,
    }
}

fn is_home(place: Place, to: Pmac) -> bool
    ensures { result ≡ is_home place to }
{
    place.level == Some(0) && place.pod == Some(to.pod) && place.position == Some(to.position)
}

fn asked_at_aggregation(place: Place, to: Pmac, came: Came) -> Asked
    ensures { result ≡ asked_at_aggregation place to came }
{
    let is_own_pod = place.pod == Some(to.pod);
    match came {
        Came::FromBelow | Came::FromAbove if is_own_pod => Asked::Down(u32::from(to.position)),
        Came::FromBelow => Asked::Up,
        Came::FromHost | Came::FromAbove => Asked::Nothing,
    }
}

fn asked_at_core(to: Pmac, came: Came) -> Asked
    ensures { result ≡ asked_at_core to came }
{
    match came {
        Came::FromBelow => Asked::Down(u32::from(to.pod)),
        Came::FromHost | Came::FromAbove => Asked::Nothing,
    }
}
