ghost use Rattle.std.specs.Prelude.{◌≡◌, ◌==◌, ◌∷◌, take, option_map};
ghost use Rattle.std.specs.List.{list_any};
ghost use Rattle.pl_journal.specs.Flights.{are_different, falls, first_of, is_empty, is_good_leg, level_of, rises_and_falls};
ghost use Rattle.pl_past.specs.Kept.{is_single};
ghost use Rattle.pl_past_tables.specs.Legs.{numbers, switches_of, trail_of};

use pl_wiring::SwitchNo;

/// The last switches of a leg, at most five, the last one first.
#[derive(Clone, Copy, Debug)]
pub enum Leg {
    Empty,
    One(SwitchNo),
    Two(SwitchNo, SwitchNo),
    Three(SwitchNo, SwitchNo, SwitchNo),
    Four(SwitchNo, SwitchNo, SwitchNo, SwitchNo),
    Five(SwitchNo, SwitchNo, SwitchNo, SwitchNo, SwitchNo),
}

impl Leg {
    /// One switch more is crossed.
    pub(crate) fn with(self, s: SwitchNo) -> Leg
        ensures { switches_of result ≡ take 5 (s.0 ∷ switches_of self) }
    {
        match self {
            Leg::Empty => Leg::One(s),
            Leg::One(a) => Leg::Two(s, a),
            Leg::Two(a, b) => Leg::Three(s, a, b),
            Leg::Three(a, b, c) => Leg::Four(s, a, b, c),
            Leg::Four(a, b, c, d) | Leg::Five(a, b, c, d, _) => Leg::Five(s, a, b, c, d),
        }
    }

    /// The switch that was crossed last.
    pub fn last(self) -> Option<SwitchNo>
        ensures { option_map (λ s. s.0) result ≡ first_of (switches_of self) }
    {
        match self {
            Leg::Empty => None,
            Leg::One(a) => Some(a),
            Leg::Two(a, _) => Some(a),
            Leg::Three(a, _, _) => Some(a),
            Leg::Four(a, _, _, _) => Some(a),
            Leg::Five(a, _, _, _, _) => Some(a),
        }
    }

    /// Whether the leg and this switch behind it are at most five switches whose levels rise and then
    /// fall, and all different where the frame goes to one host.
    pub fn goes_on_to(self, to_group: bool, k: u8, s: SwitchNo) -> bool
        ensures { result ≡ is_good_leg to_group k (s.0 ∷ switches_of self) }
    {
        match self {
            Leg::Empty => is_good_leg(to_group, k, &[s]),
            Leg::One(a) => is_good_leg(to_group, k, &[s, a]),
            Leg::Two(a, b) => is_good_leg(to_group, k, &[s, a, b]),
            Leg::Three(a, b, c) => is_good_leg(to_group, k, &[s, a, b, c]),
            Leg::Four(a, b, c, d) => is_good_leg(to_group, k, &[s, a, b, c, d]),
            Leg::Five(..) => false,
        }
    }
}

/// How many switches a frame has crossed, and which one last.
#[derive(Clone, Copy, Debug)]
pub enum Trail {
    Empty,
    One(SwitchNo),
    More(SwitchNo, SwitchNo),
}

impl Trail {
    /// Whether no switch was crossed.
    pub fn is_empty(self) -> bool
        ensures { result ≡ is_empty (trail_of self) }
    {
        matches!(self, Trail::Empty)
    }

    /// Whether just one switch was crossed.
    pub fn is_single(self) -> bool
        ensures { result ≡ is_single (trail_of self) }
    {
        matches!(self, Trail::One(_))
    }

    /// One switch more is crossed.
    pub(crate) fn with(self, s: SwitchNo) -> Trail
        ensures { trail_of result ≡ take 2 (s.0 ∷ trail_of self) }
    {
        match self {
            Trail::Empty => Trail::One(s),
            Trail::One(a) | Trail::More(a, _) => Trail::More(s, a),
        }
    }

    /// The switch that was crossed last.
    pub fn last(self) -> Option<SwitchNo>
        ensures { option_map (λ s. s.0) result ≡ first_of (trail_of self) }
    {
        match self {
            Trail::Empty => None,
            Trail::One(a) => Some(a),
            Trail::More(a, _) => Some(a),
        }
    }
}

fn is_good_leg(to_group: bool, k: u8, switches: &[SwitchNo]) -> bool
    ensures { result ≡ is_good_leg to_group k (numbers switches.now) }
{
    switches.len() <= 5 && (to_group || are_different(switches)) && rises_and_falls(k, switches)
}

fn are_different(switches: &[SwitchNo]) -> bool
    ensures { result ≡ are_different (numbers switches.now) }
{
    match switches {
        [] => true,
        [s, rest @ ..] => !has(rest, *s) && are_different(rest),
    }
}

fn has(switches: &[SwitchNo], s: SwitchNo) -> bool
    ensures { result ≡ list_any (λ t. t == s.0) (numbers switches.now) }
{
    match switches {
        [] => false,
        [t, rest @ ..] => t.0 == s.0 || has(rest, s),
    }
}

fn rises_and_falls(k: u8, switches: &[SwitchNo]) -> bool
    ensures { result ≡ rises_and_falls k (numbers switches.now) }
{
    match switches {
        [] => true,
        [_] => true,
        [s, t, ..] => {
            if level(k, *s) < level(k, *t) {
                rises_and_falls(k, &switches[1..])
            } else {
                falls(k, switches)
            }
        }
    }
}

fn falls(k: u8, switches: &[SwitchNo]) -> bool
    ensures { result ≡ falls k (numbers switches.now) }
{
    match switches {
        [] => true,
        [_] => true,
        [s, t, ..] => level(k, *t) < level(k, *s) && falls(k, &switches[1..]),
    }
}

/// 0 for an edge switch, 1 for an aggregation switch, 2 for a core switch.
fn level(k: u8, s: SwitchNo) -> u8
    ensures { result ≡ level_of k s.0 }
{
    let edges = u32::from(k) * u32::from(k / 2);
    if s.0 < edges {
        0
    } else if s.0 < edges + edges {
        1
    } else {
        2
    }
}
