ghost use Rattle.std.specs.Prelude.{◌<◌, ◌≤◌, ℕ, length, map, reverse};
ghost use Rattle.pl_wiring.specs.Labels.{label_of};
ghost use Rattle.pl_journal.specs.Flights.{trail};
ghost use Rattle.pl_journal.specs.Places.{EdgePort};
ghost use Rattle.pl_world.specs.Worlds.{WorldView};
ghost use Rattle.pl_bridge_rule.specs.Tree.{IsWay};
ghost use Rattle.pl_law_bridge.specs.Reaching.{got_since_move, times_reached};
ghost use Rattle.pl_law_bridge.specs.Reaching.Target.{Arrival, Crossing};
ghost use Rattle.pl_law_bridge.specs.TreeWorld.{KeepsToTree};
ghost use Rattle.pl_law_bridge.specs.Travelling.{ArriveAsSent, times_on};

/// Each switch is crossed at most once by a frame and its copies, and stands at most once in the line of
/// crossings of each of them.
pub fn no_switch_is_crossed_twice()
    ensures crossings { (w : WorldView) (r x : ℕ) → KeepsToTree w → times_reached w.plan (reverse w.journal) r (Crossing x) ≤ 1 }
    ensures lines { (w : WorldView) (id x : ℕ) → KeepsToTree w → times_on x (trail (reverse w.journal) id) ≤ 1 }
{}

/// Each line of crossings, the last one first, is a path of the tree.
pub fn a_line_of_crossings_is_a_path_of_the_tree()
    ensures { (w : WorldView) (id : ℕ) → KeepsToTree w → IsWay (map (label_of w.plan.k) (trail (reverse w.journal) id)) }
{}

/// Of a frame and its copies at most one arrives at each port for hosts.
pub fn one_copy_arrives_at_each_port()
    ensures { (w : WorldView) (r : ℕ) (there : EdgePort) → KeepsToTree w → times_reached w.plan (reverse w.journal) r (Arrival there) ≤ 1 }
{}

/// So a host gets at most one of them as long as it does not move.
pub fn a_host_that_stays_gets_one_copy()
    ensures { (w : WorldView) (r h : ℕ) → KeepsToTree w → h < length w.plan.hosts → got_since_move (reverse w.journal) r h ≤ 1 }
{}

/// Whatever arrives has the bytes of the frame that was sent, and a frame to one host arrives there alone.
pub fn frames_arrive_as_they_were_sent()
    ensures { (w : WorldView) → KeepsToTree w → ArriveAsSent w.plan (reverse w.journal) }
{}
