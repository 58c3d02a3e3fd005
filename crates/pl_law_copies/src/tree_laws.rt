ghost use Rattle.std.specs.Prelude.{◌≡◌, ◌≤◌, ℕ, List, reverse};
ghost use Rattle.pl_wiring.specs.Plan.{Plan};
ghost use Rattle.pl_journal.specs.Lossy.{copies_at};
ghost use Rattle.pl_journal.specs.Places.{EdgePort};
ghost use Rattle.pl_manager_rule.specs.WholeRule.{whole_rule};
ghost use Rattle.pl_switch_rule.specs.SwitchRule.{Loose};
ghost use Rattle.pl_world.specs.declared.limits.Limits.{Limits};
ghost use Rattle.pl_world.specs.Booting.{CanBegin, booted};
ghost use Rattle.pl_world.specs.Runs.{InEveryRun, Moment, WorldRun};
ghost use Rattle.pl_world.specs.Worlds.{WorldView};
ghost use Rattle.pl_law_control_plane.specs.ControlPlanes.{ControlPlane, control_plane};
ghost use Rattle.pl_law_due.specs.Due.{due_plane};
ghost use Rattle.pl_law_control_plane.specs.Restarts.{Restarts};
ghost use Rattle.pl_law_copies.specs.Alone.{AreAlone};
ghost use Rattle.pl_law_copies.specs.Copies.{ComesOnce, came_to};
ghost use Rattle.pl_law_copies.specs.Standing.{KnowTrees};
ghost use Rattle.pl_law_copies.specs.Trees.{AreTrees};

use pl_manager_rule::LawfulManager;
use pl_node::HostLogic;
use pl_switch_rule::LooseSwitch;

/// In every run what switches tell, and what is due or recorded of it, is so: each known part of a place is the
/// switch's own, each link is to a neighbour by the wiring, and edge switches alone tell of members. And each part
/// of a tree leads up to the next level and down to the one before. So each switch knows the tree around it. A manager
/// that begins anew leaves it so.
pub fn what_is_told_and_ordered_is_so_in_every_run<H: HostLogic>()
    ensures trees { InEveryRun Loose whole_rule H.rule (λ new. AreTrees new.plan (due_plane (control_plane new))) }
    ensures restarts { (plan : Plan) (f g : ControlPlane) → Restarts f g → AreTrees plan f → AreTrees plan g }
    ensures around { InEveryRun Loose whole_rule H.rule KnowTrees }
{}

/// In every run of the frames of one root at most one comes, or may still come, to each port for hosts.
pub fn one_copy_may_come_to_each_port_in_every_run<H: HostLogic>()
    ensures { InEveryRun Loose whole_rule H.rule ComesOnce }
{}

/// So of the frames of one root at most one is on its way up, and at most one waits in the queue out of each port.
pub fn frames_of_a_root_are_alone_in_every_run<H: HostLogic>()
    ensures { InEveryRun Loose whole_rule H.rule AreAlone }
{}

/// And of one broadcast or group frame at most one copy arrives at each port for hosts, whatever the wiring, the
/// events and the choices of the switches, and however often the manager begins anew.
pub fn one_copy_arrives_at_each_port_in_every_run<H: HostLogic>()
    ensures frames { (plan : Plan) (limits : Limits) (moments : List Moment) (new : WorldView) (r : ℕ) (there : EdgePort) → CanBegin plan →
        WorldRun Loose whole_rule H.rule (booted plan limits) moments new → came_to new.plan (reverse new.journal) r there ≤ 1 }
    ensures copies { (plan : Plan) (limits : Limits) (moments : List Moment) (new : WorldView) (r : ℕ) (there : EdgePort) → CanBegin plan →
        WorldRun Loose whole_rule H.rule (booted plan limits) moments new → copies_at new.plan (reverse new.journal) r there ≤ 1 }
{}

/// The same of each run of lawful logic.
pub fn lawful_logic_lets_one_copy_arrive<S: LooseSwitch, M: LawfulManager, H: HostLogic>()
    ensures { (plan : Plan) (limits : Limits) (moments : List Moment) (new : WorldView) (r : ℕ) (there : EdgePort) → CanBegin plan →
        WorldRun S.rule M.rule H.rule (booted plan limits) moments new → copies_at new.plan (reverse new.journal) r there ≤ 1 }
{}
