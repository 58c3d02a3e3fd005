ghost use Rattle.std.specs.Prelude.{◌≡◌, ◌≤◌, ◌<◌, ℕ, false, List, ◌∷◌, None, reverse};
ghost use Rattle.pl_wiring.specs.declared.link.Peer.TheVariants.{HostPort};
ghost use Rattle.pl_wiring.specs.Peers.{peer_of};
ghost use Rattle.pl_wiring.specs.Plan.{Plan};
ghost use Rattle.pl_journal.specs.Flights.{root, root_arrived_at};
ghost use Rattle.pl_journal.specs.Lossy.{copies_at};
ghost use Rattle.pl_journal.specs.Places.{EdgePort, at_port};
ghost use Rattle.pl_switch_rule.specs.SwitchRule.{Loose};
ghost use Rattle.pl_world.specs.declared.event.Event.{Event};
ghost use Rattle.pl_world.specs.declared.item.Item.{Item};
ghost use Rattle.pl_world.specs.declared.item.Item.TheVariants.{Data};
ghost use Rattle.pl_world.specs.declared.limits.Limits.{Limits};
ghost use Rattle.pl_world.specs.Booting.{booted};
ghost use Rattle.pl_world.specs.Changes.{out_of};
ghost use Rattle.pl_world.specs.Flying.{IsCounted};
ghost use Rattle.pl_world.specs.Refusals.{refusal};
ghost use Rattle.pl_world.specs.WorldRule.{WorldStep};
ghost use Rattle.pl_world.specs.Worlds.{WorldView};
ghost use Rattle.pl_law_copies.specs.Alone.{AreAlone};
ghost use Rattle.pl_law_copies.specs.Copies.{ComesOnce, came_to};
ghost use Rattle.pl_law_copies.specs.Standing.{KnowTrees};

use pl_node::{HostLogic, ManagerLogic};

/// At the beginning no frame came, and none may still come.
pub fn no_copy_is_on_its_way_at_first()
    ensures { (plan : Plan) (limits : Limits) → ComesOnce (booted plan limits) }
{}

/// Each step keeps it that of the frames of one root at most one came or may still come to each port, where
/// what the switches know of the tree around them is so: no switch lets more come to a port than came to
/// the switch itself.
pub fn each_step_lets_one_copy_come<M: ManagerLogic, H: HostLogic>()
    ensures { (old : WorldView) (event : Event) (new : WorldView) → IsCounted old → KnowTrees old → refusal old event ≡ None →
        WorldStep Loose M.rule H.rule old event new → ComesOnce old → ComesOnce new }
{}

/// So of one root at most one frame arrived at each port, and at most one of a group; and where a frame waits
/// at a port for hosts, none of its root arrived there before.
pub fn copies_come_once()
    ensures frames { (w : WorldView) (r : ℕ) (there : EdgePort) → ComesOnce w → came_to w.plan (reverse w.journal) r there ≤ 1 }
    ensures copies { (w : WorldView) (r : ℕ) (there : EdgePort) → ComesOnce w → copies_at w.plan (reverse w.journal) r there ≤ 1 }
    ensures first { (w : WorldView) (s port id : ℕ) (frame : List ℕ) (items : List Item) → ComesOnce w → port < w.plan.k →
        peer_of w.plan s port ≡ HostPort → out_of w s port ≡ Data id frame ∷ items →
        root_arrived_at w.plan (reverse w.journal) (root (reverse w.journal) id) (at_port s port) ≡ false }
{}

/// And at most one of a root is on its way up, and at most one waits in the queue out of each port.
pub fn frames_of_a_root_are_alone()
    ensures { (w : WorldView) → IsCounted w → ComesOnce w → AreAlone w }
{}
