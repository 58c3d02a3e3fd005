ghost use Rattle.std.specs.Prelude.{◌≡◌, None};
ghost use Rattle.pl_wiring.specs.Plan.{Plan};
ghost use Rattle.pl_switch_rule.specs.SwitchRule.{Loose};
ghost use Rattle.pl_world.specs.declared.event.Event.{Event};
ghost use Rattle.pl_world.specs.declared.limits.Limits.{Limits};
ghost use Rattle.pl_world.specs.Booting.{CanBegin, booted};
ghost use Rattle.pl_world.specs.Flying.{IsCounted};
ghost use Rattle.pl_world.specs.Refusals.{refusal};
ghost use Rattle.pl_world.specs.WorldRule.{WorldStep};
ghost use Rattle.pl_world.specs.Worlds.{WorldView};
ghost use Rattle.pl_law_flights.specs.OnTheWay.{IsJournaled};
ghost use Rattle.pl_law_flights.specs.Given.{IsGroundForStep};

use pl_node::{HostLogic, ManagerLogic};

/// At the beginning the journal says nothing, links are live, hosts stand where the wiring has them, and no
/// frame is on its way.
pub fn the_journal_says_what_is_so_at_first()
    ensures { (plan : Plan) (limits : Limits) → CanBegin plan → IsJournaled (booted plan limits) }
{}

/// Each step keeps the journal a run of the one lossy switch with good trails, and each frame in a queue
/// where the journal says that it is on its way, with the bytes that it arrives with, as far as what
/// switches, hosts and the manager know is so.
pub fn each_step_keeps_the_journal_true<M: ManagerLogic, H: HostLogic>()
    ensures { (old : WorldView) (event : Event) (new : WorldView) → IsCounted old → IsGroundForStep M.rule H.rule old new → refusal old event ≡ None →
        WorldStep Loose M.rule H.rule old event new → IsJournaled old → IsJournaled new }
{}
