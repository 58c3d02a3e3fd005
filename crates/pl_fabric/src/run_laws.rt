ghost use Rattle.std.specs.Prelude.{◌≡◌, ℕ, List, Option};
ghost use Rattle.pl_wiring.specs.Plan.{IsPlan, Plan};
ghost use Rattle.pl_world.specs.declared.error.StepError.{StepError};
ghost use Rattle.pl_world.specs.QueueOrder.{queue_order};
ghost use Rattle.pl_world.specs.Runs.{Moment, WorldRun};
ghost use Rattle.pl_world.specs.Worlds.{WorldView};
ghost use Rattle.pl_fabric.specs.Draws.{Draws};
ghost use Rattle.pl_fabric.specs.Rounds.{Sweeps, queues_from};
ghost use Rattle.pl_fabric.specs.Settlings.{GoesRounds};

use pl_node::{HostLogic, ManagerLogic, SwitchLogic};

/// What a sweep does is a run: steps one after the other, none of which is refused. So what holds of each
/// run holds of it.
pub fn a_sweep_is_a_run<S: SwitchLogic, M: ManagerLogic, H: HostLogic>()
    ensures { (old new : WorldView) (end : Option StepError) → Sweeps S.rule M.rule H.rule old end new →
        (moments : List Moment) × WorldRun S.rule M.rule H.rule old moments new }
{}

/// So is what the rounds of a settling do.
pub fn the_rounds_of_a_settling_are_a_run<S: SwitchLogic, M: ManagerLogic, H: HostLogic>()
    ensures { (rounds : ℕ) (old new : WorldView) (end : Option StepError) → GoesRounds S.rule M.rule H.rule rounds old end new →
        (moments : List Moment) × WorldRun S.rule M.rule H.rule old moments new }
{}

/// And so are steps that are drawn by numbers.
pub fn drawn_steps_are_a_run<S: SwitchLogic, M: ManagerLogic, H: HostLogic>()
    ensures { (steps number : ℕ) (old new : WorldView) (end : Option StepError) → Draws S.rule M.rule H.rule steps number old end new →
        (moments : List Moment) × WorldRun S.rule M.rule H.rule old moments new }
{}

/// A sweep visits all queues in queue order.
pub fn a_sweep_visits_the_queues_in_queue_order()
    ensures { (plan : Plan) → IsPlan plan → queues_from plan 0 ≡ queue_order plan }
{}
