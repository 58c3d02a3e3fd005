ghost use Rattle.std.specs.Prelude.{◌≡◌, ℕ, List, Some};
ghost use Rattle.pl_world.specs.declared.error.StepError.{StepError};
ghost use Rattle.pl_world.specs.declared.event.Event.{Event};
ghost use Rattle.pl_world.specs.Worlds.{WorldView};
ghost use Rattle.pl_law_runs.specs.NoChoice.{LeavesHostNoChoice, LeavesManagerNoChoice, LeavesSwitchNoChoice};
ghost use Rattle.pl_fabric.specs.declared.settling.Settling.{Settling};
ghost use Rattle.pl_fabric.specs.Executions.{Makes, MakesAll};
ghost use Rattle.pl_fabric.specs.Draws.{Draws};
ghost use Rattle.pl_fabric.specs.Rounds.{GoesRound, Sweeps, TicksAll};
ghost use Rattle.pl_fabric.specs.Settlings.{GoesRounds, Settles};
ghost use Rattle.pl_law_executions.specs.OneWay.{IsOneWay};

use pl_node::{HostLogic, ManagerLogic, SwitchLogic};

/// With rules that leave no choice one event comes to one end, whether it is refused or not, and to one
/// world; and so do events in order.
pub fn events_in_order_go_one_way<S: SwitchLogic, M: ManagerLogic, H: HostLogic>()
    ensures one { LeavesSwitchNoChoice S.rule → LeavesManagerNoChoice M.rule → LeavesHostNoChoice H.rule →
        (event : Event) → IsOneWay (Makes S.rule M.rule H.rule event) }
    ensures many { LeavesSwitchNoChoice S.rule → LeavesManagerNoChoice M.rule → LeavesHostNoChoice H.rule →
        (events : List Event) → IsOneWay (MakesAll S.rule M.rule H.rule events) }
    ensures ticks { LeavesSwitchNoChoice S.rule → LeavesManagerNoChoice M.rule → LeavesHostNoChoice H.rule →
        IsOneWay (TicksAll S.rule M.rule H.rule) }
{}

/// So does a sweep.
pub fn a_sweep_goes_one_way<S: SwitchLogic, M: ManagerLogic, H: HostLogic>()
    ensures { LeavesSwitchNoChoice S.rule → LeavesManagerNoChoice M.rule → LeavesHostNoChoice H.rule →
        IsOneWay (Sweeps S.rule M.rule H.rule) }
{}

/// So do a round, and as many rounds of a settling.
pub fn rounds_go_one_way<S: SwitchLogic, M: ManagerLogic, H: HostLogic>()
    ensures one { LeavesSwitchNoChoice S.rule → LeavesManagerNoChoice M.rule → LeavesHostNoChoice H.rule →
        IsOneWay (GoesRound S.rule M.rule H.rule) }
    ensures many { LeavesSwitchNoChoice S.rule → LeavesManagerNoChoice M.rule → LeavesHostNoChoice H.rule →
        (rounds : ℕ) → IsOneWay (GoesRounds S.rule M.rule H.rule rounds) }
{}

/// A settling comes to one answer and to one world; and one that answers is never one that is refused a
/// step.
pub fn a_settling_goes_one_way<S: SwitchLogic, M: ManagerLogic, H: HostLogic>()
    ensures answer { LeavesSwitchNoChoice S.rule → LeavesManagerNoChoice M.rule → LeavesHostNoChoice H.rule →
        (asked : ℕ) (old one other : WorldView) (first second : Settling) → Settles S.rule M.rule H.rule asked old first one →
        Settles S.rule M.rule H.rule asked old second other → (first ≡ second) × (one ≡ other) }
    ensures unrefused { LeavesSwitchNoChoice S.rule → LeavesManagerNoChoice M.rule → LeavesHostNoChoice H.rule →
        (asked : ℕ) (old one other : WorldView) (answer : Settling) (reason : StepError) → Settles S.rule M.rule H.rule asked old answer one →
        GoesRounds S.rule M.rule H.rule asked old (Some reason) other → ⊥ }
{}

/// Steps that are drawn by the same numbers come to one end, and to one world.
pub fn drawn_steps_go_one_way<S: SwitchLogic, M: ManagerLogic, H: HostLogic>()
    ensures { LeavesSwitchNoChoice S.rule → LeavesManagerNoChoice M.rule → LeavesHostNoChoice H.rule →
        (steps number : ℕ) → IsOneWay (Draws S.rule M.rule H.rule steps number) }
{}
