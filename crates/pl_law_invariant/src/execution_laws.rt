ghost use Rattle.std.specs.Prelude.{ℕ, List};
ghost use Rattle.pl_world.specs.declared.event.Event.{Event};
ghost use Rattle.pl_world.specs.Worlds.{WorldView};
ghost use Rattle.pl_fabric.specs.declared.settling.Settling.{Settling};
ghost use Rattle.pl_fabric.specs.Executions.{Makes, MakesAll};
ghost use Rattle.pl_fabric.specs.Draws.{Draws};
ghost use Rattle.pl_fabric.specs.Rounds.{GoesRound, Sweeps, TicksAll};
ghost use Rattle.pl_fabric.specs.Settlings.{GoesRounds, Settles};
ghost use Rattle.pl_law_invariant.specs.ControlInvariant.{ControlInvariant};
ghost use Rattle.pl_law_invariant.specs.KeepsAll.{KeepsAll};

use pl_manager_rule::LawfulManager;
use pl_node::HostLogic;
use pl_switch_rule::LooseSwitch;

/// With lawful logic one event keeps all of it, whether it is refused or not; and so do events in order.
pub fn events_in_order_keep_all_of_it<S: LooseSwitch, M: LawfulManager, H: HostLogic>()
    ensures one { (event : Event) → KeepsAll (Makes S.rule M.rule H.rule event) }
    ensures many { (events : List Event) → KeepsAll (MakesAll S.rule M.rule H.rule events) }
    ensures ticks { KeepsAll (TicksAll S.rule M.rule H.rule) }
{}

/// So does a sweep.
pub fn a_sweep_keeps_all_of_it<S: LooseSwitch, M: LawfulManager, H: HostLogic>()
    ensures { KeepsAll (Sweeps S.rule M.rule H.rule) }
{}

/// So do a round, and as many rounds of a settling.
pub fn rounds_keep_all_of_it<S: LooseSwitch, M: LawfulManager, H: HostLogic>()
    ensures one { KeepsAll (GoesRound S.rule M.rule H.rule) }
    ensures many { (rounds : ℕ) → KeepsAll (GoesRounds S.rule M.rule H.rule rounds) }
{}

/// So does a settling, whatever it answers.
pub fn a_settling_keeps_all_of_it<S: LooseSwitch, M: LawfulManager, H: HostLogic>()
    ensures { (asked : ℕ) (old : WorldView) (answer : Settling) (new : WorldView) → ControlInvariant old →
        Settles S.rule M.rule H.rule asked old answer new → ControlInvariant new }
{}

/// So do steps that are drawn by numbers.
pub fn drawn_steps_keep_all_of_it<S: LooseSwitch, M: LawfulManager, H: HostLogic>()
    ensures { (steps number : ℕ) → KeepsAll (Draws S.rule M.rule H.rule steps number) }
{}
