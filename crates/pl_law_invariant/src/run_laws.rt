ghost use Rattle.std.specs.Prelude.{List};
ghost use Rattle.pl_wiring.specs.Plan.{Plan};
ghost use Rattle.pl_world.specs.declared.limits.Limits.{Limits};
ghost use Rattle.pl_world.specs.Booting.{CanBegin, booted};
ghost use Rattle.pl_world.specs.Runs.{Moment, WorldRun};
ghost use Rattle.pl_world.specs.Worlds.{WorldView};
ghost use Rattle.pl_law_invariant.specs.ControlInvariant.{ControlInvariant};

use pl_manager_rule::LawfulManager;
use pl_node::HostLogic;
use pl_switch_rule::LooseSwitch;

/// All of it holds at the beginning, whatever the wiring that a world can begin with.
pub fn all_of_it_holds_at_the_beginning()
    ensures { (plan : Plan) (limits : Limits) → CanBegin plan → ControlInvariant (booted plan limits) }
{}

/// Where all of it holds before a run of lawful logic, all of it holds after the run.
pub fn runs_of_lawful_logic_keep_all_of_it<S: LooseSwitch, M: LawfulManager, H: HostLogic>()
    ensures { (old : WorldView) (moments : List Moment) (new : WorldView) → ControlInvariant old →
        WorldRun S.rule M.rule H.rule old moments new → ControlInvariant new }
{}
