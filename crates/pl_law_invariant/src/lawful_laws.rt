ghost use Rattle.std.specs.Prelude.{◌≡◌, ◌≤◌, ◌<◌, ◌+◌, List};
ghost use Rattle.pl_pmac.specs.declared.pmac.Pmac.{Pmac};
ghost use Rattle.pl_wiring.specs.Plan.{Plan};
ghost use Rattle.pl_manager_rule.specs.WholeRule.{whole_rule};
ghost use Rattle.pl_switch_rule.specs.SwitchRule.{Loose};
ghost use Rattle.pl_world.specs.declared.limits.Limits.{Limits};
ghost use Rattle.pl_world.specs.Booting.{CanBegin, booted};
ghost use Rattle.pl_world.specs.Runs.{InEveryRun, Moment, WorldRun};
ghost use Rattle.pl_world.specs.Worlds.{WorldView};
ghost use Rattle.pl_law_addresses.specs.Addressed.{IsLiveNowhere};
ghost use Rattle.pl_law_addresses.specs.GrantedOnce.{StayUnlessFreed, times_freed, times_granted};
ghost use Rattle.pl_law_addresses.specs.Standing.{StandsForNothing};
ghost use Rattle.pl_law_invariant.specs.ControlInvariant.{ControlInvariant};

use pl_manager_rule::LawfulManager;
use pl_node::HostLogic;
use pl_switch_rule::LooseSwitch;

/// Each run of lawful logic is one under the loose rule and the rule of this fabric manager.
pub fn each_run_of_lawful_logic_is_a_run_of_the_rules<
    S: LooseSwitch,
    M: LawfulManager,
    H: HostLogic,
>()
    ensures { (old : WorldView) (moments : List Moment) (new : WorldView) → WorldRun S.rule M.rule H.rule old moments new →
        WorldRun Loose whole_rule H.rule old moments new }
{}

/// So all of it holds at each moment of each run of lawful logic from the beginning.
pub fn lawful_logic_keeps_all_of_it<S: LooseSwitch, M: LawfulManager, H: HostLogic>()
    ensures { InEveryRun S.rule M.rule H.rule ControlInvariant }
{}

/// They grant no address again before it was freed.
pub fn lawful_logic_grants_no_address_again_before_it_was_freed<
    S: LooseSwitch,
    M: LawfulManager,
    H: HostLogic,
>()
    ensures { (plan : Plan) (limits : Limits) (moments : List Moment) (new : WorldView) (x : Pmac) → CanBegin plan →
        WorldRun S.rule M.rule H.rule (booted plan limits) moments new → times_granted x new.journal ≤ times_freed x new.journal + 1 }
{}

/// Nor while a trap stands from it or to it, a message to an edge switch speaks of it, or the fabric manager knows it.
pub fn lawful_logic_grants_no_address_while_anything_stands_for_it<
    S: LooseSwitch,
    M: LawfulManager,
    H: HostLogic,
>()
    ensures { (plan : Plan) (limits : Limits) (moments more : List Moment) (old new : WorldView) (x : Pmac) → CanBegin plan →
        WorldRun S.rule M.rule H.rule (booted plan limits) moments old → WorldRun S.rule M.rule H.rule old more new →
        times_granted x old.journal < times_granted x new.journal → times_freed x new.journal ≡ times_freed x old.journal →
        IsLiveNowhere old.switches x × StandsForNothing old x }
{}

/// And what is a host's stays so until it is freed.
pub fn lawful_logic_keeps_what_it_granted<S: LooseSwitch, M: LawfulManager, H: HostLogic>()
    ensures { (plan : Plan) (limits : Limits) (moments more : List Moment) (old new : WorldView) → CanBegin plan →
        WorldRun S.rule M.rule H.rule (booted plan limits) moments old → WorldRun S.rule M.rule H.rule old more new →
        StayUnlessFreed old.switches old.journal new.switches new.journal }
{}
