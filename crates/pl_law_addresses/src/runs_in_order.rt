ghost use Rattle.std.specs.Prelude.{◌≡◌, ◌≤◌, ◌<◌, ◌+◌, List};
ghost use Rattle.pl_manager_rule.specs.WholeRule.{whole_rule};
ghost use Rattle.pl_pmac.specs.declared.pmac.Pmac.{Pmac};
ghost use Rattle.pl_switch_rule.specs.SwitchRule.{Loose};
ghost use Rattle.pl_wiring.specs.Plan.{Plan};
ghost use Rattle.pl_world.specs.declared.event.Event.{Event};
ghost use Rattle.pl_world.specs.declared.limits.Limits.{Limits};
ghost use Rattle.pl_world.specs.Booting.{CanBegin, booted};
ghost use Rattle.pl_world.specs.Flying.{IsCounted};
ghost use Rattle.pl_world.specs.Runs.{Moment, WorldRun};
ghost use Rattle.pl_world.specs.WorldRule.{WorldStep};
ghost use Rattle.pl_world.specs.Worlds.{WorldView};
ghost use Rattle.pl_law_addresses.specs.Addressed.{AreApart, AreGrounded, IsLiveNowhere, KnowNeighbours};
ghost use Rattle.pl_law_addresses.specs.GrantedOnce.{StayUnlessFreed, times_freed, times_granted};
ghost use Rattle.pl_law_addresses.specs.InOrder.{GrantsAreInOrder};

use pl_node::{HostLogic, ManagerLogic};

/// At the beginning grants are in order: there is none, and hosts hold no frames.
pub fn grants_are_in_order_at_boot()
    ensures { (plan : Plan) (limits : Limits) → CanBegin plan → GrantsAreInOrder (booted plan limits) }
{}

/// Each step keeps them in order, a restart of the manager too, whichever candidates switches choose and whatever the rule
/// of the manager is, where placed edge switches stand apart after it, and no switch takes another switch for a host.
pub fn each_step_keeps_grants_in_order<M: ManagerLogic, H: HostLogic>()
    ensures { (old : WorldView) (event : Event) (new : WorldView) → IsCounted old → KnowNeighbours old → AreApart new.switches →
        WorldStep Loose M.rule H.rule old event new → GrantsAreInOrder old → GrantsAreInOrder new }
{}

/// So they are in order at each moment of every run whose worlds are all such ones.
pub fn grants_are_in_order_in_every_run<H: HostLogic>()
    ensures { (plan : Plan) (limits : Limits) (moments : List Moment) (new : WorldView) → CanBegin plan → AreGrounded H.rule plan limits →
        WorldRun Loose whole_rule H.rule (booted plan limits) moments new → GrantsAreInOrder new }
{}

/// No address is granted again before it was freed: at each moment of a run the journal has at most one entry
/// more that grants it than entries that free it.
pub fn no_address_is_granted_again_before_it_was_freed<H: HostLogic>()
    ensures { (plan : Plan) (limits : Limits) (moments : List Moment) (new : WorldView) (x : Pmac) → CanBegin plan → AreGrounded H.rule plan limits →
        WorldRun Loose whole_rule H.rule (booted plan limits) moments new → times_granted x new.journal ≤ times_freed x new.journal + 1 }
{}

/// An address that is granted was nobody's: between two moments of a run at which it was freed equally often, it
/// is granted only where it was nobody's at any switch at the first moment.
pub fn no_address_is_granted_while_it_is_somebodys<H: HostLogic>()
    ensures { (plan : Plan) (limits : Limits) (moments more : List Moment) (old new : WorldView) (x : Pmac) → CanBegin plan → AreGrounded H.rule plan limits →
        WorldRun Loose whole_rule H.rule (booted plan limits) moments old → WorldRun Loose whole_rule H.rule old more new →
        times_granted x old.journal < times_granted x new.journal → times_freed x new.journal ≡ times_freed x old.journal →
        IsLiveNowhere old.switches x }
{}

/// What is a host's stays so: at a later moment of a run each edge switch still has each address for the host
/// whose it was before, unless the journal says that it was freed since, and stands at its place if it was placed.
pub fn what_was_granted_stays_granted<H: HostLogic>()
    ensures { (plan : Plan) (limits : Limits) (moments more : List Moment) (old new : WorldView) → CanBegin plan → AreGrounded H.rule plan limits →
        WorldRun Loose whole_rule H.rule (booted plan limits) moments old → WorldRun Loose whole_rule H.rule old more new →
        StayUnlessFreed old.switches old.journal new.switches new.journal }
{}
