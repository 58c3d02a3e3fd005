ghost use Rattle.std.specs.Prelude.{◌≡◌, ◌≤◌, ◌<◌, ◌+◌, ℕ, List, Some, true, slice_get};
ghost use Rattle.pl_pmac.specs.declared.pmac.Pmac.{Pmac};
ghost use Rattle.pl_wiring.specs.Plan.{Plan};
ghost use Rattle.pl_node.specs.SwitchViews.{SwitchView};
ghost use Rattle.pl_manager_rule.specs.WholeRule.{whole_rule};
ghost use Rattle.pl_switch_rule.specs.SwitchRule.{Loose};
ghost use Rattle.pl_world.specs.declared.limits.Limits.{Limits};
ghost use Rattle.pl_world.specs.Booting.{CanBegin, booted};
ghost use Rattle.pl_world.specs.Runs.{InEveryRun, Moment, WorldRun};
ghost use Rattle.pl_world.specs.Worlds.{WorldView};
ghost use Rattle.pl_law_addresses.specs.Addressed.{AreGrounded, IsGrounded, IsLiveNowhere};
ghost use Rattle.pl_law_addresses.specs.EdgeAddresses.{is_live};
ghost use Rattle.pl_law_addresses.specs.GrantedOnce.{StayUnlessFreed, times_freed, times_granted};
ghost use Rattle.pl_law_addresses.specs.Standing.{StandsForNothing};
ghost use Rattle.pl_law_epochs.specs.InOrder.{IsAddressed};
ghost use Rattle.pl_law_invariant.specs.ControlInvariant.{ControlInvariant};

use pl_node::HostLogic;

/// Where all of it holds, no two placed edge switches have one pod and one position, and no switch takes the
/// switch at the other end of a link for a host.
pub fn placed_edge_switches_stand_apart()
    ensures { (w : WorldView) → ControlInvariant w → IsGrounded w }
{}

/// So it is in every run, which is all that the laws of addresses ask of other parts.
pub fn placed_edge_switches_stand_apart_in_every_run<H: HostLogic>()
    ensures { (plan : Plan) (limits : Limits) → CanBegin plan → AreGrounded H.rule plan limits }
{}

/// In no run an address is granted again before it was freed: at each moment the journal has at most one entry
/// more that grants it than entries that free it.
pub fn no_address_is_granted_again_before_it_was_freed_in_any_run<H: HostLogic>()
    ensures { (plan : Plan) (limits : Limits) (moments : List Moment) (new : WorldView) (x : Pmac) → CanBegin plan →
        WorldRun Loose whole_rule H.rule (booted plan limits) moments new → times_granted x new.journal ≤ times_freed x new.journal + 1 }
{}

/// An address that is granted was nobody's: between two moments of a run at which it was freed equally often, it
/// is granted only where at the first moment no trap stood from it or to it, no message to an edge switch spoke
/// of it, and the fabric manager did not know it.
pub fn no_address_is_granted_while_anything_stands_for_it_in_any_run<H: HostLogic>()
    ensures { (plan : Plan) (limits : Limits) (moments more : List Moment) (old new : WorldView) (x : Pmac) → CanBegin plan →
        WorldRun Loose whole_rule H.rule (booted plan limits) moments old → WorldRun Loose whole_rule H.rule old more new →
        times_granted x old.journal < times_granted x new.journal → times_freed x new.journal ≡ times_freed x old.journal →
        IsLiveNowhere old.switches x × StandsForNothing old x }
{}

/// At no moment of a run two edge switches have one address for a host.
pub fn no_two_edge_switches_grant_one_address_in_any_run<H: HostLogic>()
    ensures { (plan : Plan) (limits : Limits) (moments : List Moment) (new : WorldView) (s t : ℕ) (v u : SwitchView) (x : Pmac) → CanBegin plan →
        WorldRun Loose whole_rule H.rule (booted plan limits) moments new → slice_get new.switches s ≡ Some v → slice_get new.switches t ≡ Some u →
        is_live v x ≡ true → is_live u x ≡ true → s ≡ t }
{}

/// What is a host's stays so through the whole run, unless the journal says that it was freed since, and a placed
/// edge switch stays at its place.
pub fn what_was_granted_stays_granted_in_every_run<H: HostLogic>()
    ensures { (plan : Plan) (limits : Limits) (moments more : List Moment) (old new : WorldView) → CanBegin plan →
        WorldRun Loose whole_rule H.rule (booted plan limits) moments old → WorldRun Loose whole_rule H.rule old more new →
        StayUnlessFreed old.switches old.journal new.switches new.journal }
{}

/// In every run addresses are in order by what the manager is going to treat, as they are in each of its epochs, and each trap that
/// stands leads to an address of the same host that is somebody's.
pub fn addresses_are_in_order_by_what_is_due_in_every_run<H: HostLogic>()
    ensures { InEveryRun Loose whole_rule H.rule IsAddressed }
{}
