ghost use Rattle.std.specs.Prelude.{◌≡◌, ℕ, Option, Some, slice_get};
ghost use Rattle.pl_frame.specs.declared.address.Ip4.{Ip4};
ghost use Rattle.pl_frame.specs.declared.address.Mac.{Mac};
ghost use Rattle.pl_frame.specs.declared.address.SwitchId.{SwitchId};
ghost use Rattle.pl_pmac.specs.declared.pmac.Pmac.{Pmac};
ghost use Rattle.pl_wiring.specs.Plan.{IsPlan, Plan};
ghost use Rattle.pl_node.specs.declared.messages.ToSwitch.TheVariants.{Invalidate};
ghost use Rattle.pl_manager_rule.specs.WholeRule.{whole_rule};
ghost use Rattle.pl_switch_rule.specs.Granting.{granted};
ghost use Rattle.pl_switch_rule.specs.SwitchRule.{Loose};
ghost use Rattle.pl_world.specs.declared.limits.Limits.{Limits};
ghost use Rattle.pl_world.specs.Booting.{booted};
ghost use Rattle.pl_law_control_plane.specs.ControlPlanes.{ControlPlane, control_plane};
ghost use Rattle.pl_law_control_plane.specs.PlaneSteps.{WholeStep};
ghost use Rattle.pl_law_due.specs.Due.{due_plane};
ghost use Rattle.pl_law_control_plane.specs.Restarts.{Restarts};
ghost use Rattle.pl_law_due.specs.DueSteps.{DueStep};
ghost use Rattle.pl_law_due.specs.Gathering.{AreUnheard, GathersWell};
ghost use Rattle.pl_law_addresses.specs.EdgeAddresses.{IsHeldFor};
ghost use Rattle.pl_law_epochs.specs.Addressed.{AreAddressed, AreApart, IsFairDue};
ghost use Rattle.pl_law_epochs.specs.Leading.{LeadsOn, ReleasesHeardOut, TrapsLead};
ghost use Rattle.pl_law_epochs.specs.Trapping.{TrapsAreReported};

/// That a trap stands is told in reports alone: at the beginning, after each step, and after a restart.
pub fn traps_are_told_in_reports_alone()
    ensures first { (plan : Plan) (limits : Limits) → TrapsAreReported (control_plane (booted plan limits)) }
    ensures steps { (old new : ControlPlane) → IsPlan old.plan → GathersWell old → TrapsAreReported old → WholeStep Loose whole_rule old new →
        TrapsAreReported new }
    ensures restarts { (old new : ControlPlane) → IsPlan old.plan → Restarts old new → TrapsAreReported new }
{}

/// So the manager releases addresses only while each switch has heard of the epoch and each trap that stands was reported.
pub fn addresses_are_released_once_traps_were_reported()
    ensures { (old new : ControlPlane) → IsPlan old.plan → GathersWell old → TrapsAreReported old → (step : WholeStep Loose whole_rule old new) →
        (due : DueStep Loose (due_plane old) (due_plane new)) × ReleasesHeardOut Loose (due_plane old) (due_plane new) due }
{}

/// Each step to what is due leaves each trap at an address that is somebody's, the same host's, and that no order releases, where
/// the manager releases addresses only while each switch has heard of the epoch and each trap that stands was reported.
pub fn each_step_leaves_traps_at_live_addresses()
    ensures { (own : Mac → Option Ip4) (old new : ControlPlane) → IsPlan old.plan → AreUnheard old → AreApart old.view → AreApart new.view →
        (step : DueStep Loose old new) → IsFairDue own Loose old new step → ReleasesHeardOut Loose old new step → AreAddressed own old →
        TrapsLead old → TrapsLead new }
{}

/// And so does a manager that begins anew.
pub fn a_restart_leaves_traps_at_live_addresses()
    ensures { (old new : ControlPlane) → IsPlan old.plan → Restarts old new → TrapsLead old → TrapsLead new }
{}

/// Where addresses are in order, each order that sets a trap leads to an address that is somebody's, the same host's, and that
/// no order releases.
pub fn an_order_sets_a_trap_to_a_live_address()
    ensures { (own : Mac → Option Ip4) (f : ControlPlane) → AreAddressed own f → (s : ℕ) (id : SwitchId) → slice_get f.plan.ids s ≡ Some id →
        (x new : Pmac) (number : ℕ) (ip : Option Ip4) (i : ℕ) → slice_get (f.orders s) i ≡ Some (Invalidate x new number ip) →
        (mac : Mac) → IsHeldFor (λ z. granted (f.view s) z) x mac → LeadsOn f.plan f.view f.orders new mac }
{}
