ghost use Rattle.std.specs.Prelude.{◌≡◌, ℕ, false, true, Some, slice_get};
ghost use Rattle.std.specs.List.{AllByRecursion};
ghost use Rattle.pl_frame.specs.declared.address.SwitchId.{SwitchId};
ghost use Rattle.pl_wiring.specs.Plan.{IsPlan, Plan};
ghost use Rattle.pl_gathering.specs.Gathering.{is_whole};
ghost use Rattle.pl_manager_rule.specs.WholeRule.{gathered, whole_rule};
ghost use Rattle.pl_switch_rule.specs.SwitchRule.{Loose};
ghost use Rattle.pl_world.specs.declared.limits.Limits.{Limits};
ghost use Rattle.pl_world.specs.Booting.{booted};
ghost use Rattle.pl_law_control_plane.specs.ControlPlanes.{ControlPlane, control_plane};
ghost use Rattle.pl_law_control_plane.specs.PlaneSteps.{WholeStep};
ghost use Rattle.pl_law_due.specs.Due.{due_plane, is_silent};
ghost use Rattle.pl_law_control_plane.specs.Restarts.{OnPlane, Restarts};
ghost use Rattle.pl_law_due.specs.DueSteps.{DueStep, OnDue};
ghost use Rattle.pl_law_due.specs.Gathering.{EpochsAgree, GathersWell, IsNoEnd, IsSized};

/// Where reports are gathered in order, each step in which no word is lost is one to what is due: a switch tells
/// and the manager treats as in a step of the control plane, or the manager treats all that it kept.
pub fn each_step_is_one_to_what_is_due()
    ensures { (old new : ControlPlane) → IsPlan old.plan → GathersWell old → WholeStep Loose whole_rule old new →
        DueStep Loose (due_plane old) (due_plane new) }
{}

/// And they are gathered in order still.
pub fn each_step_keeps_reports_gathered()
    ensures { (old new : ControlPlane) → IsPlan old.plan → GathersWell old → WholeStep Loose whole_rule old new → GathersWell new }
{}

/// At the beginning no report is missing, and nobody is silent.
pub fn nothing_is_missing_at_the_beginning()
    ensures { (plan : Plan) (limits : Limits) → IsPlan plan → GathersWell (control_plane (booted plan limits)) }
{}

/// Where the manager begins anew, nothing is due, each switch is silent, and reports are gathered in order.
pub fn a_restart_makes_nothing_due()
    ensures due { (old new : ControlPlane) → IsPlan old.plan → Restarts old new → Restarts (due_plane old) (due_plane new) }
    ensures gathered { (old new : ControlPlane) → IsPlan old.plan → Restarts old new → GathersWell new }
{}

/// So each step of the world, by which its manager steps or begins anew, is a step to what is due or a restart of it; reports
/// stay gathered in order, and the manager keeps the number of ports of its switches.
pub fn each_step_or_restart_is_one_to_what_is_due()
    ensures due { (old new : ControlPlane) → IsPlan old.plan → IsSized old → GathersWell old → OnPlane Loose whole_rule old new →
        OnDue Loose (due_plane old) (due_plane new) }
    ensures gathered { (old new : ControlPlane) → IsPlan old.plan → IsSized old → GathersWell old → OnPlane Loose whole_rule old new → GathersWell new }
    ensures sized { (old new : ControlPlane) → IsPlan old.plan → IsSized old → OnPlane Loose whole_rule old new → IsSized new }
    ensures epochs { (old new : ControlPlane) → IsPlan old.plan → IsSized old → GathersWell old → EpochsAgree old → OnPlane Loose whole_rule old new →
        EpochsAgree new }
{}

/// Where no report ends in a queue to the manager, and no order says that it began anew, none is missing.
pub fn no_report_is_missing_at_rest()
    ensures { (plane : ControlPlane) → IsPlan plane.plan → GathersWell plane → ((s : ℕ) → AllByRecursion IsNoEnd (plane.reports s)) →
        ((s : ℕ) (id : SwitchId) → slice_get plane.plan.ids s ≡ Some id → is_silent plane.orders s ≡ false) →
        is_whole (gathered plane.manager) ≡ true }
{}

/// The epoch of a switch is the manager's exactly where it is not silent: at the beginning, after each step, and after
/// a restart.
pub fn the_epoch_of_a_switch_is_the_managers_where_it_is_not_silent()
    ensures first { (plan : Plan) (limits : Limits) → EpochsAgree (control_plane (booted plan limits)) }
    ensures steps { (old new : ControlPlane) → IsPlan old.plan → GathersWell old → EpochsAgree old → WholeStep Loose whole_rule old new → EpochsAgree new }
    ensures restarts { (old new : ControlPlane) → IsPlan old.plan → EpochsAgree old → Restarts old new → EpochsAgree new }
{}
