ghost use Rattle.std.specs.Prelude.{◌≡◌, None};
ghost use Rattle.pl_wiring.specs.Plan.{IsPlan, Plan};
ghost use Rattle.pl_manager_rule.specs.WholeRule.{whole_rule};
ghost use Rattle.pl_switch_rule.specs.SwitchRule.{Loose};
ghost use Rattle.pl_world.specs.declared.event.Event.{Event};
ghost use Rattle.pl_world.specs.declared.limits.Limits.{Limits};
ghost use Rattle.pl_world.specs.Booting.{booted};
ghost use Rattle.pl_world.specs.Flying.{IsCounted};
ghost use Rattle.pl_world.specs.Refusals.{refusal};
ghost use Rattle.pl_world.specs.Runs.{InEveryRun};
ghost use Rattle.pl_world.specs.WorldRule.{WorldStep};
ghost use Rattle.pl_world.specs.Worlds.{WorldView};
ghost use Rattle.pl_law_control_plane.specs.ControlPlanes.{ControlPlane, control_plane};
ghost use Rattle.pl_law_control_plane.specs.HostsAtEdges.{HostsAtEdges};
ghost use Rattle.pl_law_due.specs.Due.{due_plane};
ghost use Rattle.pl_law_control_plane.specs.Restarts.{Restarts};
ghost use Rattle.pl_law_due.specs.DueSteps.{DueStep};
ghost use Rattle.pl_law_due.specs.Gathering.{AreUnheard, GathersWell, IsSized};
ghost use Rattle.pl_law_invariant.specs.ControlInvariant.{ControlInvariant};
ghost use Rattle.pl_law_records.specs.Records.{AreCurrent, HaveOrders, HaveReported, HaveToldLinks, HaveToldNeighbours, NoReportWaits, LinksAreCurrent, LinksAreOfNeighbours, NamesNeighbours};

use pl_node::HostLogic;

/// At the beginning nothing was told, and there is nothing to tell.
pub fn the_records_begin_current()
    ensures reports { (plan : Plan) (limits : Limits) → HaveReported (due_plane (control_plane (booted plan limits))) }
    ensures orders { (plan : Plan) (limits : Limits) → HaveOrders (control_plane (booted plan limits)) }
{}

/// Each step keeps it that the last word of each switch on its place and its members that the manager is going
/// to treat, or treated, says what the switch would tell now: of each that is not silent. After a restart each is.
pub fn each_step_keeps_reports<H: HostLogic>()
    ensures steps { (old : WorldView) (event : Event) (new : WorldView) → ControlInvariant old → refusal old event ≡ None →
        WorldStep Loose whole_rule H.rule old event new →
        HaveReported (due_plane (control_plane old)) → HaveReported (due_plane (control_plane new)) }
    ensures epochs { (old new : ControlPlane) → IsPlan old.plan → AreUnheard old → DueStep Loose old new → HaveReported old → HaveReported new }
    ensures restarts { (old new : ControlPlane) → IsPlan old.plan → Restarts old new → HaveReported new }
{}

/// Each step keeps it that the last avoid list and the last tree parts that each switch was sent are those of
/// the manager's records, where reports to it are gathered in order; so do a step to what is due, and a restart,
/// after which each has none.
pub fn each_step_keeps_orders<H: HostLogic>()
    ensures steps { (old : WorldView) (event : Event) (new : WorldView) → IsCounted old → HostsAtEdges old → IsSized (control_plane old) →
        GathersWell (control_plane old) → refusal old event ≡ None →
        WorldStep Loose whole_rule H.rule old event new → HaveOrders (control_plane old) → HaveOrders (control_plane new) }
    ensures epochs { (old new : ControlPlane) → IsPlan old.plan → DueStep Loose old new → HaveOrders old → HaveOrders new }
    ensures restarts { (old new : ControlPlane) → IsPlan old.plan → Restarts old new → HaveOrders old → HaveOrders new }
{}

/// So in every run from the beginning the last report of each switch is what it would tell now, of each that is not
/// silent: the others have still to hear that the manager began anew.
pub fn reports_are_kept_in_every_run<H: HostLogic>()
    ensures { InEveryRun Loose whole_rule H.rule (λ new. HaveReported (due_plane (control_plane new))) }
{}

/// And in every run the last avoid list and the last tree parts that each switch was sent are those of the
/// manager's records.
pub fn orders_are_of_the_records_in_every_run<H: HostLogic>()
    ensures { InEveryRun Loose whole_rule H.rule (λ new. HaveOrders (control_plane new)) }
{}

/// Where no report and no order waits, the records are what the switches would tell now, and the switches hold
/// the avoid lists and the tree parts of the records.
pub fn records_are_current_at_rest()
    ensures { (plane : ControlPlane) → IsPlan plane.plan → GathersWell plane → HaveReported (due_plane plane) → HaveOrders plane → NoReportWaits plane →
        AreCurrent plane }
{}

/// At the beginning no link was told, and none is usable.
pub fn the_links_begin_current()
    ensures { (plan : Plan) (limits : Limits) → HaveToldLinks (due_plane (control_plane (booted plan limits))) }
{}

/// Each step keeps it that the last word of a switch on its link to another says whether its port is usable,
/// where after it the switches name their neighbours as the wiring has them: of each that is not silent.
pub fn each_step_keeps_links()
    ensures links { (old new : ControlPlane) → IsPlan old.plan → IsPlan new.plan → NamesNeighbours new → AreUnheard old → HaveToldLinks old →
        DueStep Loose old new → HaveToldLinks new }
    ensures others { (old new : ControlPlane) → IsPlan old.plan → IsPlan new.plan → NamesNeighbours new → AreUnheard old → HaveToldNeighbours old →
        DueStep Loose old new → HaveToldNeighbours new }
    ensures restarts { (old new : ControlPlane) → IsPlan old.plan → Restarts old new → HaveToldLinks new × HaveToldNeighbours new }
{}

/// So in every run from the beginning it says that.
pub fn links_are_told_in_every_run<H: HostLogic>()
    ensures { InEveryRun Loose whole_rule H.rule (λ new. HaveToldLinks (due_plane (control_plane new))) }
{}

/// Where no report and no order waits, the usable pairs of the records are what both ends would tell now.
pub fn usable_pairs_are_current_at_rest()
    ensures { (plane : ControlPlane) → IsPlan plane.plan → GathersWell plane → HaveToldLinks (due_plane plane) → NoReportWaits plane → LinksAreCurrent plane }
{}

/// In every run the last report of a switch on its link to another one says that it is not usable, where the
/// wiring does not join the two.
pub fn links_to_neighbours_alone_are_told_usable_in_every_run<H: HostLogic>()
    ensures { InEveryRun Loose whole_rule H.rule (λ new. HaveToldNeighbours (due_plane (control_plane new))) }
{}

/// So where no report and no order waits, each usable link of the records is one of the wiring.
pub fn usable_links_are_those_of_the_wiring_at_rest()
    ensures { (plane : ControlPlane) → IsPlan plane.plan → GathersWell plane → HaveToldNeighbours (due_plane plane) → NoReportWaits plane →
        LinksAreOfNeighbours plane }
{}
