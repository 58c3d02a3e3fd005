ghost use Rattle.std.specs.Prelude.{◌≡◌, ℕ, Some, slice_get, true};
ghost use Rattle.pl_wiring.specs.declared.label.Label.TheVariants.{Edge};
ghost use Rattle.pl_wiring.specs.Labels.{IsLabel, switch_count};
ghost use Rattle.pl_wiring.specs.Plan.{IsPlan};
ghost use Rattle.pl_world.specs.SettledQueues.{HasSettledQueues};
ghost use Rattle.pl_world.specs.Worlds.{WorldView};
ghost use Rattle.pl_fabric.specs.Settled.{IsSettled, has_reports};
ghost use Rattle.pl_node.specs.SwitchViews.{SwitchView};
ghost use Rattle.pl_law_control_plane.specs.ControlPlanes.{control_plane};
ghost use Rattle.pl_law_votes.specs.Voting.{edge_no};
ghost use Rattle.pl_law_invariant.specs.ControlInvariant.{ControlInvariant};
ghost use Rattle.pl_law_due.specs.Due.{due_plane};
ghost use Rattle.pl_law_due.specs.Gathering.{GathersWell};
ghost use Rattle.pl_law_records.specs.Records.{AreCurrent, HaveOrders, HaveReported, HaveToldLinks, NoReportWaits, LinksAreCurrent};
ghost use Rattle.pl_law_placing.specs.Placing.{ArePlacing};
ghost use Rattle.pl_law_placing.specs.Resting.{FirstKnowsPod, HasFirst, HavePositions, IsRestingPod, KnowPod};
ghost use Rattle.pl_law_settled.specs.AtPlace.{ReceiversArePlaced};
ghost use Rattle.pl_law_settled.specs.Whole.{IsWholePod};

/// Where the queues are settled, as they are in a settled fabric, no report and no order waits.
pub fn settled_queues_are_at_rest()
    ensures queues { (w : WorldView) → HasSettledQueues w → NoReportWaits (control_plane w) }
    ensures settled { (w : WorldView) → IsSettled w → NoReportWaits (control_plane w) }
{}

/// So the manager's records are what the switches would tell now, of places, members and links, and each
/// switch holds the avoid list and the tree parts of the records.
pub fn records_are_current_where_queues_are_settled()
    ensures places { (w : WorldView) → IsPlan w.plan → GathersWell (control_plane w) → HaveReported (due_plane (control_plane w)) →
        HaveOrders (control_plane w) → HasSettledQueues w → AreCurrent (control_plane w) }
    ensures links { (w : WorldView) → IsPlan w.plan → GathersWell (control_plane w) → HaveToldLinks (due_plane (control_plane w)) → HasSettledQueues w →
        LinksAreCurrent (control_plane w) }
{}

/// A pod that lacks no link is at rest in a settled fabric.
pub fn a_settled_pod_is_at_rest()
    ensures { (w : WorldView) → ControlInvariant w → ArePlacing w → IsSettled w → (pod : ℕ) → IsWholePod w pod →
        IsRestingPod (control_plane w) pod }
{}

/// So each edge switch of it that knows its level has a position.
pub fn edge_switches_of_a_settled_pod_have_positions()
    ensures { (w : WorldView) → ControlInvariant w → ArePlacing w → IsSettled w → (pod : ℕ) → IsWholePod w pod →
        HavePositions (control_plane w) pod }
{}

/// If there is such an edge switch, one of the pod has position 0.
pub fn one_of_a_settled_pod_has_position_0()
    ensures { (w : WorldView) → ControlInvariant w → ArePlacing w → IsSettled w → (pod : ℕ) → IsWholePod w pod →
        (i : ℕ) → IsLabel w.plan.k (Edge pod i) → ((control_plane w).view (edge_no w.plan.k pod i)).place.level ≡ Some 0 → HasFirst (control_plane w) pod }
{}

/// An edge switch with position 0 knows its pod where the queues are settled, since its wish was heard and
/// answered; so each edge switch of the pod that knows its level does.
pub fn edge_switches_of_a_settled_pod_know_the_pod()
    ensures first { (w : WorldView) → ControlInvariant w → ArePlacing w → HasSettledQueues w → (pod : ℕ) → FirstKnowsPod (control_plane w) pod }
    ensures all { (w : WorldView) → ControlInvariant w → ArePlacing w → IsSettled w → (pod : ℕ) → IsWholePod w pod →
        KnowPod (control_plane w) pod }
{}

/// And each edge switch of it that received a frame of a host has level 0, a position and a pod.
pub fn edge_switches_of_a_settled_pod_that_received_frames_of_hosts_are_placed()
    ensures { (w : WorldView) → ControlInvariant w → ArePlacing w → IsSettled w → (pod : ℕ) → IsWholePod w pod →
        ReceiversArePlaced w pod }
{}

/// Where the queues are settled each switch has heard how often the manager began anew, and the manager has heard the
/// report of each: so the sixth point of a settled fabric follows from the second.
pub fn no_report_is_missing_where_queues_are_settled()
    ensures epochs { (w : WorldView) → ControlInvariant w → HasSettledQueues w → (s : ℕ) (v : SwitchView) → slice_get w.switches s ≡ Some v →
        v.epoch ≡ w.manager.epoch }
    ensures reports { (w : WorldView) → ControlInvariant w → HasSettledQueues w → has_reports w.manager (switch_count w.plan.k) ≡ true }
{}
