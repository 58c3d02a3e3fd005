ghost use Rattle.std.specs.Prelude.{◌≡◌, ℕ, List, Some};
ghost use Rattle.pl_wiring.specs.declared.label.Label.TheVariants.{Edge};
ghost use Rattle.pl_wiring.specs.Labels.{IsLabel};
ghost use Rattle.pl_wiring.specs.Plan.{Plan};
ghost use Rattle.pl_world.specs.declared.limits.Limits.{Limits};
ghost use Rattle.pl_world.specs.Booting.{CanBegin, booted};
ghost use Rattle.pl_world.specs.Runs.{InEveryRun, Moment, WorldRun};
ghost use Rattle.pl_world.specs.SettledQueues.{HasSettledQueues};
ghost use Rattle.pl_world.specs.Worlds.{WorldView};
ghost use Rattle.pl_fabric.specs.declared.settling.Settling.TheVariants.{Settled};
ghost use Rattle.pl_fabric.specs.Settled.{IsSettled};
ghost use Rattle.pl_fabric.specs.Settlings.{Settles};
ghost use Rattle.pl_law_control_plane.specs.ControlPlanes.{control_plane};
ghost use Rattle.pl_law_votes.specs.Voting.{edge_no};
ghost use Rattle.pl_law_records.specs.Records.{AreCurrent, LinksAreCurrent};
ghost use Rattle.pl_law_placing.specs.Resting.{HasFirst, HavePositions};
ghost use Rattle.pl_law_settled.specs.AtPlace.{ReceiversArePlaced};
ghost use Rattle.pl_law_settled.specs.Whole.{IsWholePod};

use pl_manager_rule::LawfulManager;
use pl_node::HostLogic;
use pl_switch_rule::LooseSwitch;

/// In each run of lawful logic from the beginning, wherever the queues are settled, the manager's records are
/// what the switches would tell now, of places, members and links, and each switch holds the avoid list and
/// the tree parts of the records: those of the manager's present epoch, where it began anew.
pub fn records_are_current_in_every_run_where_queues_are_settled<
    S: LooseSwitch,
    M: LawfulManager,
    H: HostLogic,
>()
    ensures { InEveryRun S.rule M.rule H.rule (λ new. HasSettledQueues new → AreCurrent (control_plane new) × LinksAreCurrent (control_plane new)) }
{}

/// So it is in each such run where the fabric is settled. And each edge switch there that knows its level, of
/// a pod that lacks no link, has a position, and if there is one, one of the pod has position 0; and each that
/// received a frame of a host has level 0, a position and a pod.
pub fn settled_runs_have_current_records_and_positions<
    S: LooseSwitch,
    M: LawfulManager,
    H: HostLogic,
>()
    ensures records { InEveryRun S.rule M.rule H.rule (λ new. IsSettled new → AreCurrent (control_plane new) × LinksAreCurrent (control_plane new)) }
    ensures positions { InEveryRun S.rule M.rule H.rule (λ new. IsSettled new → (pod : ℕ) → IsWholePod new pod → HavePositions (control_plane new) pod) }
    ensures first { InEveryRun S.rule M.rule H.rule (λ new. IsSettled new → (pod : ℕ) → IsWholePod new pod → (i : ℕ) → IsLabel new.plan.k (Edge pod i) → ((control_plane new).view (edge_no new.plan.k pod i)).place.level ≡ Some 0 → HasFirst (control_plane new) pod) }
    ensures placed { InEveryRun S.rule M.rule H.rule (λ new. IsSettled new → (pod : ℕ) → IsWholePod new pod → ReceiversArePlaced new pod) }
{}

/// So it is where a settling of a fabric, at any moment of such a run, ends with the answer that it is
/// settled.
pub fn settlings_end_with_current_records_and_placed_edge_switches<
    S: LooseSwitch,
    M: LawfulManager,
    H: HostLogic,
>()
    ensures records { (plan : Plan) (limits : Limits) (moments : List Moment) (old : WorldView) (asked rounds : ℕ) (new : WorldView) → CanBegin plan →
        WorldRun S.rule M.rule H.rule (booted plan limits) moments old → Settles S.rule M.rule H.rule asked old (Settled rounds) new →
        AreCurrent (control_plane new) × LinksAreCurrent (control_plane new) }
    ensures placed { (plan : Plan) (limits : Limits) (moments : List Moment) (old : WorldView) (asked rounds : ℕ) (new : WorldView) → CanBegin plan →
        WorldRun S.rule M.rule H.rule (booted plan limits) moments old → Settles S.rule M.rule H.rule asked old (Settled rounds) new →
        (pod : ℕ) → IsWholePod new pod → ReceiversArePlaced new pod }
{}
