ghost use Rattle.std.specs.Prelude.{◌≡◌, ◌<◌, ◌⊎◌, ℕ, ◌+◌, false, fold, true, List, [], Option, Some, slice_get};
ghost use Rattle.std.specs.BTreeMap.{insert_entry};
ghost use Rattle.std.specs.List.{AllByRecursion, list_any};
ghost use Rattle.pl_frame.specs.declared.address.SwitchId.{SwitchId};
ghost use Rattle.pl_layouts.specs.declared.place.Place.{Place};
ghost use Rattle.pl_layouts.specs.Equality.{same_switch};
ghost use Rattle.pl_layouts.specs.Placement.{is_known};
ghost use Rattle.pl_wiring.specs.Labels.{label_of};
ghost use Rattle.pl_wiring.specs.Plan.{IsPlan, Plan};
ghost use Rattle.pl_gathering.specs.Gathering.{Heard};
ghost use Rattle.pl_node.specs.declared.messages.ToManager.{ToManager};
ghost use Rattle.pl_node.specs.declared.pod_given.PodGiven.{PodGiven};
ghost use Rattle.pl_node.specs.ManagerViews.{ManagerView, Told, booted_manager, id_cmp, place_of, pod_given};
ghost use Rattle.pl_node.specs.declared.messages.ToSwitch.TheVariants.{Hello};
ghost use Rattle.pl_node.specs.SwitchInputs.{SwitchInput};
ghost use Rattle.pl_node.specs.SwitchInputs.SwitchInput.{Says};
ghost use Rattle.pl_node.specs.SwitchViews.{SwitchView};
ghost use Rattle.pl_steps.specs.Steps.{SwitchStep};
ghost use Rattle.pl_manager_rule.specs.ManagerRule.{manager_hears, with_asker, with_place};
ghost use Rattle.pl_manager_rule.specs.Repeats.{TablesAreInOrder};
ghost use Rattle.pl_manager_rule.specs.Treating.{Treating, treats};
ghost use Rattle.pl_manager_rule.specs.WholeRule.{whole_rule};
ghost use Rattle.pl_switch_rule.specs.Forwarding.{Choice};
ghost use Rattle.pl_switch_rule.specs.SwitchRule.{Loose, switch_step};
ghost use Rattle.pl_world.specs.declared.limits.Limits.{Limits};
ghost use Rattle.pl_world.specs.Booting.{booted};
ghost use Rattle.pl_law_control_plane.specs.ControlPlanes.{ControlPlane, control_plane, tells};
ghost use Rattle.pl_law_control_plane.specs.PlaneSteps.{WholeStep};
ghost use Rattle.pl_law_due.specs.Due.{due_plane, is_silent};
ghost use Rattle.pl_law_control_plane.specs.Restarts.{Restarts};
ghost use Rattle.pl_law_due.specs.Gathering.{GathersWell};
ghost use Rattle.pl_law_places.specs.Known.{IsZeroOf, pod_of};
ghost use Rattle.pl_law_places.specs.Places.{ArePlaced, ArePodNumbers};
ghost use Rattle.pl_law_votes.specs.Voting.{FixedAreApart};
ghost use Rattle.pl_law_pods.specs.Apart.{HasPod, KnowsNone, NumbersApart, tells_place};
ghost use Rattle.pl_law_pods.specs.Numbering.{AreNumbered, AreTrulyDue, GivesApart, own_pods};
ghost use Rattle.pl_law_pods.specs.Ways.{HaveOneWay, how_many, is_number, is_wish, one_if};

/// A number that was given stays with its switch, whoever asks after it.
pub fn a_number_stays_with_its_switch()
    ensures { (told : Told) (pods : List PodGiven) (asker switch : SwitchId) (n : ℕ) →
        pod_given pods switch ≡ Some n → pod_given (with_asker told pods asker) switch ≡ Some n }
{}

/// Numbers that edge switches know, and those that the manager gave in the present epoch, stay apart: where it
/// gives one to a switch that knows none, where it hears a place, where switches take numbers that they were given,
/// and where all that are known were told to a manager that began anew.
pub fn numbers_stay_apart_in_each_epoch()
    ensures asked { (id : ℕ → SwitchId) (known : ℕ → Option ℕ) (told : Told) (pods : List PodGiven) (asker : SwitchId) → NumbersApart id known told pods →
        (list_any (λ (g : PodGiven). same_switch g.switch asker) pods ≡ false → KnowsNone id known asker) →
        NumbersApart id known told (with_asker told pods asker) }
    ensures placed { (id : ℕ → SwitchId) (known : ℕ → Option ℕ) (told : Told) (pods : List PodGiven) (switch : SwitchId) (place : Place) →
        NumbersApart id known told pods → ((s n : ℕ) → known s ≡ Some n → (id s).0 ≡ switch.0 → (place.pod ≡ Some n) ⊎ (pod_given pods (id s) ≡ Some n)) →
        NumbersApart id known (record told { places = insert_entry id_cmp told.places switch place }) pods }
    ensures taken { (id : ℕ → SwitchId) (known after : ℕ → Option ℕ) (told : Told) (pods : List PodGiven) → NumbersApart id known told pods →
        ((s n : ℕ) → after s ≡ Some n → (known s ≡ Some n) ⊎ (pod_given pods (id s) ≡ Some n)) →
        ((s t m n : ℕ) → after s ≡ Some m → after t ≡ Some n → (id s).0 ≡ (id t).0 → s ≡ t) → NumbersApart id after told pods }
    ensures anew { (id : ℕ → SwitchId) (known : ℕ → Option ℕ) (told : Told) → ((s t n : ℕ) → known s ≡ Some n → known t ≡ Some n → s ≡ t) →
        ((s n : ℕ) → known s ≡ Some n → (place_of told (id s)).pod ≡ Some n) → NumbersApart id known told [] }
{}

/// Where a manager treats what it kept of the reports, and each place that a switch told has the pod that it knows, and
/// it told one, this stands in its place then. So before a wish is treated all pods that are known were told.
pub fn known_pods_are_told_behind_all_reports()
    ensures { (switch : SwitchId) (n : ℕ) (kept : List (Heard ToManager)) (known : Treating) → AllByRecursion (λ h. HasPod switch n h.switch h.word) kept →
        ((place_of known.view.told switch).pod ≡ Some n) ⊎ (list_any (λ h. tells_place switch h.switch h.word) kept ≡ true) →
        (place_of (fold (λ x h. (treats x h).known) known kept).view.told switch).pod ≡ Some n }
{}

/// A switch tells its wish for a pod once: in the step in which its position becomes 0. Only to a manager that began
/// anew it may tell it again.
pub fn a_wish_for_a_pod_is_told_once()
    ensures { (choose : Choice) (old : SwitchView) (input : SwitchInput) → let step : SwitchStep = switch_step choose old input in
        ((epoch : ℕ) → input ≡ Says (Hello epoch) → ⊥) → (old.place.position ≡ Some 0 → step.view.place.position ≡ Some 0) →
        (step.view.place.position ≡ Some 0 → step.view.place.level ≡ Some 0) →
        how_many is_wish (tells step.acts) + one_if (is_known old.place.position 0) ≡ one_if (is_known step.view.place.position 0) }
{}

/// By what is due, in all epochs of the manager: of an edge switch with position 0 that is not silent exactly one is
/// so: its wish is due, the number of its pod waits for it, or it knows the number. Of any other switch none is so. It is so at the
/// beginning, after each step, and where the manager begins anew.
pub fn an_edge_switch_with_position_0_is_on_one_way_to_its_pod()
    ensures first { (plan : Plan) (limits : Limits) → HaveOneWay (due_plane (control_plane (booted plan limits))) }
    ensures steps { (old new : ControlPlane) → IsPlan old.plan → GathersWell old → ArePlaced old.plan old → FixedAreApart old.plan old.view →
        FixedAreApart old.plan new.view → ArePodNumbers old → HaveOneWay (due_plane old) → WholeStep Loose whole_rule old new → HaveOneWay (due_plane new) }
    ensures restarts { (old new : ControlPlane) → IsPlan old.plan → Restarts old new → HaveOneWay (due_plane new) }
{}

/// While no report is missing, where the manager hears a wish of an edge switch with position 0 that knows no number,
/// or a place, numbers stay apart, and below how many pods there are.
pub fn hearing_keeps_numbers_apart_and_below_the_number_of_pods()
    ensures asked { (plane : ControlPlane) (pods : List PodGiven) (told : Told) (s : ℕ) (id : SwitchId) → IsPlan plane.plan → ArePlaced plane.plan plane →
        FixedAreApart plane.plan plane.view → GivesApart plane.plan plane.view told pods → slice_get plane.plan.ids s ≡ Some id →
        (plane.view s).place.position ≡ Some 0 → own_pods plane.view s ≡ None → GivesApart plane.plan plane.view told (with_asker told pods id) }
    ensures placed { (plane : ControlPlane) (pods : List PodGiven) (told : Told) (s : ℕ) (id : SwitchId) (place : Place) → IsPlan plane.plan →
        ArePlaced plane.plan plane → FixedAreApart plane.plan plane.view → GivesApart plane.plan plane.view told pods → slice_get plane.plan.ids s ≡ Some id →
        ((n : ℕ) → place.pod ≡ Some n → (plane.view s).place.pod ≡ Some n) →
        ((n : ℕ) → own_pods plane.view s ≡ Some n → (place.pod ≡ Some n) ⊎ (pod_given pods id ≡ Some n)) →
        GivesApart plane.plan plane.view (with_place told id place) pods }
{}

/// By what is due, in all epochs: a number that waits for a switch is the one that it was given, a wish is told with
/// position 0 alone, and a place that is told has no other pod than its switch. One that knows a number that it was not given in
/// this epoch tells it in each place.
pub fn what_is_due_is_true_of_pods()
    ensures first { (plan : Plan) (limits : Limits) → AreTrulyDue (due_plane (control_plane (booted plan limits))) }
    ensures steps { (old new : ControlPlane) → IsPlan old.plan → GathersWell old → ArePlaced old.plan old → FixedAreApart old.plan old.view →
        FixedAreApart old.plan new.view → ArePodNumbers old → AreTrulyDue (due_plane old) → WholeStep Loose whole_rule old new → AreTrulyDue (due_plane new) }
    ensures restarts { (old new : ControlPlane) → IsPlan old.plan → Restarts old new → AreTrulyDue (due_plane new) }
{}

/// The numbers of pods are in order in each epoch of the manager: at the beginning, after each step, and where the
/// manager begins anew.
pub fn numbers_are_in_order_in_each_epoch()
    ensures first { (plan : Plan) (limits : Limits) → AreNumbered (control_plane (booted plan limits)) }
    ensures steps { (old new : ControlPlane) → IsPlan old.plan → GathersWell old → ArePlaced old.plan old → FixedAreApart old.plan old.view →
        FixedAreApart old.plan new.view → AreNumbered old → WholeStep Loose whole_rule old new → AreNumbered new }
    ensures restarts { (old new : ControlPlane) → IsPlan old.plan → AreNumbered old → Restarts old new → AreNumbered new }
{}

/// Where they are, an edge switch with position 0 that is not silent knows its pod, unless its wish is due or the number
/// waits for it.
pub fn an_edge_switch_with_position_0_knows_its_pod_at_rest()
    ensures { (plane : ControlPlane) → IsPlan plane.plan → ArePlaced plane.plan plane → FixedAreApart plane.plan plane.view → AreNumbered plane →
        (s : ℕ) → (plane.view s).place.position ≡ Some 0 → is_silent plane.orders s ≡ false →
        ((id : SwitchId) → slice_get plane.plan.ids s ≡ Some id → list_any is_wish ((due_plane plane).reports s) ≡ false) →
        list_any is_number (plane.orders s) ≡ false → (n : ℕ) × ((plane.view s).place.pod ≡ Some n) }
{}

/// And each number that waits for a switch can be told. A known pod is the one that the pod's edge switch with
/// position 0 knows, and is below how many pods there are. And switches that know one number are of one pod.
pub fn numbers_in_order_are_known_apart()
    ensures told { (plane : ControlPlane) → IsPlan plane.plan → GathersWell plane → AreNumbered plane → ArePodNumbers plane }
    ensures known { (plane : ControlPlane) (s n : ℕ) → ArePlaced plane.plan plane → AreNumbered plane → (plane.view s).place.pod ≡ Some n →
        (z : ℕ) × IsZeroOf plane.plan.k plane.view s n z × (n < plane.plan.k) }
    ensures pods { (plane : ControlPlane) (s t n : ℕ) → ArePlaced plane.plan plane → AreNumbered plane → (plane.view s).place.pod ≡ Some n →
        (plane.view t).place.pod ≡ Some n → pod_of (label_of plane.plan.k s) ≡ pod_of (label_of plane.plan.k t) }
{}

/// Each table of what the manager knows rises by its keys, and each switch asked once: at first, and after each word
/// that it hears.
pub fn the_tables_of_the_manager_stay_in_order()
    ensures first { (k : ℕ) → TablesAreInOrder (booted_manager k) }
    ensures words { (before : ManagerView) (switch : SwitchId) (word : ToManager) → TablesAreInOrder before →
        TablesAreInOrder (manager_hears before switch word).view }
{}
