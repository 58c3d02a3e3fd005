ghost use Rattle.std.specs.Prelude.{◌≡◌, ◌≤◌, ◌+◌, ℕ, List, [], Some, map, length, reverse, slice_get};
ghost use Rattle.std.specs.List.{range_with_len};
ghost use Rattle.pl_wiring.specs.Plan.{Plan};
ghost use Rattle.pl_pmac.specs.declared.pmac.Pmac.{Pmac};
ghost use Rattle.pl_journal.specs.Places.{restarts};
ghost use Rattle.pl_node.specs.ManagerDuties.{AreNumbered, with_number};
ghost use Rattle.pl_node.specs.ManagerViews.{Registration, registration, restarted_manager};
ghost use Rattle.pl_node.specs.SwitchViews.{SwitchView};
ghost use Rattle.pl_world.specs.declared.event.Event.{Event};
ghost use Rattle.pl_world.specs.declared.event.Event.TheVariants.{Restart};
ghost use Rattle.pl_world.specs.declared.limits.Limits.{Limits};
ghost use Rattle.pl_world.specs.Booting.{booted};
ghost use Rattle.pl_world.specs.Drops.{written};
ghost use Rattle.pl_world.specs.Runs.{Moment, WorldRun};
ghost use Rattle.pl_world.specs.WorldRule.{WorldStep};
ghost use Rattle.pl_world.specs.Worlds.{WorldView};
ghost use Rattle.pl_law_records.specs.Entries.{AreInTurn, AreRising, last_number, last_registration, new_places, place_written, placings, registrations};

use pl_node::{HostLogic, ManagerLogic, SwitchLogic};

/// The entries that a step writes of places are those of the switches that know another place then than
/// before, with what they know then: one for each, and no other.
pub fn places_are_written_where_they_change<S: SwitchLogic, M: ManagerLogic, H: HostLogic>()
    ensures { (old : WorldView) (event : Event) (new : WorldView) → WorldStep S.rule M.rule H.rule old event new →
        placings (written old new) ≡ new_places 0 old.switches new.switches }
{}

/// Those that it writes of registrations are the addresses that the manager numbers in it: none was
/// registered before, the numbers are the next ones, in turn, and no other address is registered then that was
/// not. Where the manager kept nothing each of them is registered then. A manager that begins anew numbers none, and
/// knows nothing.
pub fn registrations_are_written_where_they_are_made<
    S: SwitchLogic,
    M: ManagerLogic,
    H: HostLogic,
>()
    ensures numbers { (old : WorldView) (event : Event) (new : WorldView) → WorldStep S.rule M.rule H.rule old event new → (event ≡ Restart → ⊥) →
        AreNumbered old.manager new.manager (registrations (written old new)) }
    ensures restarts { (old new : WorldView) → WorldStep S.rule M.rule H.rule old Restart new →
        (registrations (written old new) ≡ []) × (new.manager ≡ restarted_manager old.manager.k (old.manager.epoch + 1)) }
{}

/// So at each moment of each run from the beginning the place that a switch knows is what was written last
/// of it, or it knows nothing and nothing was written.
pub fn places_are_what_was_written_last_in_every_run<
    S: SwitchLogic,
    M: ManagerLogic,
    H: HostLogic,
>()
    ensures { (plan : Plan) (limits : Limits) (moments : List Moment) (new : WorldView) →
        WorldRun S.rule M.rule H.rule (booted plan limits) moments new →
        (s : ℕ) (v : SwitchView) → slice_get new.switches s ≡ Some v → place_written (reverse new.journal) s ≡ v.place }
{}

/// And a registered address has the number that the journal gave it last. Each number is the one after the last, and
/// behind the n-th restart the first is n × 2^32 + 1; the manager knows the last one. So as long as the manager did not
/// begin anew, they are 1, 2, 3 and so on; and over all restarts they rise, in a run that is limited to 4,000,000,000
/// steps.
pub fn addresses_are_registered_in_order_in_every_run<
    S: SwitchLogic,
    M: ManagerLogic,
    H: HostLogic,
>()
    ensures last { (plan : Plan) (limits : Limits) (moments : List Moment) (new : WorldView) →
        WorldRun S.rule M.rule H.rule (booted plan limits) moments new →
        (x : Pmac) (r : Registration) → registration new.manager.learnt x ≡ Some r → last_registration new.journal x ≡ Some (with_number r) }
    ensures count { (plan : Plan) (limits : Limits) (moments : List Moment) (new : WorldView) →
        WorldRun S.rule M.rule H.rule (booted plan limits) moments new →
        new.manager.learnt.count ≡ last_number (reverse new.journal) }
    ensures numbers { (plan : Plan) (limits : Limits) (moments : List Moment) (new : WorldView) →
        WorldRun S.rule M.rule H.rule (booted plan limits) moments new → AreInTurn (reverse new.journal) }
    ensures first { (plan : Plan) (limits : Limits) (moments : List Moment) (new : WorldView) →
        WorldRun S.rule M.rule H.rule (booted plan limits) moments new → restarts (reverse new.journal) ≡ 0 →
        (new.manager.learnt.count ≡ length (registrations new.journal)) ×
        (map (λ r. r.1) (registrations new.journal) ≡ range_with_len 1 (length (registrations new.journal))) }
    ensures rises { (plan : Plan) (limits : Limits) (moments : List Moment) (new : WorldView) → limits.steps ≤ 4000000000 →
        WorldRun S.rule M.rule H.rule (booted plan limits) moments new → AreRising (reverse new.journal) }
{}
