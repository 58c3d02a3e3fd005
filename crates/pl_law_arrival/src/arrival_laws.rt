ghost use Rattle.std.specs.Prelude.{◌≡◌, ◌≤◌, ℕ, Contains, List, None};
ghost use Rattle.pl_wiring.specs.declared.label.SwitchNo.{SwitchNo};
ghost use Rattle.pl_wiring.specs.Plan.{Plan};
ghost use Rattle.pl_journal.specs.declared.cause.Cause.{Cause};
ghost use Rattle.pl_journal.specs.declared.entry.Entry.TheVariants.{Arrived, Dropped, Sent, Taken};
ghost use Rattle.pl_journal.specs.Flights.{ends};
ghost use Rattle.pl_manager_rule.specs.WholeRule.{whole_rule};
ghost use Rattle.pl_switch_rule.specs.SwitchRule.{Loose};
ghost use Rattle.pl_queues.specs.Queues.{items_at};
ghost use Rattle.pl_world.specs.declared.event.Event.{Event};
ghost use Rattle.pl_world.specs.declared.item.Item.TheVariants.{Data};
ghost use Rattle.pl_world.specs.declared.limits.Limits.{Limits};
ghost use Rattle.pl_world.specs.Booting.{CanBegin, booted};
ghost use Rattle.pl_world.specs.Changes.{host_no};
ghost use Rattle.pl_world.specs.Flying.{IsCounted};
ghost use Rattle.pl_world.specs.Refusals.{refusal};
ghost use Rattle.pl_world.specs.Runs.{InEveryRun, Moment, WorldRun};
ghost use Rattle.pl_world.specs.WorldRule.{WorldStep};
ghost use Rattle.pl_world.specs.Worlds.{WorldView};
ghost use Rattle.pl_law_arrival.specs.Orderly.{IsOrderlyWorld};
ghost use Rattle.pl_law_arrival.specs.SureFrames.{IsSure};
ghost use Rattle.pl_law_arrival.specs.Ways.{Alike, fabric_of};
ghost use Rattle.pl_fabric.specs.Settled.{IsSettled};

use pl_manager_rule::LawfulManager;
use pl_node::{HostLogic, ManagerLogic, SwitchLogic};
use pl_switch_rule::LooseSwitch;

/// At each moment of each run of lawful logic from the beginning all is in order that arrival stands on.
pub fn each_run_is_orderly<S: LooseSwitch, M: LawfulManager, H: HostLogic>()
    ensures { InEveryRun S.rule M.rule H.rule IsOrderlyWorld }
{}

/// Between two settled moments that one step joins no link and no place changes, whatever the step is.
pub fn no_link_and_no_place_changes_between_settled_moments<H: HostLogic>()
    ensures { (old : WorldView) (event : Event) (new : WorldView) → IsOrderlyWorld old → IsOrderlyWorld new → IsSettled old → IsSettled new →
        refusal old event ≡ None → WorldStep Loose whole_rule H.rule old event new → Alike (fabric_of old) (fabric_of new) }
{}

/// What a step sends waits in the queue of its host then, whatever the rules of switches, manager and hosts are.
pub fn a_frame_waits_at_its_host_once_it_is_sent<S: SwitchLogic, M: ManagerLogic, H: HostLogic>()
    ensures { (old : WorldView) (event : Event) (new : WorldView) (id h : ℕ) (frame : List ℕ) → IsCounted old →
        WorldStep S.rule M.rule H.rule old event new → Contains new.journal (Sent id (host_no h) frame) →
        (Contains old.journal (Sent id (host_no h) frame) → ⊥) → Contains (items_at new.from_hosts h) (Data id frame) }
{}

/// In each run of lawful logic from the beginning, whatever its wiring, its events and the choices of the
/// switches: a sure frame that has ended has arrived at the host to which it was sent. The manager may have begun
/// anew before; it did not meanwhile, since a fabric is not settled until each switch has heard of that.
pub fn a_sure_frame_that_ends_has_arrived<S: LooseSwitch, M: LawfulManager, H: HostLogic>()
    ensures { (plan : Plan) (limits : Limits) (before moments : List Moment) (old new : WorldView) (id h g : ℕ) → CanBegin plan →
        WorldRun S.rule M.rule H.rule (booted plan limits) before old → IsSure S.rule M.rule H.rule old moments new id h g →
        1 ≤ ends new.journal id → (frame : List ℕ) × Contains new.journal (Arrived id (host_no g) frame) }
{}

/// And that stays its one end, whatever befalls the fabric then, a restart of the manager too: it is dropped for no
/// cause, no edge switch takes it, and no other host gets it.
pub fn a_sure_frame_has_no_other_end<S: LooseSwitch, M: LawfulManager, H: HostLogic>()
    ensures dropped { (plan : Plan) (limits : Limits) (before moments more : List Moment) (old new last : WorldView) (id h g : ℕ) (cause : Cause) → CanBegin plan →
        WorldRun S.rule M.rule H.rule (booted plan limits) before old → IsSure S.rule M.rule H.rule old moments new id h g →
        1 ≤ ends new.journal id → WorldRun S.rule M.rule H.rule new more last → Contains last.journal (Dropped id cause) → ⊥ }
    ensures taken { (plan : Plan) (limits : Limits) (before moments more : List Moment) (old new last : WorldView) (id h g : ℕ) (switch : SwitchNo) → CanBegin plan →
        WorldRun S.rule M.rule H.rule (booted plan limits) before old → IsSure S.rule M.rule H.rule old moments new id h g →
        1 ≤ ends new.journal id → WorldRun S.rule M.rule H.rule new more last → Contains last.journal (Taken id switch) → ⊥ }
    ensures elsewhere { (plan : Plan) (limits : Limits) (before moments more : List Moment) (old new last : WorldView) (id h g other : ℕ) (frame : List ℕ) → CanBegin plan →
        WorldRun S.rule M.rule H.rule (booted plan limits) before old → IsSure S.rule M.rule H.rule old moments new id h g →
        1 ≤ ends new.journal id → WorldRun S.rule M.rule H.rule new more last → (other ≡ g → ⊥) → Contains last.journal (Arrived id (host_no other) frame) → ⊥ }
{}
