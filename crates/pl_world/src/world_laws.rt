ghost use Rattle.std.specs.Prelude.{◌≡◌, ◌≤◌, ◌↔◌, ℕ, Contains, List, None};
ghost use Rattle.pl_wiring.specs.Plan.{IsPlan, Plan};
ghost use Rattle.pl_world.specs.declared.event.Event.{Event};
ghost use Rattle.pl_queues.specs.Queues.{items_at};
ghost use Rattle.pl_world.specs.declared.item.Item.TheVariants.{Control};
ghost use Rattle.pl_world.specs.declared.limits.Limits.{Limits};
ghost use Rattle.pl_world.specs.Booting.{CanBegin, booted};
ghost use Rattle.pl_world.specs.Drops.{dropped, drops_in, made, made_in, turn_of, written};
ghost use Rattle.pl_world.specs.Flying.{IsCounted};
ghost use Rattle.pl_world.specs.Hearing.{IsWithinHearing};
ghost use Rattle.pl_world.specs.Pending.{pending};
ghost use Rattle.pl_world.specs.Refusals.{refusal};
ghost use Rattle.pl_world.specs.Runs.{InEveryRun, Moment, WorldRun};
ghost use Rattle.pl_world.specs.SettledQueues.{HasSettledQueues};
ghost use Rattle.pl_world.specs.WorldRule.{WorldStep};
ghost use Rattle.pl_world.specs.Worlds.{WorldView};

use pl_node::{HostLogic, ManagerLogic, SwitchLogic};

/// A world at its beginning has no frames, and one of each for each host, switch and port.
pub fn a_new_world_has_its_frames_in_order()
    ensures { (plan : Plan) (limits : Limits) → CanBegin plan → IsCounted (booted plan limits) }
{}

/// Whatever the rules of switches, manager and hosts are, as long as switches account for their frames
/// and hosts send data frames: each frame that began has ended once, or is in one place of one queue,
/// before and after each event that is not refused.
pub fn each_step_keeps_its_frames_in_order<S: SwitchLogic, M: ManagerLogic, H: HostLogic>()
    ensures { (old : WorldView) (happens : Event) (new : WorldView) → IsCounted old →
        refusal old happens ≡ None → WorldStep S.rule M.rule H.rule old happens new → IsCounted new }
{}

/// So it is at each moment of each run from the beginning, whatever a script writes of itself between the
/// steps.
pub fn each_run_keeps_its_frames_in_order<S: SwitchLogic, M: ManagerLogic, H: HostLogic>()
    ensures { InEveryRun S.rule M.rule H.rule IsCounted }
{}

/// At each moment of each run the manager has heard the switches of the wiring alone, and has learnt no
/// more addresses than steps were made: so it can hear whatever comes next.
pub fn each_run_stays_within_hearing<S: SwitchLogic, M: ManagerLogic, H: HostLogic>()
    ensures { (plan : Plan) (limits : Limits) (moments : List Moment) (new : WorldView) → limits.steps ≤ 4000000000 →
        WorldRun S.rule M.rule H.rule (booted plan limits) moments new → IsWithinHearing new }
{}

/// Nothing is pending exactly where the queues are those of a settled fabric: each control frame in them is
/// the message that its sender would send there now, and no message to or from the manager waits but the
/// questions of hosts and what they bring about.
pub fn nothing_is_pending_exactly_where_the_queues_are_settled()
    ensures { (w : WorldView) → IsCounted w → (pending w ≡ 0) ↔ HasSettledQueues w }
{}

/// At each moment of each run a host's queue holds data frames alone.
pub fn hosts_have_no_control_frames_in_their_queues<S: SwitchLogic, M: ManagerLogic, H: HostLogic>()
    ensures { InEveryRun S.rule M.rule H.rule (λ new. (h : ℕ) (frame : List ℕ) → Contains (items_at new.from_hosts h) (Control frame) → ⊥) }
{}

/// The frames that a step drops, each with its cause, are just those that its own turn says (`dropped`): what a
/// switch's acts say of the frame that came and of those that it makes; what waits on a failed link, a lost
/// item, what waits of a host that moves and for it; and a frame that comes out of a port to nobody that it is
/// for, or to a host that is no member of its group. And so are the numbers of the frames that it makes.
pub fn a_step_drops_what_its_turn_says<S: SwitchLogic, M: ManagerLogic, H: HostLogic>()
    ensures drops { (old : WorldView) (happens : Event) (new : WorldView) (step : WorldStep S.rule M.rule H.rule old happens new) →
        IsPlan old.plan → drops_in (written old new) ≡ dropped old happens (turn_of S.rule M.rule H.rule old happens new step) }
    ensures makes { (old : WorldView) (happens : Event) (new : WorldView) (step : WorldStep S.rule M.rule H.rule old happens new) →
        IsPlan old.plan → made_in (written old new) ≡ made old happens (turn_of S.rule M.rule H.rule old happens new step) }
{}
