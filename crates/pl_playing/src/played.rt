ghost use Rattle.std.specs.Prelude.{◌≡◌, ◌<◌, ◌-◌, ◌^◌, ◌↔◌, IfErr, IfOk, IsTrue, Some, length, slice_index_or, [], string_bytes};
ghost use Rattle.pl_inputs.specs.Loaded.{files_of, inputs_of};
ghost use Rattle.pl_inputs.specs.Records.{records_of};
ghost use Rattle.pl_fabric.specs.Drains.{IsDrained};
ghost use Rattle.pl_fabric.specs.Settled.{IsSettled};
ghost use Rattle.pl_world.specs.Flying.{IsCounted};
ghost use Rattle.pl_script_rule.specs.Lines.{left_of};
ghost use Rattle.pl_script_rule.specs.declared.stop.Stop.TheVariants as stop;
ghost use Rattle.pl_playing.specs.Networks.{PlaysTo};
ghost use Rattle.pl_playing.specs.Outcomes.{held_at, outcome, rests_from};
ghost use Rattle.pl_playing.specs.Plays.{IsPlayedOver, IsUnplayed, played_over, summary_by};

use pl_fabric::{drained, settled};
use pl_frame::Memory;
use pl_inputs::{Capture, Inputs, Network, Status, StepReason};
use pl_node::{HostLogic, ManagerLogic, SwitchLogic};
use pl_output::summary::{Rest, summary};
use pl_player::{Player, Stopped};
use pl_script_rule::Stop;
use pl_stage::Nobody;
use pl_wiring::HostNo;
use pl_world::{Limits, StepError};
use std::alloc::Global;

/// How long a run may become.
pub(crate) const LIMITS: Limits = Limits {
    steps: 50_000_000,
    entries: 5_000_000,
    bytes: 268_435_456,
};

/// Plays the script of what was read: a network on which it was played to its end, and the captures that it was played over.
pub(crate) fn play_script<S: SwitchLogic, M: ManagerLogic, H: HostLogic>(
    alloc: Global,
    network: Network,
    inputs: Inputs,
) -> Result<(Player<S, M, H, Nobody>, Vec<Capture>), Status>
    ensures ok { IfOk result (λ played. IsPlayedOver (PlaysTo S.rule M.rule H.rule network) (inputs_of inputs) (played_over played.0 played.1.items)) }
    ensures err { IfErr result (λ e. IsUnplayed (PlaysTo S.rule M.rule H.rule network) (inputs_of inputs) e) }
{
    let Inputs {
        wiring,
        script,
        captures,
    } = inputs;
    let mut fabric: Player<S, M, H, Nobody> = Player::begin(alloc, wiring, LIMITS, Nobody)?;
    match fabric.play_on(network, &captures, script.lines()) {
        Ok(()) => Ok((fabric, captures)),
        Err(stopped) => Err(status_of(stopped)),
    }
}

/// What is answered for a script that was stopped.
pub(crate) fn status_of(stopped: Stopped) -> Status
    ensures { result ≡ outcome (Some (stopped.line, stopped.stop)) }
{
    match stopped.stop {
        Stop::ExpectFailed => Status::ExpectFailed(stopped.line),
        Stop::Refused(reason) => refused_at(stopped.line, reason),
    }
}

fn refused_at(line: u32, reason: StepError) -> Status
    ensures { result ≡ outcome (Some (line, stop.Refused reason)) }
{
    match reason {
        StepError::StepsSpent => Status::StepsSpent(line),
        StepError::JournalFull => Status::JournalFull(line),
        StepError::NoSuch => Status::Refused(line, StepReason::NoSuch),
        StepError::Occupied => Status::Refused(line, StepReason::Occupied),
        StepError::AlreadySo => Status::Refused(line, StepReason::AlreadySo),
        StepError::NothingThere => Status::Refused(line, StepReason::NothingThere),
        StepError::Memory => Status::OutOfMemory,
    }
}

/// Whether a fabric is settled.
pub(crate) fn is_settled<S: SwitchLogic, M: ManagerLogic, H: HostLogic>(
    fabric: &Player<S, M, H, Nobody>,
) -> bool
    requires { IsCounted fabric.now.world }
    ensures { IsTrue result ↔ IsSettled fabric.now.world }
{
    settled(fabric.world())
}

/// Whether no queue of bridges has items.
pub(crate) fn is_drained<S: SwitchLogic, M: ManagerLogic, H: HostLogic>(
    bridges: &Player<S, M, H, Nobody>,
) -> bool
    ensures { IsTrue result ↔ IsDrained bridges.now.world }
{
    drained(bridges.world())
}

/// The text of the summary; `is_settled` says whether the network is settled now.
pub(crate) fn summary_of<S: SwitchLogic, M: ManagerLogic, H: HostLogic>(
    alloc: Global,
    fabric: &Player<S, M, H, Nobody>,
    captures: &[Capture],
    is_settled: bool,
) -> Result<String, Memory>
    requires { length captures.now ≡ length fabric.now.world.plan.hosts }
    ensures { IfOk result (λ text. string_bytes text ≡ summary_by (played_over fabric.now captures.now) is_settled) }
{
    let world = fabric.world();
    // A wiring has few hosts.
    let _hosts = world.wiring().hosts();
    let rests = rests(alloc, fabric, captures)?;
    summary(
        alloc,
        world.wiring(),
        world.journal(),
        world.steps(),
        &rests,
        is_settled,
    )
}

// What is left of each host.
fn rests<S: SwitchLogic, M: ManagerLogic, H: HostLogic>(
    alloc: Global,
    fabric: &Player<S, M, H, Nobody>,
    captures: &[Capture],
) -> Result<Vec<Rest>, Memory>
    requires hosts { length captures.now ≡ length fabric.now.world.plan.hosts }
    requires few { length captures.now < 2 ^ 32 }
    ensures rests { IfOk result (λ rests. rests.items ≡ rests_from 0 (files_of captures.now) fabric.now) }
    ensures many { IfOk result (λ rests. length rests.items ≡ length captures.now) }
{
    let mut rests = Vec::new(alloc);
    for (n, capture) in captures.iter().enumerate() {
        rests.push(rest_of(fabric, captures, HostNo(n as u32), capture.tail))?;
    }
    Ok(rests)
}

fn rest_of<S: SwitchLogic, M: ManagerLogic, H: HostLogic>(
    fabric: &Player<S, M, H, Nobody>,
    captures: &[Capture],
    h: HostNo,
    tail: u64,
) -> Rest
    requires { h.0 < length fabric.now.world.plan.hosts }
    ensures held { result.held ≡ held_at fabric.now h.0 }
    ensures unread { result.unread ≡ left_of (records_of captures.now) fabric.now h }
    ensures tail { result.tail ≡ tail }
{
    Rest {
        held: fabric.world().host(h).held(),
        unread: fabric.left_of(captures, h),
        tail,
    }
}
