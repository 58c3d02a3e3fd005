ghost use Rattle.std.specs.Prelude.{◌≡◌, ◌+◌, ◌↔◌, IfErr, IfOk, IsTrue, None, Some};
ghost use Rattle.pl_world.specs.Ready.{CanStep};
ghost use Rattle.pl_fabric.specs.Drains.{Drains, GoesSweeps, IsDrainAnswer, IsDrained, all_waiting};
ghost use Rattle.pl_fabric.specs.Executions.{EndsAs, UnlessMemory};
ghost use Rattle.pl_fabric.specs.Rounds.{waiting};

use crate::rounds::sweep;
use crate::settling::Settling;
use pl_frame::Memory;
use pl_node::{HostLogic, ManagerLogic, SwitchLogic};
use pl_schedule::World;
use pl_stage::{Stage, Watcher};
use pl_world::{QueueName, StepError};
use std::alloc::AllocError;

/// Whether no queue has items.
pub fn drained<S: SwitchLogic, M: ManagerLogic, H: HostLogic>(world: &World<S, M, H>) -> bool
    ensures { IsTrue result ↔ IsDrained world.now }
{
    world.next_queue(0).is_none()
}

fn waiting<S: SwitchLogic, M: ManagerLogic, H: HostLogic>(
    world: &World<S, M, H>,
    name: QueueName,
) -> u64
    ensures { result ≡ waiting world.now name }
{
    world.queue_len(name).unwrap_or(0) as u64
}

// No memory holds so many items that their number does not fit.
fn plus(a: u64, b: u64) -> Result<u64, Memory>
    ensures { IfOk result (λ sum. sum ≡ a + b) }
{
    a.checked_add(b).ok_or(AllocError)
}

// How many items wait in all queues.
#[tactic(auto, using(crate::proofs::Waiting::one_queue_more))]
fn all_waiting<S: SwitchLogic, M: ManagerLogic, H: HostLogic>(
    world: &World<S, M, H>,
) -> Result<u64, Memory>
    ensures { IfOk result (λ items. items ≡ all_waiting world.now) }
{
    let mut items = 0;
    for n in 0..world.queue_count() {
        items = plus(items, waiting(world, world.queue_at(n)))?;
    }
    Ok(items)
}

fn answer<S: SwitchLogic, M: ManagerLogic, H: HostLogic>(
    world: &World<S, M, H>,
    used: u32,
) -> Result<Settling, StepError>
    ensures ok { IfOk result (λ answer. IsDrainAnswer world.now used answer) }
    ensures err { IfErr result (λ reason. reason ≡ StepError.Memory) }
{
    if drained(world) {
        return Ok(Settling::Settled(used));
    }
    match all_waiting(world) {
        Ok(items) => Ok(Settling::NotSettled(items)),
        Err(_) => Err(StepError::Memory),
    }
}

/// Makes the least number of sweeps, at most as many as asked, after which no queue has items. Answers
/// whether none has at the end. Where a step is refused the steps before it stand. After want of memory the
/// world is not used again.
pub fn drain<S: SwitchLogic, M: ManagerLogic, H: HostLogic, W: Watcher<S, M, H>>(
    world: &mut Stage<S, M, H, W>,
    sweeps: u32,
) -> Result<Settling, StepError>
    requires orderly { CanStep world.old }
    ensures drains { IfOk result (λ answer. Drains S.rule M.rule H.rule sweeps world.old answer world.new) }
    ensures refused { IfErr result (λ reason. UnlessMemory reason (GoesSweeps S.rule M.rule H.rule sweeps world.old (Some reason) world.new)) }
    ensures orderly { EndsAs result (λ _. CanStep world.new) }
    ensures plan { EndsAs result (λ _. world.new.plan ≡ world.old.plan) }
{
    for used in 0..sweeps {
        if drained(world.world()) {
            return Ok(Settling::Settled(used));
        }
        sweep(world)?;
    }
    answer(world.world(), sweeps)
}
