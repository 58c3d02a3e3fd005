ghost use Rattle.std.specs.Prelude.{◌≡◌, replicate};
ghost use Rattle.pl_world.specs.declared.event.Event.TheVariants.{Deliver};
ghost use Rattle.pl_world.specs.Ready.{CanStep};
ghost use Rattle.pl_fabric.specs.Executions.{EndsAs, Makes, MakesAll};
ghost use Rattle.pl_fabric.specs.Rounds.{TicksAll, Visits};

use pl_node::{HostLogic, ManagerLogic, SwitchLogic};
use pl_stage::{Stage, Watcher};
use pl_wiring::SwitchNo;
use pl_world::{Event, QueueName, StepError};

/// One step. Where it is refused, nothing changes. After want of memory the world is not used again.
pub fn make<S: SwitchLogic, M: ManagerLogic, H: HostLogic, W: Watcher<S, M, H>>(
    world: &mut Stage<S, M, H, W>,
    event: &Event,
) -> Result<(), StepError>
    requires orderly { CanStep world.old }
    ensures made { EndsAs result (λ end. Makes S.rule M.rule H.rule event.now world.old end world.new) }
    ensures orderly { EndsAs result (λ _. CanStep world.new) }
    ensures plan { EndsAs result (λ _. world.new.plan ≡ world.old.plan) }
{
    world.step(event)
}

// So many items are delivered from a queue.
fn deliver<S: SwitchLogic, M: ManagerLogic, H: HostLogic, W: Watcher<S, M, H>>(
    world: &mut Stage<S, M, H, W>,
    name: QueueName,
    many: usize,
) -> Result<(), StepError>
    requires orderly { CanStep world.old }
    ensures made { EndsAs result (λ end. MakesAll S.rule M.rule H.rule (replicate many (Deliver name)) world.old end world.new) }
    ensures orderly { EndsAs result (λ _. CanStep world.new) }
    ensures plan { EndsAs result (λ _. world.new.plan ≡ world.old.plan) }
{
    for _ in 0..many {
        make(world, &Event::Deliver(name))?;
    }
    Ok(())
}

// As many items of a queue are delivered as it holds.
pub(crate) fn visit<S: SwitchLogic, M: ManagerLogic, H: HostLogic, W: Watcher<S, M, H>>(
    world: &mut Stage<S, M, H, W>,
    name: QueueName,
) -> Result<(), StepError>
    requires orderly { CanStep world.old }
    ensures made { EndsAs result (λ end. Visits S.rule M.rule H.rule name world.old end world.new) }
    ensures orderly { EndsAs result (λ _. CanStep world.new) }
    ensures plan { EndsAs result (λ _. world.new.plan ≡ world.old.plan) }
{
    let many = world.queue_len(name).unwrap_or(0);
    deliver(world, name, many)
}

/// A tick of each switch, in label order. Where a step is refused the steps before it stand. After want of
/// memory the world is not used again.
pub fn tick_all<S: SwitchLogic, M: ManagerLogic, H: HostLogic, W: Watcher<S, M, H>>(
    world: &mut Stage<S, M, H, W>,
) -> Result<(), StepError>
    requires orderly { CanStep world.old }
    ensures made { EndsAs result (λ end. TicksAll S.rule M.rule H.rule world.old end world.new) }
    ensures orderly { EndsAs result (λ _. CanStep world.new) }
    ensures plan { EndsAs result (λ _. world.new.plan ≡ world.old.plan) }
{
    let many = world.wiring().switch_count();
    for s in 0..many {
        make(world, &Event::Tick(SwitchNo(s)))?;
    }
    Ok(())
}
