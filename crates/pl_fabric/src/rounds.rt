ghost use Rattle.std.specs.Prelude.{◌≡◌};
ghost use Rattle.pl_world.specs.Ready.{CanStep};
ghost use Rattle.pl_fabric.specs.Executions.{EndsAs, Times};
ghost use Rattle.pl_fabric.specs.Rounds.{GoesRound, Sweeps};

use crate::making::{tick_all, visit};
use pl_node::{HostLogic, ManagerLogic, SwitchLogic};
use pl_stage::{Stage, Watcher};
use pl_world::StepError;

/// A sweep: all queues are visited in queue order, and from each as many items are delivered as it held
/// when the sweep came to it. No empty queue is looked at. Where a step is refused the steps before it
/// stand. After want of memory the world is not used again.
pub fn sweep<S: SwitchLogic, M: ManagerLogic, H: HostLogic, W: Watcher<S, M, H>>(
    world: &mut Stage<S, M, H, W>,
) -> Result<(), StepError>
    requires orderly { CanStep world.old }
    ensures swept { EndsAs result (λ end. Sweeps S.rule M.rule H.rule world.old end world.new) }
    ensures orderly { EndsAs result (λ _. CanStep world.new) }
    ensures plan { EndsAs result (λ _. world.new.plan ≡ world.old.plan) }
{
    let mut from = 0;
    while let Some(n) = world.next_queue(from) {
        let _end = world.queue_count();
        let name = world.queue_at(n);
        visit(world, name)?;
        from = n + 1;
    }
    Ok(())
}

/// So many sweeps, one after the other. Where a step is refused the steps before it stand. After want of
/// memory the world is not used again.
pub fn sweep_often<S: SwitchLogic, M: ManagerLogic, H: HostLogic, W: Watcher<S, M, H>>(
    world: &mut Stage<S, M, H, W>,
    times: u32,
) -> Result<(), StepError>
    requires orderly { CanStep world.old }
    ensures swept { EndsAs result (λ end. Times times (Sweeps S.rule M.rule H.rule) world.old end world.new) }
    ensures orderly { EndsAs result (λ _. CanStep world.new) }
    ensures plan { EndsAs result (λ _. world.new.plan ≡ world.old.plan) }
{
    for _ in 0..times {
        sweep(world)?;
    }
    Ok(())
}

/// A round: a tick of each switch in label order, and then four sweeps. Where a step is refused the steps
/// before it stand. After want of memory the world is not used again.
pub fn round<S: SwitchLogic, M: ManagerLogic, H: HostLogic, W: Watcher<S, M, H>>(
    world: &mut Stage<S, M, H, W>,
) -> Result<(), StepError>
    requires orderly { CanStep world.old }
    ensures went { EndsAs result (λ end. GoesRound S.rule M.rule H.rule world.old end world.new) }
    ensures orderly { EndsAs result (λ _. CanStep world.new) }
    ensures plan { EndsAs result (λ _. world.new.plan ≡ world.old.plan) }
{
    tick_all(world)?;
    sweep_often(world, 4)
}
