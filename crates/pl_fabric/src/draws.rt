ghost use Rattle.std.specs.Prelude.{◌≡◌};
ghost use Rattle.pl_world.specs.Ready.{CanStep};
ghost use Rattle.pl_fabric.specs.Executions.{EndsAs};
ghost use Rattle.pl_fabric.specs.Draws.{Draws, drawn};

use crate::making::make;
use pl_draws::{next_number, upper_half};
use pl_node::{HostLogic, ManagerLogic, SwitchLogic};
use pl_schedule::World;
use pl_stage::{Stage, Watcher};
use pl_wiring::SwitchNo;
use pl_world::{Event, StepError};

// What a number draws.
fn drawn<S: SwitchLogic, M: ManagerLogic, H: HostLogic>(world: &World<S, M, H>, x: u64) -> Event
    ensures { result ≡ drawn world.now x }
{
    let filled = world.filled_count();
    let switches = world.wiring().switch_count() as usize;
    let i = upper_half(x) as usize % (filled + switches);
    match world.filled_queue(i) {
        Some(name) => Event::Deliver(name),
        None => Event::Tick(SwitchNo((i - filled) as u32)),
    }
}

/// Makes so many steps, each drawn by the next number behind `number`: the delivery of the head of one of
/// the queues with items, or the tick of one of the switches. Where a step is refused the steps before it
/// stand. After want of memory the world is not used again.
pub fn random<S: SwitchLogic, M: ManagerLogic, H: HostLogic, W: Watcher<S, M, H>>(
    world: &mut Stage<S, M, H, W>,
    number: u64,
    steps: u32,
) -> Result<(), StepError>
    requires orderly { CanStep world.old }
    ensures drawn { EndsAs result (λ end. Draws S.rule M.rule H.rule steps number world.old end world.new) }
    ensures orderly { EndsAs result (λ _. CanStep world.new) }
    ensures plan { EndsAs result (λ _. world.new.plan ≡ world.old.plan) }
{
    let mut x = number;
    for _ in 0..steps {
        x = next_number(x);
        let event = drawn(world.world(), x);
        make(world, &event)?;
    }
    Ok(())
}
