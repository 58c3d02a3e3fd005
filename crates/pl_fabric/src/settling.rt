ghost use Rattle.std.specs.Prelude.{◌≡◌, ◌↔◌, IfErr, IfOk, IsTrue, None, Some};
ghost use Rattle.pl_world.specs.Flying.{IsCounted};
ghost use Rattle.pl_world.specs.Ready.{CanStep};
ghost use Rattle.pl_fabric.specs.Executions.{EndsAs, UnlessMemory};
ghost use Rattle.pl_fabric.specs.Settlings.{GoesRounds, IsSettlingAnswer, IsAtRest, Settles};

use crate::fabric::settled;
use crate::rounds::round;
use pl_node::{HostLogic, ManagerLogic, SwitchLogic};
use pl_schedule::World;
use pl_stage::{Stage, Watcher};
use pl_world::StepError;

/// How a settling ended.
#[derive(Clone, Copy, Debug, PartialEq, Eq)]
pub enum Settling {
    /// The fabric is settled, after so many rounds.
    Settled(u32),
    /// It is not, and so many queued items stand against it.
    NotSettled(u64),
}

// Whether the fabric is settled and no queue has items.
fn is_at_rest<S: SwitchLogic, M: ManagerLogic, H: HostLogic>(world: &World<S, M, H>) -> bool
    requires { IsCounted world.now }
    ensures { IsTrue result ↔ IsAtRest world.now }
{
    if world.next_queue(0).is_none() {
        settled(world)
    } else {
        false
    }
}

fn answer<S: SwitchLogic, M: ManagerLogic, H: HostLogic>(
    world: &World<S, M, H>,
    used: u32,
) -> Settling
    requires { IsCounted world.now }
    ensures { IsSettlingAnswer world.now used result }
{
    if settled(world) {
        Settling::Settled(used)
    } else {
        Settling::NotSettled(world.pending())
    }
}

/// Makes the least number of rounds, at most as many as asked, after which the fabric is settled and all
/// queues are empty. Answers whether it is settled at the end. Where a step is refused the steps before
/// it stand. After want of memory the world is not used again.
pub fn settle<S: SwitchLogic, M: ManagerLogic, H: HostLogic, W: Watcher<S, M, H>>(
    world: &mut Stage<S, M, H, W>,
    rounds: u32,
) -> Result<Settling, StepError>
    requires orderly { CanStep world.old }
    ensures settles { IfOk result (λ answer. Settles S.rule M.rule H.rule rounds world.old answer world.new) }
    ensures refused { IfErr result (λ reason. UnlessMemory reason (GoesRounds S.rule M.rule H.rule rounds world.old (Some reason) world.new)) }
    ensures orderly { EndsAs result (λ _. CanStep world.new) }
    ensures plan { EndsAs result (λ _. world.new.plan ≡ world.old.plan) }
{
    for used in 0..rounds {
        if is_at_rest(world.world()) {
            return Ok(Settling::Settled(used));
        }
        round(world)?;
    }
    Ok(answer(world.world(), rounds))
}
