ghost use Rattle.std.specs.Prelude.{OnOk};
ghost use Rattle.pl_world.specs.Ready.{CanStep};

use pl_fabric::{Settling, random, settle, sweep};
use pl_frame::Memory;
use pl_host::Host;
use pl_node::{ManagerLogic, SwitchLogic};
use pl_stage::{Nobody, Stage};
use pl_test_words::{first_word, say};
use pl_world::StepError;
use std::alloc::{AllocError, Global};

/// `settle ROUNDS`, `sweep TIMES` or `random NUMBER STEPS`.
pub(crate) fn play_fabric<S: SwitchLogic, M: ManagerLogic>(
    world: &mut Stage<S, M, Host, Nobody>,
    alloc: Global,
    verb: &str,
    rest: &str,
    said: &mut String,
) -> Result<(), Memory>
    requires orderly { CanStep world.old }
    ensures orderly { OnOk result (CanStep world.new) }
{
    let (first, second) = first_word(rest);
    match verb {
        "settle" => settle_within(world, alloc, rest.parse::<u32>().unwrap_or(0), said),
        "sweep" => sweep_often(world, rest.parse::<u32>().unwrap_or(0), said),
        _ => draw(
            world,
            first.parse::<u64>().unwrap_or(0),
            second.parse::<u32>().unwrap_or(0),
            said,
        ),
    }
}

fn settle_within<S: SwitchLogic, M: ManagerLogic>(
    world: &mut Stage<S, M, Host, Nobody>,
    alloc: Global,
    rounds: u32,
    said: &mut String,
) -> Result<(), Memory>
    requires orderly { CanStep world.old }
    ensures orderly { OnOk result (CanStep world.new) }
{
    match settle(world, rounds) {
        Ok(settling) => say_settling(alloc, settling, said),
        Err(StepError::StepsSpent) => say(said, "refused: StepsSpent"),
        Err(StepError::JournalFull) => say(said, "refused: JournalFull"),
        Err(_) => Err(AllocError),
    }
}

fn say_settling(alloc: Global, settling: Settling, said: &mut String) -> Result<(), Memory> {
    let line = match settling {
        Settling::Settled(rounds) => format!(in alloc; "settled {rounds}")?,
        Settling::NotSettled(pending) => format!(in alloc; "unsettled {pending}")?,
    };
    say(said, line.as_str())
}

fn sweep_often<S: SwitchLogic, M: ManagerLogic>(
    world: &mut Stage<S, M, Host, Nobody>,
    times: u32,
    said: &mut String,
) -> Result<(), Memory>
    requires orderly { CanStep world.old }
    ensures orderly { OnOk result (CanStep world.new) }
{
    for _ in 0..times {
        sweep_once(world)?;
    }
    say(said, "done")
}

// Where a step is refused the steps before it stand.
fn sweep_once<S: SwitchLogic, M: ManagerLogic>(
    world: &mut Stage<S, M, Host, Nobody>,
) -> Result<(), Memory>
    requires orderly { CanStep world.old }
    ensures orderly { OnOk result (CanStep world.new) }
{
    match sweep(world) {
        Ok(()) => Ok(()),
        Err(StepError::StepsSpent) => Ok(()),
        Err(StepError::JournalFull) => Ok(()),
        Err(_) => Err(AllocError),
    }
}

fn draw<S: SwitchLogic, M: ManagerLogic>(
    world: &mut Stage<S, M, Host, Nobody>,
    number: u64,
    steps: u32,
    said: &mut String,
) -> Result<(), Memory>
    requires orderly { CanStep world.old }
    ensures orderly { OnOk result (CanStep world.new) }
{
    match random(world, number, steps) {
        Ok(()) => say(said, "done"),
        Err(StepError::StepsSpent) => say(said, "refused: StepsSpent"),
        Err(StepError::JournalFull) => say(said, "refused: JournalFull"),
        Err(_) => Err(AllocError),
    }
}
