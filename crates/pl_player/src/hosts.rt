ghost use Rattle.std.specs.Prelude.{◌≡◌, map};
ghost use Rattle.pl_world.specs.declared.event.Event.TheVariants as event;
ghost use Rattle.pl_world.specs.Ready.{CanStep};
ghost use Rattle.pl_fabric.specs.Executions.{EndsAs, MakesAll};
ghost use Rattle.pl_script_rule.specs.Lines.{hosts_meant};

use pl_fabric::make;
use pl_node::{HostLogic, ManagerLogic, SwitchLogic};
use pl_script::Who;
use pl_stage::{Stage, Watcher};
use pl_wiring::HostNo;
use pl_world::{Event, StepError};

/// Each host starts, in the order of the wiring.
pub(crate) fn start_all<S: SwitchLogic, M: ManagerLogic, H: HostLogic, W: Watcher<S, M, H>>(
    world: &mut Stage<S, M, H, W>,
) -> Result<(), StepError>
    requires orderly { CanStep world.old }
    ensures made { EndsAs result (λ end. MakesAll S.rule M.rule H.rule (map event.Start (hosts_meant world.old.plan Who.All)) world.old end world.new) }
    ensures orderly { EndsAs result (λ _. CanStep world.new) }
{
    let many = world.wiring().host_count();
    for h in 0..many {
        make(world, &Event::Start(HostNo(h)))?;
    }
    Ok(())
}

/// Each host asks again for the addresses that it waits for.
pub(crate) fn retry_all<S: SwitchLogic, M: ManagerLogic, H: HostLogic, W: Watcher<S, M, H>>(
    world: &mut Stage<S, M, H, W>,
) -> Result<(), StepError>
    requires orderly { CanStep world.old }
    ensures made { EndsAs result (λ end. MakesAll S.rule M.rule H.rule (map event.Retry (hosts_meant world.old.plan Who.All)) world.old end world.new) }
    ensures orderly { EndsAs result (λ _. CanStep world.new) }
{
    let many = world.wiring().host_count();
    for h in 0..many {
        make(world, &Event::Retry(HostNo(h)))?;
    }
    Ok(())
}
