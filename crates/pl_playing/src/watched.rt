ghost use Rattle.std.specs.Prelude.{◌≡◌, IfErr, IfOk, IfSome, Some};
ghost use Rattle.pl_inputs.specs.Loaded.{inputs_of};
ghost use Rattle.pl_inputs.specs.declared.words.Network.TheVariants.{Fabric};
ghost use Rattle.pl_world.specs.Booting.{booted};
ghost use Rattle.pl_playing.specs.Networks.{PlaysTo};
ghost use Rattle.pl_playing.specs.Outcomes.{outcome, run_limits};
ghost use Rattle.pl_playing.specs.Watched.{IsPlayedBefore};

use crate::played::{LIMITS, status_of};
use pl_frame::Memory;
use pl_inputs::{Inputs, Network, Status};
use pl_node::{HostLogic, ManagerLogic, SwitchLogic};
use pl_player::{Player, Stopped};
use pl_schedule::World;
use pl_stage::Watcher;
use std::alloc::Global;

/// What a script came to before a watcher's eyes.
#[derive(Drop)]
pub struct Watched<S: SwitchLogic, M: ManagerLogic, H: HostLogic, W: Watcher<S, M, H>> {
    pub world: World<S, M, H>,
    /// None after want of memory.
    pub watcher: Option<W>,
    pub status: Status,
}

/// Plays the script of what was read on a fabric, up to its last line or to the first that is stopped, before
/// the eyes of a watcher that has seen nothing yet. Nothing is saved.
pub fn play_before<S: SwitchLogic, M: ManagerLogic, H: HostLogic, W: Watcher<S, M, H>>(
    alloc: Global,
    inputs: Inputs,
    watcher: W,
) -> Result<Watched<S, M, H, W>, Memory>
    requires { W.has_seen watcher (booted (inputs_of inputs).plan run_limits) }
    ensures played { IfOk result (λ watched. IsPlayedBefore (PlaysTo S.rule M.rule H.rule Fabric) (inputs_of inputs) watched.world watched.status) }
    ensures seen { IfOk result (λ watched. IfSome watched.watcher (λ watcher. W.has_seen watcher watched.world)) }
{
    let Inputs {
        wiring,
        script,
        captures,
    } = inputs;
    let mut fabric: Player<S, M, H, W> = Player::begin(alloc, wiring, LIMITS, watcher)?;
    let played = fabric.play_on(Network::Fabric, &captures, script.lines());
    let status = status_after(played);
    let (world, watcher) = fabric.into_parts();
    Ok(Watched {
        world,
        watcher,
        status,
    })
}

// What is answered for a script that was played to its end, or stopped.
fn status_after(played: Result<(), Stopped>) -> Status
    ensures done { IfOk played (λ done. result ≡ Status.Done) }
    ensures stopped { IfErr played (λ s. result ≡ outcome (Some (s.line, s.stop))) }
{
    match played {
        Ok(()) => Status::Done,
        Err(stopped) => status_of(stopped),
    }
}
