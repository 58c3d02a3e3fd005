ghost use Rattle.std.specs.Prelude.{◌≡◌, ◌≤◌, IfOk, IfSome, slice_get};
ghost use Rattle.pl_world.specs.Booting.{booted};
ghost use Rattle.pl_script_rule.specs.Scenes.{first_scene};
ghost use Rattle.pl_world.specs.Ready.{CanStep};

use pl_frame::Memory;
use pl_journal::Entry;
use pl_node::{HostLogic, ManagerLogic, SwitchLogic};
use pl_schedule::World;
use pl_script_rule::Stop;
use pl_stage::{Stage, Watcher};
use pl_wiring::{HostNo, Wiring};
use pl_world::{AttachmentPoint, Limits};
use std::alloc::Global;
use std::marker::Model;

/// A fabric on which a script is played. Contracts see it as a `Scene` (`specs/Scenes.antt` of pl_script_rule).
#[derive(Drop)]
pub struct Player<S: SwitchLogic, M: ManagerLogic, H: HostLogic, W: Watcher<S, M, H>> {
    pub(crate) alloc: Global,
    pub(crate) world: Stage<S, M, H, W>,
    /// For each host how many of its records were asked for.
    pub(crate) asked: Vec<u64>,
}

impl<S: SwitchLogic, M: ManagerLogic, H: HostLogic, W: Watcher<S, M, H>> Model
    for Player<S, M, H, W> {
    ghost use Rattle.pl_script_rule.specs.Scenes.{Scene};

    ghost Value = { Scene };

    ghost view = { λ p. record { world = p.world; asked = p.asked.items } };
}

/// The line at which a script was stopped, and why.
#[derive(Clone, Copy, Debug, PartialEq, Eq)]
pub struct Stopped {
    pub line: u32,
    pub stop: Stop,
}

impl<S: SwitchLogic, M: ManagerLogic, H: HostLogic, W: Watcher<S, M, H>> Player<S, M, H, W> {
    /// A fabric at its beginning, on which no line was played. The watcher has seen nothing yet.
    pub fn begin(
        alloc: Global,
        wiring: Wiring,
        limits: Limits,
        watcher: W,
    ) -> Result<Player<S, M, H, W>, Memory>
        requires few { limits.steps ≤ 4000000000 }
        requires unseen { W.has_seen watcher (booted wiring limits) }
        ensures scene { IfOk result (λ p. p ≡ first_scene wiring limits) }
        ensures orderly { IfOk result (λ p. CanStep p.world) }
    {
        let asked = vec![in alloc; 0; wiring.hosts().len()]?;
        let world = World::boot(alloc, wiring, limits)?;
        Ok(Player {
            alloc,
            world: Stage::new(world, watcher),
            asked,
        })
    }

    pub fn world(&self) -> &World<S, M, H>
        ensures { result.now ≡ self.now.world }
    {
        self.world.world()
    }

    /// The fabric that was come to, and the watcher that has seen all that led to it; none after want of memory.
    pub fn into_parts(self) -> (World<S, M, H>, Option<W>)
        ensures world { result.0 ≡ self.world }
        ensures seen { IfSome result.1 (λ watcher. W.has_seen watcher self.world) }
    {
        self.world.into_parts()
    }

    pub(crate) fn alloc(&self) -> Global {
        self.alloc
    }

    pub(crate) fn journal(&self) -> &[Entry]
        ensures { result.now ≡ self.now.world.journal }
    {
        self.world.world().journal().as_slice()
    }

    pub(crate) fn wiring(&self) -> &Wiring
        ensures { result.now ≡ self.now.world.plan }
    {
        self.world.wiring()
    }

    pub(crate) fn place_of_host(&self, h: HostNo) -> Option<AttachmentPoint>
        ensures { result ≡ slice_get self.now.world.attachments h.0 }
    {
        self.world.world().place_of_host(h)
    }
}
