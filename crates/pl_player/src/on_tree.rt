ghost use Rattle.std.specs.Prelude.{◌≡◌, ◌<◌, ◌+◌, OnOk, Some, length, slice_get};
ghost use Rattle.pl_world.specs.LinksAndMoves.{link_failed};
ghost use Rattle.pl_world.specs.Ready.{CanStep};
ghost use Rattle.pl_law_bridge.specs.TreeWorld.{is_off_tree, tree_from};
ghost use Rattle.pl_inputs.specs.Records.{records_of};
ghost use Rattle.pl_player.specs.Endings.{EndsLines};
ghost use Rattle.pl_player.specs.Leaving.{left_of_link, left_on};
ghost use Rattle.pl_script_rule.specs.Lines.{DoesLines};

use crate::player::{Player, Stopped};
use pl_bridge_rule::is_tree_link;
use pl_fabric::make;
use pl_frame::Memory;
use pl_inputs::{Capture, Network};
use pl_node::{HostLogic, ManagerLogic, SwitchLogic};
use pl_script::ScriptLine;
use pl_script_rule::Stop;
use pl_stage::{Stage, Watcher};
use pl_wiring::{Link, Wiring};
use pl_world::{Event, StepError};
use std::alloc::AllocError;

impl<S: SwitchLogic, M: ManagerLogic, H: HostLogic, W: Watcher<S, M, H>> Player<S, M, H, W> {
    /// Plays lines as `play` does, on a network on which no line was played yet. On bridges the links that are
    /// none of the tree fail before. After want of memory the player is not used again.
    pub fn play_on(
        &mut self,
        network: Network,
        captures: &[Capture],
        lines: &[ScriptLine],
    ) -> Result<(), Stopped>
        requires orderly { CanStep self.old.world }
        ensures does { EndsLines result (λ end. DoesLines S.rule M.rule H.rule (records_of captures.now) lines.now (left_on network self.old) end self.new) }
        ensures orderly { EndsLines result (λ _. CanStep self.new.world) }
    {
        match self.prepare(network) {
            Ok(()) => self.play(captures, lines),
            Err(_) => Err(Stopped {
                line: 0,
                stop: Stop::Refused(StepError::Memory),
            }),
        }
    }

    // The links fail that a network does not have.
    fn prepare(&mut self, network: Network) -> Result<(), Memory>
        requires orderly { CanStep self.old.world }
        ensures left { OnOk result (self.new ≡ left_on network self.old) }
        ensures orderly { OnOk result (CanStep self.new.world) }
    {
        match network {
            Network::Fabric => Ok(()),
            Network::Bridges => {
                leave_tree(&mut self.world)?;
                Ok(())
            }
        }
    }
}

// Each link that is none of the tree fails, in link order. No such step is refused; want of memory may end it.
fn leave_tree<S: SwitchLogic, M: ManagerLogic, H: HostLogic, W: Watcher<S, M, H>>(
    world: &mut Stage<S, M, H, W>,
) -> Result<(), Memory>
    requires orderly { CanStep world.old }
    ensures left { OnOk result (world.new ≡ tree_from world.old.plan.k world.old world.old.plan.links) }
    ensures orderly { OnOk result (CanStep world.new) }
{
    let many = world.wiring().links().len();
    for n in 0..many {
        leave_link(world, n)?;
    }
    Ok(())
}

// The link of this number fails, unless it is one of the tree.
#[tactic(auto, using(crate::proofs::LinksLeft::failed_as_left, crate::proofs::LinksLeft::stayed_as_left))]
fn leave_link<S: SwitchLogic, M: ManagerLogic, H: HostLogic, W: Watcher<S, M, H>>(
    world: &mut Stage<S, M, H, W>,
    n: usize,
) -> Result<(), Memory>
    requires orderly { CanStep world.old }
    requires there { n < length world.old.plan.links }
    ensures left { OnOk result ((link : Link) → slice_get world.old.plan.links n ≡ Some link →
        world.new ≡ left_of_link world.old.plan.k world.old link) }
    ensures orderly { OnOk result (CanStep world.new) }
    ensures plan { OnOk result (world.new.plan ≡ world.old.plan) }
{
    let link = link_at(world.wiring(), n);
    if is_off_tree(world.wiring(), link, n) {
        fail(world, link, n)
    } else {
        Ok(())
    }
}

fn link_at(wiring: &Wiring, n: usize) -> Link
    requires { n < length wiring.now.links }
    ensures { slice_get wiring.now.links n ≡ Some result }
{
    wiring.links()[n]
}

// Whether this link, the one of this number, is none of the tree.
#[tactic(auto, using(crate::proofs::LinksLeft::link_ends))]
fn is_off_tree(wiring: &Wiring, link: Link, n: usize) -> bool
    requires { slice_get wiring.now.links n ≡ Some link }
    ensures { result ≡ is_off_tree wiring.now.k link }
{
    let _plan = wiring.k();
    !is_tree_link(wiring.label(link.lower), wiring.label(link.upper))
}

// This link, the one of this number, fails. No such step is refused but for want of memory.
#[tactic(auto, using(crate::proofs::LinksLeft::has_failed))]
fn fail<S: SwitchLogic, M: ManagerLogic, H: HostLogic, W: Watcher<S, M, H>>(
    world: &mut Stage<S, M, H, W>,
    link: Link,
    n: usize,
) -> Result<(), Memory>
    requires orderly { CanStep world.old }
    requires there { slice_get world.old.plan.links n ≡ Some link }
    ensures failed { OnOk result (world.new ≡ link_failed (record world.old { steps = world.old.steps + 1 }) link) }
    ensures orderly { OnOk result (CanStep world.new) }
    ensures plan { OnOk result (world.new.plan ≡ world.old.plan) }
{
    let _links = world.wiring().links();
    match make(world, &Event::Fail(link.lower, link.upper)) {
        Ok(()) => Ok(()),
        Err(_) => Err(AllocError),
    }
}
