ghost use Rattle.std.specs.Prelude.{◌≡◌, ◌<◌, ◌≤◌, length, slice_get, None, Some, IfErr, IfSome, OnErr, OnOk};
ghost use Rattle.pl_world.specs.declared.error.StepError.{StepError};
ghost use Rattle.pl_world.specs.Changes.{noted};
ghost use Rattle.pl_world.specs.Ready.{CanStep};
ghost use Rattle.pl_world.specs.QueueOrder.{next_queue, queue_at, queue_count, queue_order};
ghost use Rattle.pl_world.specs.Refusals.{has_queue, is_filled, refusal, refusal_of_queue};
ghost use Rattle.pl_world.specs.Runs.{IsMark};
ghost use Rattle.pl_world.specs.WorldRule.{WorldStep};
ghost use Rattle.pl_schedule.specs.Looks.{queue_len};

use crate::watcher::Watcher;
use pl_frame::Memory;
use pl_journal::Entry;
use pl_node::{HostLogic, ManagerLogic, SwitchLogic};
use pl_schedule::World;
use pl_wiring::Wiring;
use pl_world::{Event, QueueName, StepError};
use std::alloc::AllocError;
use std::marker::Model;

/// A world whose steps somebody sees. Contracts see the world.
#[derive(Drop)]
pub struct Stage<S: SwitchLogic, M: ManagerLogic, H: HostLogic, W: Watcher<S, M, H>> {
    world: World<S, M, H>,
    watcher: W,
    // Whether no step ended for want of memory.
    is_whole: bool,
}

impl<S: SwitchLogic, M: ManagerLogic, H: HostLogic, W: Watcher<S, M, H>> Model
    for Stage<S, M, H, W> {
    ghost use Rattle.std.specs.Prelude.{◌≡◌, true};
    ghost use Rattle.pl_world.specs.Worlds.{WorldView};

    ghost Value = { WorldView };

    ghost view = { λ stage. stage.world };

    ghost invariant = { λ stage. stage.is_whole ≡ true → W.has_seen stage.watcher stage.world };
}

impl<S: SwitchLogic, M: ManagerLogic, H: HostLogic, W: Watcher<S, M, H>> Stage<S, M, H, W> {
    /// A world that the watcher has seen so far.
    pub fn new(world: World<S, M, H>, watcher: W) -> Stage<S, M, H, W>
        requires { W.has_seen watcher world }
        ensures { result ≡ world }
    {
        Stage {
            world,
            watcher,
            is_whole: true,
        }
    }

    pub fn world(&self) -> &World<S, M, H>
        ensures { result.now ≡ self.now }
    {
        &self.world
    }

    pub fn wiring(&self) -> &Wiring
        ensures { result.now ≡ self.now.plan }
    {
        self.world.wiring()
    }

    /// How many items wait in a queue; none exactly where the wiring has no such queue.
    pub fn queue_len(&self, name: QueueName) -> Option<usize>
        ensures { result ≡ queue_len self.now name }
    {
        self.world.queue_len(name)
    }

    /// How many queues there are.
    pub fn queue_count(&self) -> usize
        ensures count { result ≡ queue_count self.now.plan }
        ensures order { result ≡ length (queue_order self.now.plan) }
    {
        self.world.queue_count()
    }

    /// A queue by its number in queue order.
    pub fn queue_at(&self, n: usize) -> QueueName
        requires { n < queue_count self.now.plan }
        ensures name { result ≡ queue_at self.now.plan n }
        ensures order { slice_get (queue_order self.now.plan) n ≡ Some result }
    {
        self.world.queue_at(n)
    }

    /// The first queue with items from this number on; none where there is none.
    pub fn next_queue(&self, from: usize) -> Option<usize>
        ensures next { result ≡ next_queue self.now from }
        ensures there { IfSome result (λ n. (from ≤ n) × (n < queue_count self.now.plan)
            × (refusal_of_queue (has_queue self.now.plan (queue_at self.now.plan n)) (is_filled self.now (queue_at self.now.plan n)) ≡ None)) }
    {
        self.world.next_queue(from)
    }

    /// Why an event is refused, by the first reason that holds; none where the step is made.
    pub fn refusal(&self, event: &Event) -> Option<StepError>
        ensures { result ≡ refusal self.now event.now }
    {
        self.world.refusal(event)
    }

    /// Makes one step, as `step` of a world does. The watcher sees it first, unless it is refused.
    pub fn step(&mut self, event: &Event) -> Result<(), StepError>
        requires orderly { CanStep self.old }
        ensures step { OnOk result ((refusal self.old event.now ≡ None) × WorldStep S.rule M.rule H.rule self.old event.now self.new) }
        ensures refused { (e : StepError) → refusal self.old event.now ≡ Some e → (result ≡ Err e) × (self.new ≡ self.old) }
        ensures memory { refusal self.old event.now ≡ None → IfErr result (λ e. e ≡ StepError.Memory) }
        ensures orderly { OnOk result (CanStep self.new) }
    {
        match self.world.refusal(event) {
            Some(refusal) => Err(refusal),
            None => match self.show_step(event) {
                Ok(()) => Ok(()),
                Err(_) => Err(StepError::Memory),
            },
        }
    }

    // A step that is not refused.
    fn show_step(&mut self, event: &Event) -> Result<(), Memory>
        requires orderly { CanStep self.old }
        requires allowed { refusal self.old event.now ≡ None }
        ensures step { OnOk result (WorldStep S.rule M.rule H.rule self.old event.now self.new) }
        ensures orderly { OnOk result (CanStep self.new) }
    {
        if !self.is_whole {
            return Err(AllocError);
        }
        self.is_whole = false;
        self.watcher.sees(&self.world, event)?;
        make_step(&mut self.world, event)?;
        self.is_whole = true;
        Ok(())
    }

    /// Writes of a script what no step writes, as `mark` of a world does.
    pub fn mark(&mut self, entry: Entry) -> Result<(), Memory>
        requires { IsMark entry }
        ensures marked { OnOk result (self.new ≡ noted self.old entry) }
        ensures err { OnErr result (self.new ≡ self.old) }
        ensures orderly { OnOk result (CanStep self.old → CanStep self.new) }
    {
        self.world.mark(entry)?;
        Ok(())
    }

    /// The world, and the watcher that has seen all that led to it; none where a step ended for want of
    /// memory.
    pub fn into_parts(self) -> (World<S, M, H>, Option<W>)
        ensures world { result.0 ≡ self }
        ensures seen { IfSome result.1 (λ watcher. W.has_seen watcher self) }
    {
        if self.is_whole {
            (self.world, Some(self.watcher))
        } else {
            (self.world, None)
        }
    }
}

fn make_step<S: SwitchLogic, M: ManagerLogic, H: HostLogic>(
    world: &mut World<S, M, H>,
    event: &Event,
) -> Result<(), Memory>
    requires orderly { CanStep world.old }
    ensures step { OnOk result (WorldStep S.rule M.rule H.rule world.old event.now world.new) }
    ensures orderly { OnOk result (CanStep world.new) }
{
    match world.step(event) {
        Ok(()) => Ok(()),
        Err(_) => Err(AllocError),
    }
}
