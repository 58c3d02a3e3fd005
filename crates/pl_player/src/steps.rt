ghost use Rattle.std.specs.Prelude.{◌≡◌, [], ◌∷◌, map, None};
ghost use Rattle.pl_world.specs.declared.event.Event.TheVariants as event;
ghost use Rattle.pl_world.specs.Ready.{CanStep};
ghost use Rattle.pl_fabric.specs.Executions.{Times};
ghost use Rattle.pl_fabric.specs.Draws.{Draws};
ghost use Rattle.pl_fabric.specs.Rounds.{Sweeps, TicksAll};
ghost use Rattle.pl_script_rule.specs.Lines.{DrainsAsAsked, Happen, SettlesAsAsked, hosts_meant, outcome};
ghost use Rattle.pl_script_rule.specs.Queues.{delivery, loss, port_towards, queue_between};
ghost use Rattle.pl_script_rule.specs.Scenes.{Ends, OfWorld};

use crate::hosts::{retry_all, start_all};
use crate::player::Player;
use pl_fabric::{Settling, drain, make, random, settle, sweep_often, tick_all};
use pl_journal::Entry;
use pl_node::{HostLogic, ManagerLogic, SwitchLogic};
use pl_script::{End, Who};
use pl_script_rule::Stop;
use pl_stage::Watcher;
use pl_wiring::SwitchNo;
use pl_world::{Event, QueueName};

// The entry that says how a settling ended.
fn outcome(answer: Settling) -> Entry
    ensures { result ≡ outcome answer }
{
    match answer {
        Settling::Settled(rounds) => Entry::Settled(rounds),
        Settling::NotSettled(pending) => Entry::Unsettled(pending),
    }
}

// A switch has fewer ports than 255: where there is no queue, the event is refused.
fn loss(s: SwitchNo, port: Option<u8>) -> Event
    ensures { result ≡ loss s port }
{
    match port {
        None => Event::Lose(SwitchNo(0), u8::MAX),
        Some(port) => Event::Lose(s, port),
    }
}

fn delivery(name: Option<QueueName>) -> Event
    ensures { result ≡ delivery name }
{
    match name {
        None => Event::Deliver(QueueName::Port(SwitchNo(0), u8::MAX)),
        Some(name) => Event::Deliver(name),
    }
}

impl<S: SwitchLogic, M: ManagerLogic, H: HostLogic, W: Watcher<S, M, H>> Player<S, M, H, W> {
    /// One event.
    pub(crate) fn happen(&mut self, event: &Event) -> Result<(), Stop>
        requires orderly { CanStep self.old.world }
        ensures does { Ends result (λ end. Happen S.rule M.rule H.rule (event.now ∷ []) self.old end self.new) }
        ensures orderly { Ends result (λ _. CanStep self.new.world) }
        ensures plan { Ends result (λ _. self.new.world.plan ≡ self.old.world.plan) }
    {
        make(&mut self.world, event)?;
        Ok(())
    }

    /// One host starts, or each in the order of the wiring.
    pub(crate) fn start(&mut self, who: Who) -> Result<(), Stop>
        requires orderly { CanStep self.old.world }
        ensures does { Ends result (λ end. Happen S.rule M.rule H.rule (map event.Start (hosts_meant self.old.world.plan who)) self.old end self.new) }
        ensures orderly { Ends result (λ _. CanStep self.new.world) }
    {
        match who {
            Who::One(h) => self.happen(&Event::Start(h)),
            Who::All => self.start_all(),
        }
    }

    fn start_all(&mut self) -> Result<(), Stop>
        requires orderly { CanStep self.old.world }
        ensures does { Ends result (λ end. Happen S.rule M.rule H.rule (map event.Start (hosts_meant self.old.world.plan Who.All)) self.old end self.new) }
        ensures orderly { Ends result (λ _. CanStep self.new.world) }
    {
        start_all(&mut self.world)?;
        Ok(())
    }

    /// One host asks again for the addresses that it waits for, or each does.
    pub(crate) fn retry(&mut self, who: Who) -> Result<(), Stop>
        requires orderly { CanStep self.old.world }
        ensures does { Ends result (λ end. Happen S.rule M.rule H.rule (map event.Retry (hosts_meant self.old.world.plan who)) self.old end self.new) }
        ensures orderly { Ends result (λ _. CanStep self.new.world) }
    {
        match who {
            Who::One(h) => self.happen(&Event::Retry(h)),
            Who::All => self.retry_all(),
        }
    }

    fn retry_all(&mut self) -> Result<(), Stop>
        requires orderly { CanStep self.old.world }
        ensures does { Ends result (λ end. Happen S.rule M.rule H.rule (map event.Retry (hosts_meant self.old.world.plan Who.All)) self.old end self.new) }
        ensures orderly { Ends result (λ _. CanStep self.new.world) }
    {
        retry_all(&mut self.world)?;
        Ok(())
    }

    /// The head of the queue from one switch to another is lost.
    pub(crate) fn lose(&mut self, a: SwitchNo, b: SwitchNo) -> Result<(), Stop>
        requires orderly { CanStep self.old.world }
        ensures does { Ends result (λ end. Happen S.rule M.rule H.rule (loss a (port_towards self.old.world.plan a.0 b.0) ∷ []) self.old end self.new) }
        ensures orderly { Ends result (λ _. CanStep self.new.world) }
    {
        let event = loss(a, self.port_towards(a, b));
        self.happen(&event)
    }

    /// The head of the queue from one end to another is delivered.
    pub(crate) fn deliver(&mut self, from: End, to: End) -> Result<(), Stop>
        requires orderly { CanStep self.old.world }
        ensures does { Ends result (λ end. Happen S.rule M.rule H.rule (delivery (queue_between self.old.world from to) ∷ []) self.old end self.new) }
        ensures orderly { Ends result (λ _. CanStep self.new.world) }
    {
        let event = delivery(self.queue_between(from, to));
        self.happen(&event)
    }

    /// Each switch has a tick, in label order.
    pub(crate) fn tick_all(&mut self) -> Result<(), Stop>
        requires orderly { CanStep self.old.world }
        ensures does { Ends result (λ end. OfWorld (TicksAll S.rule M.rule H.rule) self.old end self.new) }
        ensures orderly { Ends result (λ _. CanStep self.new.world) }
    {
        tick_all(&mut self.world)?;
        Ok(())
    }

    pub(crate) fn sweep(&mut self, times: u32) -> Result<(), Stop>
        requires orderly { CanStep self.old.world }
        ensures does { Ends result (λ end. OfWorld (Times times (Sweeps S.rule M.rule H.rule)) self.old end self.new) }
        ensures orderly { Ends result (λ _. CanStep self.new.world) }
    {
        sweep_often(&mut self.world, times)?;
        Ok(())
    }

    /// Steps that are drawn by numbers.
    pub(crate) fn random(&mut self, number: u64, steps: u32) -> Result<(), Stop>
        requires orderly { CanStep self.old.world }
        ensures does { Ends result (λ end. OfWorld (Draws S.rule M.rule H.rule steps number) self.old end self.new) }
        ensures orderly { Ends result (λ _. CanStep self.new.world) }
    {
        random(&mut self.world, number, steps)?;
        Ok(())
    }

    /// Rounds until the fabric is settled, at most so many; the journal says how that ended.
    pub(crate) fn settle(&mut self, rounds: u32) -> Result<(), Stop>
        requires orderly { CanStep self.old.world }
        ensures does { Ends result (λ end. SettlesAsAsked S.rule M.rule H.rule rounds self.old end self.new) }
        ensures orderly { Ends result (λ _. CanStep self.new.world) }
    {
        let answer = settle(&mut self.world, rounds)?;
        self.world.mark(outcome(answer))?;
        Ok(())
    }

    /// Sweeps until no queue has items, at most so many; the journal says how that ended.
    pub(crate) fn drain(&mut self, sweeps: u32) -> Result<(), Stop>
        requires orderly { CanStep self.old.world }
        ensures does { Ends result (λ end. DrainsAsAsked S.rule M.rule H.rule sweeps self.old end self.new) }
        ensures orderly { Ends result (λ _. CanStep self.new.world) }
    {
        let answer = drain(&mut self.world, sweeps)?;
        self.world.mark(outcome(answer))?;
        Ok(())
    }
}
