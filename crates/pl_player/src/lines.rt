ghost use Rattle.std.specs.Prelude.{◌≡◌, IsTrue, MatchResult, OnOk, false, true};
ghost use Rattle.pl_inputs.specs.Records.{records_of};
ghost use Rattle.pl_world.specs.Ready.{CanStep};
ghost use Rattle.pl_script_rule.specs.Expecting.{IsNewest, arrivals, ended_settled, endings};
ghost use Rattle.pl_script_rule.specs.Lines.{Does, DoesLine, DoesLines, Expects};
ghost use Rattle.pl_script_rule.specs.Scenes.{Ends, begun};
ghost use Rattle.pl_player.specs.Endings.{EndsLines};

use crate::expecting::{arrivals, ended_settled, endings, is_newest};
use crate::player::{Player, Stopped};
use pl_frame::Memory;
use pl_inputs::Capture;
use pl_journal::{Cause, Entry};
use pl_node::{HostLogic, ManagerLogic, SwitchLogic};
use pl_pmac::Pmac;
use pl_script::{Command, ScriptLine};
use pl_script_rule::Stop;
use pl_stage::Watcher;
use pl_wiring::HostNo;
use pl_world::Event;

// What is expected is so, or not.
fn expect(holds: bool) -> Result<(), Stop>
    ensures { MatchResult result (λ _. holds ≡ true) (λ stop. (stop ≡ Stop.ExpectFailed) × (holds ≡ false)) }
{
    if holds {
        Ok(())
    } else {
        Err(Stop::ExpectFailed)
    }
}

impl<S: SwitchLogic, M: ManagerLogic, H: HostLogic, W: Watcher<S, M, H>> Player<S, M, H, W> {
    fn expect_arrived(&self, h: HostNo, many: u64) -> Result<(), Stop>
        ensures { Ends result (λ end. Expects (arrivals self.now.world.journal h ≡ many) self.now end self.now) }
    {
        expect(arrivals(self.journal(), h) as u64 == many)
    }

    fn expect_dropped(&self, cause: Cause, many: u64) -> Result<(), Stop>
        ensures { Ends result (λ end. Expects (endings self.now.world.journal cause ≡ many) self.now end self.now) }
    {
        expect(endings(self.journal(), cause) as u64 == many)
    }

    fn expect_address(&self, h: HostNo, pmac: Pmac) -> Result<(), Stop>
        ensures { Ends result (λ end. Expects (IsNewest self.now.world.journal h pmac) self.now end self.now) }
    {
        let holds = is_newest(self.alloc(), self.journal(), h, pmac)?;
        expect(holds)
    }

    fn expect_settled(&self) -> Result<(), Stop>
        ensures { Ends result (λ end. Expects (IsTrue (ended_settled self.now.world.journal)) self.now end self.now) }
    {
        expect(ended_settled(self.journal()))
    }

    // What a command asks for.
    fn act(&mut self, captures: &[Capture], command: Command) -> Result<(), Stop>
        requires orderly { CanStep self.old.world }
        ensures does { Ends result (λ end. Does S.rule M.rule H.rule (records_of captures.now) command self.old end self.new) }
        ensures orderly { Ends result (λ _. CanStep self.new.world) }
    {
        match command {
            Command::Start(who) => self.start(who),
            Command::Send(h, count) => self.ask(captures, h, false, count),
            Command::Raw(h, count) => self.ask(captures, h, true, count),
            Command::Retry(who) => self.retry(who),
            Command::Join(h, group) => self.happen(&Event::Join(h, group)),
            Command::Leave(h, group) => self.happen(&Event::Leave(h, group)),
            Command::Move(h, s, port) => self.happen(&Event::Move(h, s, port)),
            Command::Fail(a, b) => self.happen(&Event::Fail(a, b)),
            Command::Repair(a, b) => self.happen(&Event::Repair(a, b)),
            Command::Lose(a, b) => self.lose(a, b),
            Command::Deliver(from, to) => self.deliver(from, to),
            Command::Tick(Some(s)) => self.happen(&Event::Tick(s)),
            Command::Tick(None) => self.tick_all(),
            Command::Sweep(times) => self.sweep(times),
            Command::Settle(rounds) => self.settle(rounds),
            Command::Drain(sweeps) => self.drain(sweeps),
            Command::Restart => self.happen(&Event::Restart),
            Command::Random(number, steps) => self.random(number, steps),
            Command::ExpectArrived(h, many) => self.expect_arrived(h, many),
            Command::ExpectDropped(cause, many) => self.expect_dropped(cause, many),
            Command::ExpectAddress(h, pmac) => self.expect_address(h, pmac),
            Command::ExpectSettled => self.expect_settled(),
        }
    }

    // The journal says that a line begins.
    fn begin_line(&mut self, number: u32) -> Result<(), Memory>
        ensures begun { OnOk result (self.new ≡ begun self.old number) }
        ensures orderly { OnOk result (CanStep self.old.world → CanStep self.new.world) }
    {
        self.world.mark(Entry::Line(number))
    }

    // A line begins, and its command is done.
    fn play_line(&mut self, captures: &[Capture], line: &ScriptLine) -> Result<(), Stop>
        requires orderly { CanStep self.old.world }
        ensures does { Ends result (λ end. DoesLine S.rule M.rule H.rule (records_of captures.now) line.now self.old end self.new) }
        ensures orderly { Ends result (λ _. CanStep self.new.world) }
    {
        self.begin_line(line.number)?;
        self.act(captures, line.command)
    }

    /// Plays lines over the hosts' captures, which stand in the order of the hosts, up to the first line
    /// that is stopped. After want of memory the player is not used again.
    pub fn play(&mut self, captures: &[Capture], lines: &[ScriptLine]) -> Result<(), Stopped>
        requires orderly { CanStep self.old.world }
        ensures does { EndsLines result (λ end. DoesLines S.rule M.rule H.rule (records_of captures.now) lines.now self.old end self.new) }
        ensures orderly { EndsLines result (λ _. CanStep self.new.world) }
    {
        for line in lines {
            if let Err(stop) = self.play_line(captures, line) {
                return Err(Stopped {
                    line: line.number,
                    stop,
                });
            }
        }
        Ok(())
    }
}
