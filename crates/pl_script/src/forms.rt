ghost use Rattle.std.specs.Prelude.{◌≡◌};
ghost use Rattle.pl_script.specs.Forms.{command_of, form, expected};
ghost use Rattle.pl_script.specs.Texts.{words_of, words_in};
ghost use Rattle.pl_script.specs.declared.verb.Verb.TheVariants as verb;
ghost use Rattle.pl_script.specs.declared.verb.Expectation.TheVariants as expectation;

use crate::names::{cause, end, host, switch, ticking, who};
use crate::numbers::{count, group, number, pmac};
use crate::verb::{Expectation, Verb};
use crate::words::{Words, next_word};
use crate::{Command, Count, ScriptReason};
use pl_wiring::Wiring;

/// The command of a first word and what stands behind it.
pub(crate) fn command(wiring: &Wiring, word: &str, rest: &str) -> Result<Command, ScriptReason>
    ensures { result ≡ command_of wiring.now word.now (words_of rest.now) }
{
    let Some(verb) = Verb::read(word) else {
        return Err(ScriptReason::Word);
    };
    match verb {
        Verb::Start => start(wiring, Words::of(rest)),
        Verb::Send => send(wiring, Words::of(rest)),
        Verb::Raw => raw(wiring, Words::of(rest)),
        Verb::Retry => retry(wiring, Words::of(rest)),
        Verb::Join => join(wiring, Words::of(rest)),
        Verb::Leave => leave(wiring, Words::of(rest)),
        Verb::Move => move_host(wiring, Words::of(rest)),
        Verb::Fail => fail(wiring, Words::of(rest)),
        Verb::Repair => repair(wiring, Words::of(rest)),
        Verb::Lose => lose(wiring, Words::of(rest)),
        Verb::Deliver => deliver(wiring, Words::of(rest)),
        Verb::Tick => tick(wiring, Words::of(rest)),
        Verb::Sweep => sweep(wiring, Words::of(rest)),
        Verb::Settle => settle(wiring, Words::of(rest)),
        Verb::Random => random(wiring, Words::of(rest)),
        Verb::Restart => restart(wiring, Words::of(rest)),
        Verb::Expect => expect(wiring, rest),
    }
}

fn start(wiring: &Wiring, words: Words<'_>) -> Result<Command, ScriptReason>
    ensures { result ≡ form wiring.now verb.Start (words_in words.entry) }
{
    match words {
        Words::One(name) => Ok(Command::Start(who(wiring, name)?)),
        _ => Err(ScriptReason::Count),
    }
}

fn send(wiring: &Wiring, words: Words<'_>) -> Result<Command, ScriptReason>
    ensures { result ≡ form wiring.now verb.Send (words_in words.entry) }
{
    match words {
        Words::One(name) => Ok(Command::Send(host(wiring, name)?, Count::N(1))),
        Words::Two(name, n) => Ok(Command::Send(host(wiring, name)?, count(n)?)),
        _ => Err(ScriptReason::Count),
    }
}

fn raw(wiring: &Wiring, words: Words<'_>) -> Result<Command, ScriptReason>
    ensures { result ≡ form wiring.now verb.Raw (words_in words.entry) }
{
    match words {
        Words::One(name) => Ok(Command::Raw(host(wiring, name)?, Count::N(1))),
        Words::Two(name, n) => Ok(Command::Raw(host(wiring, name)?, count(n)?)),
        _ => Err(ScriptReason::Count),
    }
}

fn retry(wiring: &Wiring, words: Words<'_>) -> Result<Command, ScriptReason>
    ensures { result ≡ form wiring.now verb.Retry (words_in words.entry) }
{
    match words {
        Words::One(name) => Ok(Command::Retry(who(wiring, name)?)),
        _ => Err(ScriptReason::Count),
    }
}

fn join(wiring: &Wiring, words: Words<'_>) -> Result<Command, ScriptReason>
    ensures { result ≡ form wiring.now verb.Join (words_in words.entry) }
{
    match words {
        Words::Two(name, address) => Ok(Command::Join(host(wiring, name)?, group(address)?)),
        _ => Err(ScriptReason::Count),
    }
}

fn leave(wiring: &Wiring, words: Words<'_>) -> Result<Command, ScriptReason>
    ensures { result ≡ form wiring.now verb.Leave (words_in words.entry) }
{
    match words {
        Words::Two(name, address) => Ok(Command::Leave(host(wiring, name)?, group(address)?)),
        _ => Err(ScriptReason::Count),
    }
}

fn move_host(wiring: &Wiring, words: Words<'_>) -> Result<Command, ScriptReason>
    ensures { result ≡ form wiring.now verb.Move (words_in words.entry) }
{
    match words {
        Words::Three(name, edge, port) => {
            let host = host(wiring, name)?;
            let edge = switch(wiring, edge)?;
            let port = number(port, 0, 255)?;
            Ok(Command::Move(host, edge, port as u8))
        }
        _ => Err(ScriptReason::Count),
    }
}

fn fail(wiring: &Wiring, words: Words<'_>) -> Result<Command, ScriptReason>
    ensures { result ≡ form wiring.now verb.Fail (words_in words.entry) }
{
    match words {
        Words::Two(a, b) => Ok(Command::Fail(switch(wiring, a)?, switch(wiring, b)?)),
        _ => Err(ScriptReason::Count),
    }
}

fn repair(wiring: &Wiring, words: Words<'_>) -> Result<Command, ScriptReason>
    ensures { result ≡ form wiring.now verb.Repair (words_in words.entry) }
{
    match words {
        Words::Two(a, b) => Ok(Command::Repair(switch(wiring, a)?, switch(wiring, b)?)),
        _ => Err(ScriptReason::Count),
    }
}

fn lose(wiring: &Wiring, words: Words<'_>) -> Result<Command, ScriptReason>
    ensures { result ≡ form wiring.now verb.Lose (words_in words.entry) }
{
    match words {
        Words::Two(a, b) => Ok(Command::Lose(switch(wiring, a)?, switch(wiring, b)?)),
        _ => Err(ScriptReason::Count),
    }
}

fn deliver(wiring: &Wiring, words: Words<'_>) -> Result<Command, ScriptReason>
    ensures { result ≡ form wiring.now verb.Deliver (words_in words.entry) }
{
    match words {
        Words::Two(from, to) => Ok(Command::Deliver(end(wiring, from)?, end(wiring, to)?)),
        _ => Err(ScriptReason::Count),
    }
}

fn tick(wiring: &Wiring, words: Words<'_>) -> Result<Command, ScriptReason>
    ensures { result ≡ form wiring.now verb.Tick (words_in words.entry) }
{
    match words {
        Words::One(label) => Ok(Command::Tick(ticking(wiring, label)?)),
        _ => Err(ScriptReason::Count),
    }
}

fn sweep(wiring: &Wiring, words: Words<'_>) -> Result<Command, ScriptReason>
    ensures { result ≡ form wiring.now verb.Sweep (words_in words.entry) }
{
    match words {
        Words::One(n) => Ok(Command::Sweep(number(n, 1, 10_000)? as u32)),
        _ => Err(ScriptReason::Count),
    }
}

fn settle(wiring: &Wiring, words: Words<'_>) -> Result<Command, ScriptReason>
    ensures { result ≡ form wiring.now verb.Settle (words_in words.entry) }
{
    match words {
        Words::One(n) => Ok(Command::Settle(number(n, 1, 10_000)? as u32)),
        _ => Err(ScriptReason::Count),
    }
}

fn random(wiring: &Wiring, words: Words<'_>) -> Result<Command, ScriptReason>
    ensures { result ≡ form wiring.now verb.Random (words_in words.entry) }
{
    match words {
        Words::Two(x, steps) => {
            let x = number(x, 0, u64::MAX)?;
            let steps = number(steps, 1, 50_000_000)?;
            Ok(Command::Random(x, steps as u32))
        }
        _ => Err(ScriptReason::Count),
    }
}

fn restart(wiring: &Wiring, words: Words<'_>) -> Result<Command, ScriptReason>
    ensures { result ≡ form wiring.now verb.Restart (words_in words.entry) }
{
    match words {
        Words::Zero => Ok(Command::Restart),
        _ => Err(ScriptReason::Count),
    }
}

fn expect(wiring: &Wiring, rest: &str) -> Result<Command, ScriptReason>
    ensures { result ≡ form wiring.now verb.Expect (words_of rest.now) }
{
    let Some((what, rest)) = next_word(rest) else {
        return Err(ScriptReason::Count);
    };
    let Some(what) = Expectation::read(what) else {
        return Err(ScriptReason::Word);
    };
    match what {
        Expectation::Arrived => arrived(wiring, Words::of(rest)),
        Expectation::Dropped => dropped(wiring, Words::of(rest)),
        Expectation::Address => address(wiring, Words::of(rest)),
        Expectation::Settled => settled(wiring, Words::of(rest)),
    }
}

fn arrived(wiring: &Wiring, words: Words<'_>) -> Result<Command, ScriptReason>
    ensures { result ≡ expected wiring.now expectation.Arrived (words_in words.entry) }
{
    match words {
        Words::Two(name, n) => {
            let host = host(wiring, name)?;
            let n = number(n, 0, u64::MAX)?;
            Ok(Command::ExpectArrived(host, n))
        }
        _ => Err(ScriptReason::Count),
    }
}

fn dropped(wiring: &Wiring, words: Words<'_>) -> Result<Command, ScriptReason>
    ensures { result ≡ expected wiring.now expectation.Dropped (words_in words.entry) }
{
    match words {
        Words::Two(name, n) => {
            let cause = cause(name)?;
            let n = number(n, 0, u64::MAX)?;
            Ok(Command::ExpectDropped(cause, n))
        }
        _ => Err(ScriptReason::Count),
    }
}

fn address(wiring: &Wiring, words: Words<'_>) -> Result<Command, ScriptReason>
    ensures { result ≡ expected wiring.now expectation.Address (words_in words.entry) }
{
    match words {
        Words::Two(name, address) => Ok(Command::ExpectAddress(
            host(wiring, name)?,
            pmac(address)?,
        )),
        _ => Err(ScriptReason::Count),
    }
}

fn settled(wiring: &Wiring, words: Words<'_>) -> Result<Command, ScriptReason>
    ensures { result ≡ expected wiring.now expectation.Settled (words_in words.entry) }
{
    match words {
        Words::Zero => Ok(Command::ExpectSettled),
        _ => Err(ScriptReason::Count),
    }
}
