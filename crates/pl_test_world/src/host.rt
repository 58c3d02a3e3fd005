use pl_arp::Me;
use pl_frame::Memory;
use pl_host::Host;
use pl_journal::Skip;
use pl_lists::Queue;
use pl_node::{HostAct, HostLogic, HostOutbox, HostTable, Reception};
use pl_test_words::{first_word, frame, group, is_remark, say, say_frame};
use std::alloc::Global;

/// Plays the lines of a host.
pub(crate) fn play_host(
    alloc: Global,
    me: Me,
    known: &HostTable,
    lines: &[&str],
    out: &mut String,
) -> Result<bool, Memory> {
    let mut bench = HostBench::boot(alloc, me, known)?;
    for line in lines {
        bench.play(alloc, line, out)?;
    }
    Ok(true)
}

/// A host, and what it has sent.
#[derive(Drop)]
struct HostBench {
    host: Host,
    sent: HostOutbox,
}

impl HostBench {
    fn boot(alloc: Global, me: Me, known: &HostTable) -> Result<HostBench, Memory> {
        Ok(HostBench {
            host: Host::boot(alloc, me, known)?,
            sent: Queue::new(alloc),
        })
    }

    /// Plays a line: each frame that the host sends is printed, and then its answer.
    fn play(&mut self, alloc: Global, line: &str, out: &mut String) -> Result<(), Memory> {
        if is_remark(line) {
            return say(out, line);
        }
        let mut answer = String::new(alloc);
        self.answer(alloc, line, &mut answer)?;
        self.tell_sent(alloc, out)?;
        out.push_str(&answer)
    }

    fn answer(&mut self, alloc: Global, line: &str, answer: &mut String) -> Result<(), Memory> {
        let (verb, rest) = first_word(line);
        match verb {
            "start" => self.start(answer),
            "retry" => self.retry(answer),
            "moved" => self.moved(answer),
            "held" => self.held(alloc, answer),
            _ => self.answer_word(alloc, verb, rest, answer),
        }
    }

    // What is asked with a word behind the verb.
    fn answer_word(
        &mut self,
        alloc: Global,
        verb: &str,
        rest: &str,
        answer: &mut String,
    ) -> Result<(), Memory> {
        match verb {
            "play" => self.play_frame(alloc, false, rest, answer),
            "raw" => self.play_frame(alloc, true, rest, answer),
            "join" => self.join(rest, answer),
            "leave" => self.leave(rest, answer),
            "receive" => self.receive(alloc, rest, answer),
            _ => say(answer, "not understood"),
        }
    }

    fn start(&mut self, answer: &mut String) -> Result<(), Memory> {
        self.host.start(&mut self.sent)?;
        say(answer, "done")
    }

    fn retry(&mut self, answer: &mut String) -> Result<(), Memory> {
        self.host.retry(&mut self.sent)?;
        say(answer, "done")
    }

    fn moved(&mut self, answer: &mut String) -> Result<(), Memory> {
        self.host.moved(&mut self.sent)?;
        say(answer, "done")
    }

    // ORIGINAL FRAME
    fn play_frame(
        &mut self,
        alloc: Global,
        raw: bool,
        rest: &str,
        answer: &mut String,
    ) -> Result<(), Memory> {
        let (original, digits) = first_word(rest);
        let Ok(original) = original.parse::<u32>() else {
            return say(answer, "not understood");
        };
        let Some(frame) = frame(alloc, digits)? else {
            return say(answer, "not understood");
        };
        let skip = if raw {
            self.host.raw(&frame, original, &mut self.sent)?
        } else {
            self.host.play(&frame, original, &mut self.sent)?
        };
        say_played(alloc, skip, answer)
    }

    // GROUP
    fn join(&mut self, rest: &str, answer: &mut String) -> Result<(), Memory> {
        let Some(group) = group(rest) else {
            return say(answer, "not understood");
        };
        self.host.join(group, &mut self.sent)?;
        say(answer, "done")
    }

    // GROUP
    fn leave(&mut self, rest: &str, answer: &mut String) -> Result<(), Memory> {
        let Some(group) = group(rest) else {
            return say(answer, "not understood");
        };
        self.host.leave(group, &mut self.sent)?;
        say(answer, "done")
    }

    // FRAME
    fn receive(&mut self, alloc: Global, rest: &str, answer: &mut String) -> Result<(), Memory> {
        let Some(frame) = frame(alloc, rest)? else {
            return say(answer, "not understood");
        };
        match self.host.receive(&frame, &mut self.sent)? {
            Reception::Kept => say(answer, "kept"),
            Reception::NotMember => say(answer, "not a member"),
        }
    }

    fn held(&self, alloc: Global, answer: &mut String) -> Result<(), Memory> {
        let held = self.host.held();
        let line = format!(in alloc; "held {held}")?;
        say(answer, line.as_str())
    }

    // The frames that were sent by now, the first one first.
    fn tell_sent(&mut self, alloc: Global, out: &mut String) -> Result<(), Memory> {
        for _ in 0..self.sent.len() {
            if let Some(HostAct::Send(frame)) = self.sent.take_first() {
                say_frame(alloc, "sends", frame.bytes(), out)?;
            }
        }
        Ok(())
    }
}

fn say_played(alloc: Global, skip: Option<Skip>, answer: &mut String) -> Result<(), Memory> {
    match skip {
        None => say(answer, "played"),
        Some(skip) => {
            let line = format!(in alloc; "skipped {skip}")?;
            say(answer, line.as_str())
        }
    }
}
