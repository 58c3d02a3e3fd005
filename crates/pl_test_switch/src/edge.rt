//! `edge K`. `placed POD POSITION`; `comes PORT FRAME`: a frame of a host; `home FRAME`: a frame for this
//! edge switch; `find PMAC`; `answer ASKER ASKER_IP IP PMAC`, `flood ASKER ASKER_IP IP`; `invalidate OLD NEW NUMBER
//! [IP]`; `report`: what a manager that begins anew is told of addresses and groups.
ghost use Rattle.std.specs.Prelude.{◌≡◌, ◌<◌, ◌≤◌, is_some, length};
ghost use Rattle.pl_layouts.specs.Memberships.{membership_in};

use crate::acts::say_acts;
use crate::numbers::tree_size;
use crate::pmacs::trap_to;
use pl_delivery::{Sent, answer, flood};
use pl_edge::EdgeTable;
use pl_frame::{Frame, view};
use pl_lists::Queue;
use pl_multicast::read_igmp;
use pl_node::{Memory, Outbox};
use pl_test_words::{byte, first_word, frame, is_remark, pmac, say, say_frame};
use pl_wiring::text::ip;
use std::alloc::Global;

pub(crate) fn play_edge(
    alloc: Global,
    words: &str,
    lines: &[&str],
    out: &mut String,
) -> Result<(), Memory> {
    let Some(k) = tree_size(words) else {
        return say(out, "not understood");
    };
    let mut bench = Bench {
        table: EdgeTable::new(alloc, k)?,
        done: Queue::new(alloc),
    };
    for line in lines {
        bench.play(alloc, line, out)?;
    }
    Ok(())
}

/// An edge switch's table, and what it did.
#[derive(Drop)]
struct Bench {
    table: EdgeTable,
    done: Outbox,
}

impl Bench {
    fn play(&mut self, alloc: Global, line: &str, out: &mut String) -> Result<(), Memory> {
        if is_remark(line) {
            return say(out, line);
        }
        let (verb, rest) = first_word(line);
        match verb {
            "placed" => self.placed(alloc, rest, out),
            "comes" => self.comes(alloc, rest, out),
            "home" => self.home(alloc, rest, out),
            "find" => self.find(alloc, rest, out),
            "answer" => say_answer(alloc, rest, out),
            "flood" => say_flood(alloc, rest, out),
            "invalidate" => self.invalidate(alloc, rest, out),
            "report" => self.report(alloc, out),
            _ => say(out, "not understood"),
        }
    }

    fn report(&mut self, alloc: Global, out: &mut String) -> Result<(), Memory> {
        self.table.report(&mut self.done)?;
        self.table.report_groups(&mut self.done)?;
        say_acts(alloc, &mut self.done, out)
    }

    // POD POSITION
    fn placed(&mut self, alloc: Global, rest: &str, out: &mut String) -> Result<(), Memory> {
        let (pod, position) = first_word(rest);
        match (pod.parse::<u16>(), byte(position)) {
            (Ok(pod), Some(position)) if !self.table.is_placed() => {
                self.table.placed(pod, position, &mut self.done)?;
                say_acts(alloc, &mut self.done, out)
            }
            _ => say(out, "not understood"),
        }
    }

    // PORT FRAME
    fn comes(&mut self, alloc: Global, rest: &str, out: &mut String) -> Result<(), Memory> {
        let (port, digits) = first_word(rest);
        match (byte(port), frame(alloc, digits)?) {
            (Some(port), Some(bytes))
                if port < self.table.k() && bytes.len() >= 14 && bytes.len() <= 65_553 => {
                let frame = Frame::copy(alloc, &bytes)?;
                self.take_in(alloc, port, frame, out)?;
                Ok(())
            }
            _ => say(out, "not understood"),
        }
    }

    // Its source is learnt, and what it says of memberships is noted; the rest is told.
    fn take_in(
        &mut self,
        alloc: Global,
        port: u8,
        frame: Frame,
        out: &mut String,
    ) -> Result<(), Memory>
        requires port { port < self.old.table.k }
        requires long { 14 ≤ length frame }
        requires short { length frame ≤ 65553 }
    {
        if !self.table.learn(port, &frame, &mut self.done)? {
            return say(out, "spent");
        }
        say_acts(alloc, &mut self.done, out)?;
        if is_report(frame.bytes()) {
            self.table.hear_members(port, &frame, &mut self.done)?;
            say_acts(alloc, &mut self.done, out)?;
            return say(out, "taken");
        }
        self.pass_in(alloc, port, frame, out)
    }

    // What goes on under the address of its source is printed as it goes on.
    fn pass_in(
        &mut self,
        alloc: Global,
        port: u8,
        mut frame: Frame,
        out: &mut String,
    ) -> Result<(), Memory>
        requires port { port < self.old.table.k }
        requires long { 14 ≤ length frame }
        requires short { length frame ≤ 65553 }
    {
        let left = self.table.ingress(port, &mut frame, &mut self.done)?;
        say_acts(alloc, &mut self.done, out)?;
        let line = format!(in alloc; "{left:?}")?;
        say(out, line.as_str())?;
        say_frame(alloc, "as", frame.bytes(), out)
    }

    // FRAME: what is done with it, and then the reply to its sender.
    fn home(&mut self, alloc: Global, rest: &str, out: &mut String) -> Result<(), Memory> {
        let Some(bytes) = frame(alloc, rest)? else {
            return say(out, "not understood");
        };
        if bytes.len() < 14 {
            return say(out, "not understood");
        }
        let frame = Frame::copy(alloc, &bytes)?;
        let sent = self.table.egress(frame, &mut self.done)?;
        say_acts(alloc, &mut self.done, out)?;
        if let Sent::Upward(frame) = sent {
            say_frame(alloc, "upward", frame.bytes(), out)?;
        }
        match self.table.reply(&bytes)? {
            Some(reply) => say_frame(alloc, "reply", reply.bytes(), out),
            None => Ok(()),
        }
    }

    // PMAC
    fn find(&self, alloc: Global, rest: &str, out: &mut String) -> Result<(), Memory> {
        let Some(pmac) = pmac(rest) else {
            return say(out, "not understood");
        };
        let grantee = self.table.find(pmac);
        let line = format!(in alloc; "{grantee:?}")?;
        say(out, line.as_str())
    }

    // OLD NEW NUMBER [IP]: a trap is set, the memberships there are forgotten, and the host is probed.
    fn invalidate(&mut self, alloc: Global, rest: &str, out: &mut String) -> Result<(), Memory> {
        let (old, rest) = first_word(rest);
        match (pmac(old), trap_to(rest)) {
            (Some(old), Some(to)) => {
                self.table.invalidate(old, to, &mut self.done)?;
                say_acts(alloc, &mut self.done, out)
            }
            _ => say(out, "not understood"),
        }
    }
}

// Whether a frame says something of memberships.
fn is_report(frame: &[u8]) -> bool
    requires long { 14 ≤ length frame.now }
    requires short { length frame.now ≤ 65553 }
    ensures { result ≡ is_some (membership_in frame.now) }
{
    match view(frame) {
        Ok(view) => read_igmp(&view).is_some(),
        Err(_) => false,
    }
}

// ASKER ASKER_IP IP PMAC
fn say_answer(alloc: Global, rest: &str, out: &mut String) -> Result<(), Memory> {
    let (asker, rest) = first_word(rest);
    let (asker_ip, rest) = first_word(rest);
    let (asked, found) = first_word(rest);
    match (pmac(asker), ip(asker_ip), ip(asked), pmac(found)) {
        (Some(asker), Some(asker_ip), Some(asked), Some(found)) => {
            let frame = answer(alloc, asker, asker_ip, asked, found)?;
            say_frame(alloc, "answer", frame.bytes(), out)
        }
        _ => say(out, "not understood"),
    }
}

// ASKER ASKER_IP IP
fn say_flood(alloc: Global, rest: &str, out: &mut String) -> Result<(), Memory> {
    let (asker, rest) = first_word(rest);
    let (asker_ip, asked) = first_word(rest);
    match (pmac(asker), ip(asker_ip), ip(asked)) {
        (Some(asker), Some(asker_ip), Some(asked)) => {
            let frame = flood(alloc, asker, asker_ip, asked)?;
            say_frame(alloc, "flood", frame.bytes(), out)
        }
        _ => say(out, "not understood"),
    }
}
