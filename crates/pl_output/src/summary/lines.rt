ghost use Rattle.std.specs.Prelude.{◌≡◌, Some};
ghost use Rattle.pl_output.specs.Summary.{cause_line, crossings_line, fabric_line, host_line, rest_text, settled_line, steps_line};

use crate::summary::Rest;
use crate::summary::host_counts::HostCounts;
use crate::wiring::link_count;
use pl_journal::Cause;
use pl_wiring::{Host, Wiring};
use std::fmt;

/// The line of the fabric.
#[derive(Clone, Copy)]
pub(crate) struct FabricLine<'a>(pub &'a Wiring);

impl fmt::Display for FabricLine<'_> {
    ghost output = { λ line. Some (fabric_line line.0.now) };

    #[tactic(auto, unfolding(crate::specs::Summary::fabric_line))]
    fn fmt<W: fmt::Write>(&self, f: &mut fmt::Formatter<W>) -> fmt::Result {
        let k = self.0.k();
        let switches = self.0.switch_count();
        let links = link_count(self.0);
        let hosts = self.0.host_count();
        write!(f, "k {k} switches {switches} links {links} hosts {hosts}\n")
    }
}

/// The line of the script's lines, the steps and the entries.
#[derive(Clone, Copy)]
pub(crate) struct StepsLine {
    pub lines: u64,
    pub steps: u64,
    pub entries: usize,
}

impl fmt::Display for StepsLine {
    ghost output = { λ line. Some (steps_line line.lines line.steps line.entries) };

    #[tactic(auto, unfolding(crate::specs::Summary::steps_line))]
    fn fmt<W: fmt::Write>(&self, f: &mut fmt::Formatter<W>) -> fmt::Result {
        let StepsLine {
            lines,
            steps,
            entries,
        } = self;
        write!(f, "lines {lines} steps {steps} entries {entries}\n")
    }
}

/// The line of a cause, if frames ended for it.
#[derive(Clone, Copy)]
pub(crate) struct CauseLine {
    pub cause: Cause,
    pub ended: u64,
}

impl fmt::Display for CauseLine {
    ghost output = { λ line. Some (cause_line line.cause line.ended) };

    #[tactic(auto, unfolding(crate::specs::Summary::cause_line))]
    fn fmt<W: fmt::Write>(&self, f: &mut fmt::Formatter<W>) -> fmt::Result {
        let CauseLine { cause, ended } = self;
        if *ended == 0 {
            return Ok(());
        }
        write!(f, "dropped {cause} {ended}\n")
    }
}

/// The line of a host.
#[derive(Clone, Copy)]
pub(crate) struct HostLine<'a> {
    pub host: &'a Host,
    pub counts: HostCounts,
    pub rest: Rest,
}

impl fmt::Display for HostLine<'_> {
    ghost output = { λ line. Some (host_line line.host.now line.counts line.rest) };

    #[tactic(auto, unfolding(crate::specs::Summary::host_line))]
    fn fmt<W: fmt::Write>(&self, f: &mut fmt::Formatter<W>) -> fmt::Result {
        let HostLine { host, counts, rest } = self;
        let name = &host.name;
        write!(f, "host {name} {counts} {rest}\n")
    }
}

/// What is left of a host.
impl fmt::Display for Rest {
    ghost output = { λ rest. Some (rest_text rest) };

    #[tactic(auto, unfolding(crate::specs::Summary::rest_text))]
    fn fmt<W: fmt::Write>(&self, f: &mut fmt::Formatter<W>) -> fmt::Result {
        let Rest { held, unread, tail } = self;
        write!(f, "held {held} unread {unread} tail {tail}")
    }
}

/// The line of the switches that frames crossed.
#[derive(Clone, Copy)]
pub(crate) struct CrossingsLine(pub u64);

impl fmt::Display for CrossingsLine {
    ghost output = { λ line. Some (crossings_line line.0) };

    #[tactic(auto, unfolding(crate::specs::Summary::crossings_line))]
    fn fmt<W: fmt::Write>(&self, f: &mut fmt::Formatter<W>) -> fmt::Result {
        let crossed = self.0;
        write!(f, "crossings {crossed}\n")
    }
}

pub(crate) fn settled_line(settled: bool) -> &'static str
    ensures { result.now ≡ settled_line settled }
{
    if settled {
        "settled yes\n"
    } else {
        "settled no\n"
    }
}
