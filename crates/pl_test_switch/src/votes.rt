//! `edge ID` and `aggregation` add a switch; they are counted from 0. `asks E A`: edge switch number E
//! proposes to aggregation switch number A, whose vote is kept under the next number. `hears E PORT V`:
//! vote number V comes to E. `announces E A`: E says to A that its position is fixed. `propose E`,
//! `hold A POSITION`.
ghost use Rattle.std.specs.Prelude.{◌<◌};
ghost use Rattle.pl_node.specs.SwitchFacts.{IsTreeSize};

use crate::numbers::tree_size;
use pl_frame::SwitchId;
use pl_node::{Memory, Vote};
use pl_position::{Holder, Proposer};
use pl_test_words::{byte, first_word, id, is_remark, say};
use std::alloc::Global;

pub(crate) fn play_votes(
    alloc: Global,
    words: &str,
    lines: &[&str],
    out: &mut String,
) -> Result<(), Memory> {
    let Some(k) = tree_size(words) else {
        return say(out, "not understood");
    };
    let mut pod = Pod {
        edges: Vec::new(alloc),
        aggregations: Vec::new(alloc),
        votes: Vec::new(alloc),
    };
    for line in lines {
        pod.play(alloc, k, line, out)?;
    }
    Ok(())
}

/// The switches of a pod, and the votes that were given in it.
#[derive(Drop)]
struct Pod {
    edges: Vec<Edge>,
    aggregations: Vec<Holder>,
    votes: Vec<Vote>,
}

#[derive(Drop)]
struct Edge {
    id: SwitchId,
    proposer: Proposer,
}

impl Pod {
    fn play(&mut self, alloc: Global, k: u8, line: &str, out: &mut String) -> Result<(), Memory>
        requires { IsTreeSize k }
    {
        if is_remark(line) {
            return say(out, line);
        }
        let (verb, rest) = first_word(line);
        match verb {
            "edge" => self.add_edge(k, rest, out),
            "aggregation" => self.add_aggregation(k),
            "asks" => self.asks(alloc, rest, out),
            "hears" => self.hears(rest, out),
            "announces" => self.announces(rest, out),
            "propose" => self.propose(alloc, rest, out),
            "hold" => self.hold(alloc, rest, out),
            _ => say(out, "not understood"),
        }
    }

    // ID
    fn add_edge(&mut self, k: u8, rest: &str, out: &mut String) -> Result<(), Memory>
        requires { IsTreeSize k }
    {
        let Some(id) = id(rest) else {
            return say(out, "not understood");
        };
        let proposer = Proposer::new(k);
        self.edges.push(Edge { id, proposer })?;
        Ok(())
    }

    fn add_aggregation(&mut self, k: u8) -> Result<(), Memory>
        requires { IsTreeSize k }
    {
        self.aggregations.push(Holder::new(k))?;
        Ok(())
    }

    // E A
    fn asks(&mut self, alloc: Global, rest: &str, out: &mut String) -> Result<(), Memory> {
        let (edge, aggregation) = first_word(rest);
        let Some(edge) = self.edge(edge) else {
            return say(out, "not understood");
        };
        let (edge, proposal) = (edge.id, edge.proposer.propose());
        match (proposal, self.holder(aggregation)) {
            (Some(proposal), Some(holder)) if usize::from(proposal.position) < holder.positions() =>
                {
                    let vote = holder.vote(edge, proposal);
                    let number = self.votes.len();
                    self.votes.push(vote)?;
                    let line = format!(in alloc; "{number}: {vote:?}")?;
                    say(out, line.as_str())
                }
            _ => say(out, "nothing is asked"),
        }
    }

    // E PORT V
    fn hears(&mut self, rest: &str, out: &mut String) -> Result<(), Memory> {
        let (edge, rest) = first_word(rest);
        let (port, vote) = first_word(rest);
        let (Some(port), Some(vote)) = (byte(port), self.vote(vote)) else {
            return say(out, "not understood");
        };
        match self.edge_mut(edge) {
            Some(edge) if port < edge.proposer.k() => edge.hear(port, &vote, out),
            _ => say(out, "not understood"),
        }
    }

    // E A
    fn announces(&mut self, rest: &str, out: &mut String) -> Result<(), Memory> {
        let (edge, aggregation) = first_word(rest);
        let Some(edge) = self.edge(edge) else {
            return say(out, "not understood");
        };
        let (edge, position) = (edge.id, edge.proposer.fixed());
        match (position, self.holder(aggregation)) {
            (Some(position), Some(holder)) if usize::from(position) < holder.positions() => {
                holder.announced(edge, position);
                Ok(())
            }
            _ => say(out, "nothing is announced"),
        }
    }

    // E
    fn propose(&self, alloc: Global, rest: &str, out: &mut String) -> Result<(), Memory> {
        let Some(edge) = self.edge(rest) else {
            return say(out, "not understood");
        };
        let proposal = edge.proposer.propose();
        let line = format!(in alloc; "{proposal:?}")?;
        say(out, line.as_str())
    }

    // A POSITION
    fn hold(&mut self, alloc: Global, rest: &str, out: &mut String) -> Result<(), Memory> {
        let (aggregation, position) = first_word(rest);
        match (self.holder(aggregation), byte(position)) {
            (Some(holder), Some(position)) if usize::from(position) < holder.positions() => {
                let hold = holder.hold(position);
                let line = format!(in alloc; "{hold:?}")?;
                say(out, line.as_str())
            }
            _ => say(out, "not understood"),
        }
    }

    fn edge(&self, text: &str) -> Option<&Edge> {
        self.edges.get(text.parse::<usize>().ok()?)
    }

    fn edge_mut(&mut self, text: &str) -> Option<&mut Edge> {
        self.edges.get_mut(text.parse::<usize>().ok()?)
    }

    fn holder(&mut self, text: &str) -> Option<&mut Holder> {
        self.aggregations.get_mut(text.parse::<usize>().ok()?)
    }

    fn vote(&self, text: &str) -> Option<Vote> {
        self.votes.get(text.parse::<usize>().ok()?).copied()
    }
}

impl Edge {
    fn hear(&mut self, port: u8, vote: &Vote, out: &mut String) -> Result<(), Memory>
        requires { port < self.old.proposer.k }
    {
        if self.proposer.on_vote(self.id, port, vote) {
            say(out, "its position is fixed")
        } else {
            say(out, "nothing is fixed")
        }
    }
}
