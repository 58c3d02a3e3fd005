ghost use Rattle.std.specs.Prelude.{◌≡◌, ◌<◌, ◌≤◌, ◌*◌, ◌/◌, ◌^◌, ◌&&◌, ◌==◌, true, nat_lt, is_none, is_some, length, IfSome};
ghost use Rattle.pl_node.specs.SwitchFacts.{has_granted, present_attempt, IsTreeSize};
ghost use Rattle.pl_node.specs.SwitchViews.{SwitchView};
ghost use Rattle.pl_layouts.specs.Placement.{is_known};
ghost use Rattle.pl_position.specs.Candidacy.{first_candidacy, proposal_of, with_candidacy};
ghost use Rattle.pl_position.specs.Voting.{CountsPresentVotes, GivesWayDuly, IsFixedByMajority, IsSameOrNext};
ghost use Rattle.pl_switch_rule.specs.Positions.{after_vote, fixes_position, moves_on, with_granted};

use pl_frame::SwitchId;
use pl_node::{PortSet, Proposal, Vote};
use std::marker::Model;

/// What an edge switch keeps of its attempts to get a position in its pod. Contracts see the part of what
/// the switch knows (`Candidacy`); `with_candidacy` puts it into the whole.
#[derive(Debug, Drop)]
pub struct Proposer {
    k: u8,
    position: Option<u8>,
    attempt: u32,
    proposed: u8,
    granted: PortSet,
}

impl Model for Proposer {
    ghost use Rattle.pl_lists.specs.Ports.{ports_of};
    ghost use Rattle.pl_position.specs.Candidacy.{Candidacy, IsCandidacy};

    ghost Value = { Candidacy };

    ghost view = { λ p. record { k = p.k; position = p.position; attempt = p.attempt; proposed = p.proposed; granted = ports_of p.granted } };

    ghost invariant = { λ p. IsCandidacy p.k p.position p.attempt p.proposed };
}

impl Proposer {
    /// The proposer of a switch of k ports, an even number from 4 to 24, which has made no attempt yet.
    pub fn new(k: u8) -> Proposer
        requires { IsTreeSize k }
        ensures { result ≡ first_candidacy k }
    {
        Proposer {
            k,
            position: None,
            attempt: 1,
            proposed: 0,
            granted: PortSet::empty(),
        }
    }

    /// How many ports the switch has.
    pub fn k(&self) -> u8
        ensures { result ≡ self.now.k }
    {
        self.k
    }

    /// What an edge switch proposes now; none exactly where its position is fixed.
    pub fn propose(&self) -> Option<Proposal>
        ensures proposal { result ≡ proposal_of self.now }
        ensures can_be_told { IfSome result (λ p. (1 ≤ p.attempt) × (p.position < self.now.k / 2)) }
    {
        match self.position {
            Some(_) => None,
            None => Some(Proposal {
                attempt: self.attempt,
                position: self.proposed,
            }),
        }
    }

    /// The present attempt and position of a switch of this level, as `SwitchFacts` asks for it.
    pub fn attempt(&self, level: Option<u8>) -> Option<(u32, u8)>
        ensures { (v : SwitchView) → v.place.level ≡ level → result ≡ present_attempt (with_candidacy self.now v) }
    {
        match level {
            Some(0) if self.position.is_none() => Some((self.attempt, self.proposed)),
            _ => None,
        }
    }

    /// Whether the present attempt was granted from a port.
    pub fn granted(&self, port: u8) -> bool
        requires { port < self.now.k }
        ensures { (v : SwitchView) → result ≡ has_granted (with_candidacy self.now v) port }
    {
        self.granted.contains(port)
    }

    /// The position, once it is fixed.
    pub fn fixed(&self) -> Option<u8>
        ensures position { result ≡ self.now.position }
        ensures can_be_told { IfSome result (λ p. p < self.now.k / 2) }
    {
        self.position
    }

    /// A vote comes to an edge switch with this id, at a port. The answer says whether the position became
    /// fixed by it.
    pub fn on_vote(&mut self, me: SwitchId, port: u8, vote: &Vote) -> bool
        requires { port < self.old.k }
        ensures step { (v : SwitchView) → v.id ≡ me → v.k ≡ self.old.k → is_known v.place.level 0 ≡ true →
            with_candidacy self.new v ≡ after_vote (with_candidacy self.old v) port vote.now }
        ensures counts { CountsPresentVotes vote.now self.old self.new }
        ensures fixed { IsFixedByMajority vote.now self.old self.new result }
        ensures gives_way { GivesWayDuly me vote.now self.old self.new }
    {
        if !self.counts(vote) {
            return false;
        }
        if vote.granted {
            return self.count_grant(port);
        }
        if vote.gives_way(me) {
            self.move_on();
        }
        false
    }

    // Whether a vote is on the present attempt and position of a switch whose position is not fixed.
    fn counts(&self, vote: &Vote) -> bool
        ensures { result ≡ (is_none self.now.position && (vote.now.attempt == self.now.attempt) && (vote.now.position == self.now.proposed)) }
    {
        self.position.is_none() && vote.attempt == self.attempt && vote.position == self.proposed
    }

    // One more grant; whether the position is fixed by it.
    fn count_grant(&mut self, port: u8) -> bool
        requires { port < self.old.k }
        ensures step { (v : SwitchView) → v.k ≡ self.old.k →
            with_candidacy self.new v ≡ fixes_position (with_granted (with_candidacy self.old v) port) }
        ensures k { self.new.k ≡ self.old.k }
        ensures attempt { self.new.attempt ≡ self.old.attempt }
        ensures fixed { is_none self.old.position ≡ true → result ≡ is_some self.new.position }
        ensures majority { result ≡ true → self.old.k / 2 < 2 * length self.new.granted }
        ensures position { result ≡ true → self.new.position ≡ Some self.old.proposed }
    {
        self.granted.insert(port);
        let fixed = self.has_majority();
        if fixed {
            self.position = Some(self.proposed);
        }
        fixed
    }

    // Whether more than half of the k/2 switches above have granted.
    fn has_majority(&self) -> bool
        ensures { result ≡ nat_lt (self.now.k / 2) (2 * length self.now.granted) }
    {
        self.granted.len() > usize::from(self.k / 2 / 2)
    }

    // The next attempt, at the next position; there is none behind the last.
    fn move_on(&mut self)
        ensures step { (v : SwitchView) → v.k ≡ self.old.k → with_candidacy self.new v ≡ moves_on (with_candidacy self.old v) }
        ensures k { self.new.k ≡ self.old.k }
        ensures position { self.new.position ≡ self.old.position }
        ensures last { self.old.attempt ≡ 4294967295 → self.new ≡ self.old }
        ensures next { IsSameOrNext self.old self.new }
    {
        if self.attempt == u32::MAX {
            return;
        }
        self.attempt += 1;
        self.proposed = (self.proposed + 1) % (self.k / 2);
        self.granted = PortSet::empty();
    }
}
