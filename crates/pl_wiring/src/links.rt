ghost use Rattle.std.specs.Prelude.{◌≡◌, ◌↔◌, IsTrue, IfOk, All, Any, slice_index_or, false};
ghost use Rattle.pl_wiring.specs.FatTree.{IsAt};
ghost use Rattle.pl_wiring.specs.Plan.{Plan};
ghost use Rattle.pl_wiring.specs.Peers.{LinksSwitches};
ghost use Rattle.pl_wiring.specs.LiveLinks.{IsFor, IsLive, is_live_at, is_live};

use crate::tables::index_in_table;
use crate::{Link, Memory, SwitchNo, Wiring};
use std::alloc::Global;
use std::marker::Model;

/// Which links of one wiring are live. Contracts see a flag for each port of each switch, and
/// `IsFor` says for which wiring it was made.
#[derive(Debug, Drop)]
pub struct LinkStates {
    k: u8,
    flags: Vec<bool>,
}

impl Model for LinkStates {
    ghost use Rattle.pl_wiring.specs.LiveLinks.{LivePorts};

    ghost Value = { LivePorts };

    ghost view = { λ states. record { k = states.k; flags = states.flags.items } };
}

impl LinkStates {
    /// All links of the wiring are live.
    pub fn new(alloc: Global, wiring: &Wiring) -> Result<LinkStates, Memory>
        ensures made_for { IfOk result (λ states. IsFor wiring.now states) }
        ensures live { IfOk result (λ states. All (IsLive states) wiring.now.links) }
    {
        Ok(LinkStates {
            k: wiring.k(),
            flags: wiring.linked_ports(alloc)?,
        })
    }

    /// Makes the link of two switches live or failed, at both its ends, and no other link.
    pub fn set(&mut self, wiring: &Wiring, a: SwitchNo, b: SwitchNo, live: bool)
        requires made_for { IsFor wiring.now self.old }
        requires linked { Any (λ l. LinksSwitches l a.0 b.0) wiring.now.links }
        ensures made_for { IsFor wiring.now self.new }
        ensures changed { All (λ l.
            LinksSwitches l a.0 b.0 → is_live self.new l ≡ live) wiring.now.links }
        ensures others { All (λ l. ¬ LinksSwitches l a.0 b.0 →
            is_live self.new l ≡ is_live self.old l) wiring.now.links }
    {
        let link = wiring.link(a, b).unwrap();
        self.flags[index_in_table(self.k, link.lower, link.lower_port)] = live;
        self.flags[index_in_table(self.k, link.upper, link.upper_port)] = live;
    }

    /// Whether a live link is at a port. No link is at a port that is not there.
    pub fn live(&self, switch: SwitchNo, port: u8) -> bool
        ensures exact { result ≡ is_live_at self.now switch.0 port }
        ensures says { (plan : Plan) → IsFor plan self.now →
            (IsTrue result ↔ Any (λ l. IsAt l switch.0 port × IsLive self.now l) plan.links) }
    {
        self.flag(switch, port)
    }

    fn flag(&self, switch: SwitchNo, port: u8) -> bool
        ensures { result ≡ is_live_at self.now switch.0 port }
    {
        port < self.k && flag_at(&self.flags, index_in_table(self.k, switch, port))
    }

    /// Whether a link is live.
    pub fn is_live(&self, link: &Link) -> bool
        ensures { result ≡ is_live self.now link.now }
    {
        self.live(link.lower, link.lower_port)
    }
}

fn flag_at(flags: &[bool], at: usize) -> bool
    ensures { result ≡ slice_index_or flags.now at false }
{
    match flags.get(at) {
        None => false,
        Some(flag) => *flag,
    }
}
