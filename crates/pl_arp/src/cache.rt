ghost use Rattle.std.specs.Prelude.{◌≡◌, ◌≢◌, ◌++◌, [], ◌∷◌, Some, None, IfOk, OnOk, OnErr};
ghost use Rattle.pl_frame.specs.declared.address.Mac.{Mac};
ghost use Rattle.pl_frame.specs.declared.address.Ip4.{Ip4};
ghost use Rattle.pl_arp.specs.Reception.{Table, hardware_of, answer_to, table_after, with_pair};

use crate::packet::{Arp, REPLY, REQUEST};
use indexmap::IndexMap;
use pl_frame::{Ip4, Mac, Memory};
use std::alloc::Global;
use std::marker::Model;

/// The addresses of the station that receives.
#[derive(Clone, Copy, Debug, PartialEq, Eq)]
pub struct Me {
    pub mac: Mac,
    pub ip: Ip4,
}

/// The table of protocol addresses and their hardware addresses, in the order in which they came.
#[derive(Debug, Drop)]
pub struct Cache {
    pairs: IndexMap<Ip4, Mac>,
}

impl Model for Cache {
    ghost use Rattle.pl_arp.specs.Reception.{Table};

    ghost Value = { Table };

    ghost view = { λ cache. cache.pairs.entries };
}

impl Cache {
    pub fn new(alloc: Global) -> Cache
        ensures { result ≡ [] }
    {
        Cache {
            pairs: IndexMap::new(alloc),
        }
    }

    /// The hardware address that is kept for a protocol address.
    pub fn get(&self, ip: Ip4) -> Option<Mac>
        ensures { result ≡ hardware_of self.now ip }
    {
        self.pairs.get(&ip).copied()
    }

    /// Receives a packet, and gives the answer that is owed for it. Memory is wanted for an unknown
    /// sender alone, and without it the table stays as it was.
    pub fn receive(&mut self, me: Me, arp: &Arp) -> Result<Option<Arp>, Memory>
        ensures table { OnOk result (self.new ≡ table_after self.old me arp.now) }
        ensures answer { IfOk result (λ answer. answer ≡ answer_to me arp.now) }
        ensures err { OnErr result (self.new ≡ self.old) }
        ensures unknown_sender { OnErr result (hardware_of self.old arp.now.spa ≡ None) }
    {
        let is_target = arp.tpa == me.ip;
        if is_target || self.pairs.contains_key(&arp.spa) {
            self.pairs.insert(arp.spa, arp.sha)?;
        }
        if is_target && arp.op == REQUEST {
            return Ok(Some(Arp {
                op: REPLY,
                sha: me.mac,
                spa: me.ip,
                tha: arp.sha,
                tpa: arp.spa,
            }));
        }
        Ok(None)
    }
}

/// Putting a pair in changes what the table has at that address alone, and an unknown address goes
/// last.
pub fn a_pair_is_put_in()
    ensures kept { (table : Table) (ip : Ip4) (mac : Mac) → hardware_of (with_pair table ip mac) ip ≡ Some mac }
    ensures others { (table : Table) (ip other : Ip4) (mac : Mac) → other.0 ≢ ip.0 →
        hardware_of (with_pair table ip mac) other ≡ hardware_of table other }
    ensures unknown { (table : Table) (ip : Ip4) (mac : Mac) → hardware_of table ip ≡ None →
        with_pair table ip mac ≡ table ++ (ip, mac) ∷ [] }
{}
