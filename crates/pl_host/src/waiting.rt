ghost use Rattle.std.specs.Prelude.{◌≡◌, ◌+◌, [], ◌++◌, OnErr, OnOk, length, map, sum_by};
ghost use Rattle.std.specs.Map.{keys_of, values_of, remove_entry};
ghost use Rattle.pl_arp.specs.Reception.{same_ip};
ghost use Rattle.pl_node.specs.declared.acts.HostAct.TheVariants.{Send};
ghost use Rattle.pl_node.specs.HostViews.{held_for, with_held};
ghost use Rattle.pl_host_rule.specs.HostRule.{request_frame};
ghost use Rattle.pl_host.specs.Waiting.{AreAddressesRising};

use crate::carried::Carried;
use crate::frames::request;
use crate::sending::put;
use pl_arp::Me;
use pl_frame::{Ip4, Memory};
use pl_lists::Queue;
use pl_node::HostOutbox;
use std::alloc::{AllocError, Global};
use std::collections::BTreeMap;
use std::marker::Model;

// The frames of each address.
type Frames = BTreeMap<Ip4, Queue<Carried>>;

/// The frames that wait for hardware addresses. Contracts see the addresses, rising, each with its frames
/// in order.
#[derive(Debug, Drop)]
pub(crate) struct Waiting {
    by_address: Frames,
    count: u64,
}

impl Model for Waiting {
    ghost use Rattle.pl_node.specs.HostViews.{HeldFrames};
    ghost use Rattle.pl_host.specs.Waiting.{IsTallied};

    ghost Value = { HeldFrames };

    ghost view = { λ waiting. waiting.by_address.entries };

    ghost invariant = { λ waiting. IsTallied waiting.by_address.entries waiting.count };
}

impl Waiting {
    pub(crate) fn new(alloc: Global) -> Waiting
        ensures { result ≡ [] }
    {
        Waiting {
            by_address: BTreeMap::new(alloc),
            count: 0,
        }
    }

    /// How many frames wait in all.
    pub(crate) fn count(&self) -> u64
        ensures { result ≡ sum_by (λ entry. length entry.1) self.now }
    {
        self.count
    }

    /// How many frames wait for an address.
    pub(crate) fn len_for(&self, ip: Ip4) -> usize
        ensures { result ≡ length (held_for self.now ip) }
    {
        match self.by_address.get(&ip) {
            Some(frames) => frames.len(),
            None => 0,
        }
    }

    /// Asks again for each address for which frames wait.
    pub(crate) fn ask(&self, alloc: Global, me: Me, out: &mut HostOutbox) -> Result<(), Memory>
        ensures { OnOk result (out.new ≡ out.old ++ map Send (map (λ entry. request_frame me entry.0) self.now)) }
    {
        for ip in self.by_address.keys() {
            put(request(alloc, me, *ip)?, out)?;
        }
        Ok(())
    }

    /// One more frame waits for an address.
    pub(crate) fn hold(&mut self, alloc: Global, ip: Ip4, frame: Carried) -> Result<(), Memory>
        ensures ok { OnOk result (self.new ≡ with_held self.old ip frame) }
        ensures err { OnErr result (self.new ≡ self.old) }
    {
        let Some(count) = self.count.checked_add(1) else {
            return Err(AllocError);
        };
        put_behind(&mut self.by_address, alloc, ip, frame)?;
        self.count = count;
        Ok(())
    }

    /// Takes out the frames that wait for an address.
    pub(crate) fn take(&mut self, alloc: Global, ip: Ip4) -> Queue<Carried>
        ensures frames { result ≡ held_for self.old ip }
        ensures rest { self.new ≡ remove_entry (same_ip ip) self.old }
        ensures rising { AreAddressesRising (keys_of self.old) }
    {
        match self.by_address.remove(&ip) {
            Some(frames) => {
                self.count -= frames.len() as u64;
                frames
            }
            None => Queue::new(alloc),
        }
    }
}

// Puts a frame behind those of an address.
fn put_behind(by_address: &mut Frames, alloc: Global, ip: Ip4, frame: Carried) -> Result<(), Memory>
    ensures held { OnOk result (by_address.new.entries ≡ with_held by_address.old.entries ip frame) }
    ensures count { OnOk result (sum_by length (values_of by_address.new.entries) ≡ sum_by length (values_of by_address.old.entries) + 1) }
    ensures rising { AreAddressesRising (keys_of by_address.new.entries) }
    ensures err { OnErr result (by_address.new.entries ≡ by_address.old.entries) }
{
    match by_address.get_mut(&ip) {
        Some(frames) => frames.push(frame),
        None => {
            let mut frames = Queue::new(alloc);
            frames.push(frame)?;
            by_address.insert(ip, frames)?;
            Ok(())
        }
    }
}
