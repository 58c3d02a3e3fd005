ghost use Rattle.std.specs.Prelude.{◌≡◌, ◌&&◌, find, if◌then◌else◌, not, IfOk, OnErr, OnOk, Some};
ghost use Rattle.std.specs.Map.{lookup};
ghost use Rattle.pl_layouts.specs.Equality.{same_mac};

use indexmap::IndexMap;
use pl_arp::Me;
use pl_frame::{Mac, Memory};
use pl_node::HostTable;
use std::alloc::Global;
use std::marker::Model;

/// What was found for the hardware addresses that were asked for.
type Answers = IndexMap<Mac, Option<Me>>;

/// The hosts of a topology, which are found by their hardware addresses. Contracts see the list of them,
/// in the topology's order. A host plays frames to few others: an address is looked for when it is asked
/// for first, and the answer is kept, so that a fabric of many hosts has no index for each of them.
#[derive(Debug, Drop)]
pub(crate) struct Owners {
    hosts: Vec<Me>,
    answers: Answers,
}

impl Model for Owners {
    ghost use Rattle.std.specs.Prelude.{List};
    ghost use Rattle.pl_arp.specs.declared.cache.Me.{Me};
    ghost use Rattle.pl_host.specs.Owners.{AreAnswers};

    ghost Value = { List Me };

    ghost view = { λ owners. owners.hosts.items };

    ghost invariant = { λ owners. AreAnswers owners.hosts.items owners.answers.entries };
}

impl Owners {
    /// The hosts of a table.
    pub(crate) fn of_table(alloc: Global, table: &HostTable) -> Result<Owners, Memory>
        ensures { IfOk result (λ owners. owners ≡ table.now) }
    {
        let mut hosts = Vec::new(alloc);
        hosts.extend_from_slice(table.as_slice())?;
        Ok(Owners {
            hosts,
            answers: IndexMap::new(alloc),
        })
    }

    /// The first host with a hardware address that is not the one of a host itself.
    pub(crate) fn other_host(&mut self, me: Me, mac: Mac) -> Option<Me>
        ensures found { result ≡ find (λ host. same_mac host.mac mac && not (same_mac mac me.mac)) self.old }
        ensures stays { self.new ≡ self.old }
    {
        if mac == me.mac { None } else { self.owner(mac) }
    }

    // The first host with a hardware address.
    fn owner(&mut self, mac: Mac) -> Option<Me>
        ensures found { result ≡ find (λ host. same_mac host.mac mac) self.old }
        ensures stays { self.new ≡ self.old }
    {
        match self.answers.get(&mac).copied() {
            Some(answer) => answer,
            None => self.look_for(mac),
        }
    }

    // The same for one that was not asked for. An answer for which there is no memory is looked for again.
    fn look_for(&mut self, mac: Mac) -> Option<Me>
        ensures found { result ≡ find (λ host. same_mac host.mac mac) self.old }
        ensures stays { self.new ≡ self.old }
    {
        let answer = first_with(self.hosts.as_slice(), mac);
        match keep(&mut self.answers, mac, answer) {
            Ok(()) | Err(_) => answer,
        }
    }
}

// The first of the hosts with a hardware address.
fn first_with(hosts: &[Me], mac: Mac) -> Option<Me>
    ensures { result ≡ find (λ host. same_mac host.mac mac) hosts.now }
{
    for host in hosts {
        if host.mac == mac {
            return Some(*host);
        }
    }
    None
}

// Keeps an answer.
fn keep(answers: &mut Answers, mac: Mac, answer: Option<Me>) -> Result<(), Memory>
    ensures ok { OnOk result ((m : Mac) → lookup (same_mac m) answers.new.entries
        ≡ (if same_mac mac m then Some answer else lookup (same_mac m) answers.old.entries)) }
    ensures err { OnErr result ((m : Mac) → lookup (same_mac m) answers.new.entries ≡ lookup (same_mac m) answers.old.entries) }
{
    answers.insert(mac, answer)?;
    Ok(())
}
