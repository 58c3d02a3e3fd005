ghost use Rattle.std.specs.Prelude.{◌≡◌, ◌<◌, ◌++◌, if◌then◌else◌, OnOk};
ghost use Rattle.std.specs.BTreeSet.{insert_key};
ghost use Rattle.std.specs.Ordering.{nat_cmp};
ghost use Rattle.pl_node.specs.PortRecords.{is_usable, ports_where};
ghost use Rattle.pl_node.specs.SwitchViews.{SwitchView};
ghost use Rattle.pl_lists.specs.Ports.{ports_of};
ghost use Rattle.pl_switch_rule.specs.Telling.{changes_told, place_told, pod_wanted};
ghost use Rattle.pl_ports.specs.Changes.{ceases};
ghost use Rattle.pl_ports.specs.PortsViews.{ports_alone, put_ports};
ghost use Rattle.pl_ports.specs.Standings.{IsStandingOf};

use crate::{Ports, Standing};
use pl_layouts::Place;
use pl_lists::PortSet;
use pl_node::{Act, Memory, Outbox, ToManager, is_same_place};
use pl_steps::{TellsAtPort, tell_at_each_port};

impl Ports {
    /// The usable ports.
    pub fn usable_ports(&self) -> PortSet
        ensures { ports_of result ≡ ports_where (ports_alone self.now) (is_usable (ports_alone self.now)) }
    {
        let mut usable = PortSet::empty();
        for port in 0..self.k() {
            insert_if(&mut usable, port, self.is_usable(port));
        }
        usable
    }

    // The ports that cease to be usable at the next tick.
    pub(crate) fn ceasing(&self) -> PortSet
        ensures { ports_of result ≡ ports_where (ports_alone self.now) (ceases (ports_alone self.now)) }
    {
        let mut ceasing = PortSet::empty();
        for port in 0..self.k() {
            insert_if(&mut ceasing, port, self.ceases(port));
        }
        ceasing
    }

    fn ceases(&self, port: u8) -> bool
        requires { port < self.now.k }
        ensures { result ≡ ceases (ports_alone self.now) port }
    {
        let record = self.record(port);
        record.is_usable(self.id()) && !record.aged().is_usable(self.id())
    }

    /// What the switch has told of itself where each change was told.
    pub fn standing(&self) -> Standing
        ensures { (v : SwitchView) → IsStandingOf result (put_ports self.now v) }
    {
        Standing {
            place: self.place(),
            usable: self.usable_ports(),
        }
    }

    /// The fabric manager is told what has changed: the place, then the links by rising port, then the
    /// wish for the number of a pod.
    pub fn tell_changes(&self, before: &Standing, out: &mut Outbox) -> Result<(), Memory>
        ensures { OnOk result ((old v : SwitchView) → old.k ≡ self.now.k → IsStandingOf before.now old → out.new ≡ out.old ++ changes_told old (put_ports self.now v)) }
    {
        let links = Links {
            usable: before.usable,
            ports: self,
        };
        tell_place(before.place, self.place(), out)?;
        tell_at_each_port(&links, self.k(), out)?;
        want_pod(before.place, self.place(), out)?;
        Ok(())
    }
}

fn insert_if(set: &mut PortSet, port: u8, is_in: bool)
    requires { port < 32 }
    ensures { ports_of set.new ≡ (if is_in then insert_key nat_cmp (ports_of set.old) port else ports_of set.old) }
{
    if is_in {
        set.insert(port);
    }
}

// The links of a switch, of which these were usable when they were told last.
#[derive(Drop)]
struct Links<'a> {
    usable: PortSet,
    ports: &'a Ports,
}

impl TellsAtPort for Links<'_> {
    ghost use Rattle.pl_ports.specs.PortsViews.{ports_alone};
    ghost use Rattle.pl_ports.specs.Standings.{link_told_since};

    ghost ports = { λ links. links.ports.now.k };

    ghost told = { λ links. link_told_since links.usable (ports_alone links.ports.now) };

    fn tell(&self, port: u8, out: &mut Outbox) -> Result<(), Memory> {
        let usable = self.ports.is_usable(port);
        if self.usable.contains(port) == usable {
            return Ok(());
        }
        match self.ports.record(port).heard {
            Some(neighbour) => out.push(Act::Tell(ToManager::Link {
                neighbour: neighbour.id,
                usable,
            })),
            None => Ok(()),
        }
    }
}

fn tell_place(old: Place, new: Place, out: &mut Outbox) -> Result<(), Memory>
    ensures { OnOk result (out.new ≡ out.old ++ place_told old new) }
{
    if is_same_place(old, new) {
        return Ok(());
    }
    out.push(Act::Tell(ToManager::Place(new)))
}

fn want_pod(old: Place, new: Place, out: &mut Outbox) -> Result<(), Memory>
    ensures { OnOk result (out.new ≡ out.old ++ pod_wanted old new) }
{
    if new.level == Some(0) && new.position == Some(0) && old.position != Some(0) {
        return out.push(Act::Tell(ToManager::PodWanted));
    }
    Ok(())
}
