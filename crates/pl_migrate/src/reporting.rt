//! What a fabric manager that begins anew is told of addresses.
ghost use Rattle.std.specs.Prelude.{◌≡◌, ◌<◌, ◌++◌, length, OnOk};
ghost use Rattle.pl_node.specs.SwitchViews.{SwitchView};
ghost use Rattle.pl_switch_rule.specs.Reporting.{addresses_reported, each_grant, each_told};
ghost use Rattle.pl_migrate.specs.AddressTables.{address_in, address_table_in, granted_in};
ghost use Rattle.pl_migrate.specs.Reports.{port_reported, reported, reported_if, words_if};

use crate::AddressTable;
use pl_node::{Act, AddressUse, Grant, Memory, Outbox, ToManager};
use pl_pmac::Pmac;
use pl_steps::{TellsAtPort, tell_at_each_port};

/// Of which addresses a report tells in turn.
#[derive(Clone, Copy, Debug)]
pub(crate) enum Reported {
    InUse,
    Trapped,
    Resting,
}

impl AddressTable {
    /// The fabric manager is told of each address that is in use, then of each for which a trap stands, then
    /// of each that rests, by rising port and vmid. The switch has k ports.
    pub fn report(&self, k: u8, out: &mut Outbox) -> Result<(), Memory>
        requires { k ≡ length self.now.grants }
        ensures { OnOk result ((v : SwitchView) → v.k ≡ k → out.new ≡ out.old ++ each_told (addresses_reported (address_table_in self.now v))) }
    {
        self.report_each(Reported::InUse, k, out)?;
        self.report_each(Reported::Trapped, k, out)?;
        self.report_each(Reported::Resting, k, out)?;
        Ok(())
    }

    // Of each address that is used so.
    fn report_each(&self, which: Reported, k: u8, out: &mut Outbox) -> Result<(), Memory>
        requires { k ≡ length self.now.grants }
        ensures { OnOk result ((v : SwitchView) → v.k ≡ k → out.new ≡ out.old ++ each_told (each_grant (reported which) (address_table_in self.now v))) }
    {
        tell_at_each_port(&PortReports { table: self, which }, k, out)
    }

    // Of those of a port, by rising vmid.
    fn report_port(&self, which: Reported, port: u8, out: &mut Outbox) -> Result<(), Memory>
        requires { port < length self.now.grants }
        ensures { OnOk result (out.new ≡ out.old ++ each_told (port_reported which self.now port)) }
    {
        for n in 0..self.given(port) {
            self.report_address(which, port, n as u16 + 1, out)?;
        }
        Ok(())
    }

    fn report_address(
        &self,
        which: Reported,
        port: u8,
        vmid: u16,
        out: &mut Outbox,
    ) -> Result<(), Memory>
        ensures { OnOk result (out.new ≡ out.old ++ each_told (reported_if which (address_in self.now port vmid) (granted_in self.now (address_in self.now port vmid)))) }
    {
        let pmac = self.address(port, vmid);
        match self.granted(pmac) {
            Some(grant) => tell_if(word_of(which, pmac, grant), out),
            None => Ok(()),
        }
    }
}

// What is told of the addresses of a port.
#[derive(Drop)]
struct PortReports<'a> {
    table: &'a AddressTable,
    which: Reported,
}

impl TellsAtPort for PortReports<'_> {
    ghost use Rattle.std.specs.Prelude.{length};
    ghost use Rattle.pl_switch_rule.specs.Reporting.{each_told};
    ghost use Rattle.pl_migrate.specs.Reports.{port_reported};

    ghost ports = { λ reports. length reports.table.now.grants };

    ghost told = { λ reports port. each_told (port_reported reports.which reports.table.now port) };

    fn tell(&self, port: u8, out: &mut Outbox) -> Result<(), Memory> {
        self.table.report_port(self.which, port, out)
    }
}

// The word that tells of an address that is used so; none of any other.
fn word_of(which: Reported, pmac: Pmac, grant: Grant) -> Option<ToManager>
    ensures { words_if result ≡ reported which pmac grant }
{
    match (which, grant.held) {
        (Reported::InUse, AddressUse::InUse(_)) => Some(ToManager::Learned {
            pmac,
            amac: grant.amac,
            ip: grant.ip,
        }),
        (Reported::Trapped, AddressUse::Trapped(trap, _)) => Some(ToManager::Trapped {
            old: pmac,
            new: trap.new,
            number: trap.number,
        }),
        (Reported::Resting, AddressUse::Resting(number)) => {
            Some(ToManager::Aged { pmac, number })
        }
        _ => None,
    }
}

fn tell_if(word: Option<ToManager>, out: &mut Outbox) -> Result<(), Memory>
    ensures { OnOk result (out.new ≡ out.old ++ each_told (words_if word)) }
{
    match word {
        Some(word) => out.push(Act::Tell(word)),
        None => Ok(()),
    }
}
