ghost use Rattle.std.specs.Prelude.{◌≡◌, ◌↔◌, ◌<◌, ◌==◌, ◌&&◌, ◌||◌, ◌∷◌, [], List, ℕ, IsTrue, OnOk, is_some, option_map};
ghost use Rattle.std.specs.Map.{lookup};
ghost use Rattle.pl_wiring.specs.Plan.{Plan};
ghost use Rattle.pl_journal.specs.declared.entry.Entry.{Entry};
ghost use Rattle.pl_journal.specs.declared.entry.Entry.TheVariants.{Granted, Registered};
ghost use Rattle.pl_journal.specs.Places.{edge_port, granted_at, holder, is_of_edge, highest, is_spent, number};
ghost use Rattle.pl_journal.specs.Flights.{address_at};
ghost use Rattle.pl_journal.specs.Lossy.{IsNewer, RunTo};
ghost use Rattle.pl_past_tables.specs.declared.keys.Point.{Point};
ghost use Rattle.pl_past_tables.specs.Keys.{edge_port_at, same_point};
ghost use Rattle.pl_past.specs.Moves.{is_none_or, is_none_or_alike};
ghost use Rattle.pl_past_tables.specs.Addresses.{KeepsAddresses, last_grant};

use crate::keys::{PodPosition, Point, Stay, number_of};
use crate::last::Last;
use pl_journal::Memory;
use pl_pmac::Pmac;
use pl_wiring::{HostNo, SwitchNo};
use std::alloc::Global;

/// To whom an address was granted, and where.
#[derive(Clone, Copy, Debug)]
pub struct Grant {
    pub host: HostNo,
    pub point: Point,
}

/// What was said of addresses. An address is named by its number of 48 bits.
#[derive(Debug, Drop)]
pub struct Addresses {
    pub(crate) grants: Last<u64, Grant>,
    pub(crate) numbers: Last<u64, Option<u64>>,
    pub(crate) highest: u64,
    pub(crate) stays: Last<Stay, Pmac>,
    pub(crate) spent: Last<Point, bool>,
    pub(crate) edges: Last<PodPosition, SwitchNo>,
    pub(crate) by_edge: Last<SwitchNo, Pmac>,
}

impl Addresses {
    pub fn new(alloc: Global) -> Addresses
        ensures { KeepsAddresses [] result }
    {
        Addresses {
            grants: Last::new(alloc),
            numbers: Last::new(alloc),
            highest: 0,
            stays: Last::new(alloc),
            spent: Last::new(alloc),
            edges: Last::new(alloc),
            by_edge: Last::new(alloc),
        }
    }

    // The last grant of an address.
    fn grant_of(&self, address: u64) -> Option<Grant>
        ensures { (past : List Entry) → KeepsAddresses past self.now → result ≡ last_grant past address }
    {
        self.grants.get(address)
    }

    /// The host that an address was granted to last.
    pub fn holder(&self, address: u64) -> Option<HostNo>
        ensures { (past : List Entry) → KeepsAddresses past self.now → option_map (λ h. h.0) result ≡ holder past address }
    {
        match self.grant_of(address) {
            None => None,
            Some(grant) => Some(grant.host),
        }
    }

    /// The port where an address was granted last.
    pub fn point_of(&self, address: u64) -> Option<Point>
        ensures { (past : List Entry) → KeepsAddresses past self.now → option_map edge_port_at result ≡ edge_port past address }
    {
        match self.grant_of(address) {
            None => None,
            Some(grant) => Some(grant.point),
        }
    }

    /// The number that an address was registered with last since it was granted last.
    pub fn number(&self, address: u64) -> Option<u64>
        ensures { (past : List Entry) → KeepsAddresses past self.now → result ≡ number past address }
    {
        self.numbers.get(address).unwrap_or(None)
    }

    /// The largest number that was given.
    pub fn highest(&self) -> u64
        ensures { (past : List Entry) → KeepsAddresses past self.now → result ≡ highest past }
    {
        self.highest
    }

    /// The address that a host was granted last at a port.
    pub fn granted_at(&self, host: HostNo, point: Point) -> Option<Pmac>
        ensures { (past : List Entry) → KeepsAddresses past self.now → result ≡ granted_at past host.0 (edge_port_at point) }
    {
        self.stays.get(Stay { host, point })
    }

    /// The address that a host was granted last at a port, where both are known.
    pub fn address_at(&self, host: Option<HostNo>, there: Option<Point>) -> Option<Pmac>
        ensures { (past : List Entry) → KeepsAddresses past self.now →
            result ≡ address_at past (option_map (λ h. h.0) host) (option_map edge_port_at there) }
    {
        match (host, there) {
            (Some(host), Some(point)) => self.granted_at(host, point),
            _ => None,
        }
    }

    /// Whether a port has given the largest vmid.
    pub fn is_spent(&self, point: Point) -> bool
        ensures { (past : List Entry) → KeepsAddresses past self.now → result ≡ is_spent past (edge_port_at point) }
    {
        self.spent.get(point).is_some()
    }

    /// Whether pod and position of an address are those of this edge switch, as far as addresses were granted.
    pub fn is_of_edge(&self, x: Pmac, edge: SwitchNo) -> bool
        ensures { (plan : Plan) (past : List Entry) → RunTo plan past → KeepsAddresses past self.now → result ≡ is_of_edge past x edge.0 }
    {
        let key = PodPosition {
            pod: x.pod,
            position: x.position,
        };
        let of_edge = is_or_none(self.edges.get(key), edge);
        let alike = is_alike_or_none(self.by_edge.get(edge), x);
        of_edge && alike
    }

    /// Whether both addresses are of one host, and the second is registered with a larger number.
    pub fn is_newer(&self, from: u64, to: u64) -> bool
        ensures { (past : List Entry) → KeepsAddresses past self.now →
            (IsTrue result ↔ ((holder past to ≡ holder past from) × IsNewer (number past from) (number past to))) }
    {
        if !same_host(self.holder(to), self.holder(from)) {
            return false;
        }
        is_newer(self.number(from), self.number(to))
    }

    /// An address is granted.
    pub fn grant(&mut self, x: Pmac, grant: Grant) -> Result<(), Memory>
        ensures { OnOk result ((past : List Entry) → KeepsAddresses past self.old →
            KeepsAddresses (Granted x grant.host grant.point.edge grant.point.port ∷ past) self.new) }
    {
        let host = grant.host;
        let point = grant.point;
        let key = PodPosition {
            pod: x.pod,
            position: x.position,
        };
        let address = number_of(x);
        self.grants.put(address, grant)?;
        self.numbers.put(address, None)?;
        self.stays.put(Stay { host, point }, x)?;
        spend(&mut self.spent, x, point)?;
        self.edges.put(key, point.edge)?;
        self.by_edge.put(point.edge, x)?;
        Ok(())
    }

    /// An address is registered with a number above all before.
    pub fn register(&mut self, x: Pmac, n: u64) -> Result<(), Memory>
        ensures { OnOk result ((past : List Entry) → KeepsAddresses past self.old → highest past < n →
            KeepsAddresses (Registered x n ∷ past) self.new) }
    {
        self.numbers.put(number_of(x), Some(n))?;
        self.highest = n;
        Ok(())
    }
}

fn same_host(a: Option<HostNo>, b: Option<HostNo>) -> bool
    ensures { IsTrue result ↔ (option_map (λ h. h.0) a ≡ option_map (λ h. h.0) b) }
{
    match (a, b) {
        (None, None) => true,
        (Some(a), Some(b)) => a.0 == b.0,
        _ => false,
    }
}

fn is_newer(m: Option<u64>, n: Option<u64>) -> bool
    ensures { IsTrue result ↔ IsNewer m n }
{
    match (m, n) {
        (Some(m), Some(n)) => m < n,
        _ => false,
    }
}

fn is_or_none(edge: Option<SwitchNo>, other: SwitchNo) -> bool
    ensures { result ≡ is_none_or (option_map (λ s. s.0) edge) other.0 }
{
    match edge {
        None => true,
        Some(edge) => edge.0 == other.0,
    }
}

fn is_alike_or_none(y: Option<Pmac>, x: Pmac) -> bool
    ensures { result ≡ is_none_or_alike y x }
{
    match y {
        None => true,
        Some(y) => x.pod == y.pod && x.position == y.position,
    }
}

// A port has given this address.
fn spend(spent: &mut Last<Point, bool>, x: Pmac, point: Point) -> Result<(), Memory>
    ensures { OnOk result ((k : Point) → is_some (lookup (same_point k) spent.new.said.entries)
        ≡ (((x.vmid == 65535) && same_point point k) || is_some (lookup (same_point k) spent.old.said.entries))) }
{
    if x.vmid == u16::MAX {
        spent.put(point, true)?;
    }
    Ok(())
}
