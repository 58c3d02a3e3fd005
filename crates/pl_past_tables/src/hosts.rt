ghost use Rattle.std.specs.Prelude.{◌≡◌, ◌+◌, ◌<◌, ◌&&◌, ◌∷◌, [], List, ℕ, IfOk, OnOk, Some, length, option_map, if◌then◌else◌, nat_lt, not, true, false};
ghost use Rattle.std.specs.Map.{lookup};
ghost use Rattle.pl_wiring.specs.Labels.{edge_count};
ghost use Rattle.pl_wiring.specs.Peers.{peer_of};
ghost use Rattle.pl_journal.specs.declared.entry.Entry.{Entry};
ghost use Rattle.pl_journal.specs.declared.entry.Entry.TheVariants.{Moved};
ghost use Rattle.pl_journal.specs.Places.{edge_port_of, first_edge_port, has_stood, is_at, is_free, is_host_port};
ghost use Rattle.pl_journal.specs.Lossy.{RunTo};
ghost use Rattle.pl_past.specs.Moves.{moved_at};
ghost use Rattle.pl_past_tables.specs.declared.keys.Point.{Point};
ghost use Rattle.pl_past_tables.specs.Keys.{edge_port_at, same_point};
ghost use Rattle.pl_past_tables.specs.Hosts.{KeepsHosts, is_left_free_by, taken_in};

use crate::keys::{Point, Stay};
use crate::last::Last;
use pl_journal::Memory;
use pl_wiring::{HostNo, Peer, Wiring};
use std::alloc::Global;

/// Where a host moved to, and by which entry.
#[derive(Clone, Copy, Debug)]
pub(crate) struct Move {
    pub(crate) point: Point,
    pub(crate) at: u64,
}

/// Where hosts stand and have stood.
#[derive(Debug, Drop)]
pub struct Hosts {
    pub(crate) moves: Last<HostNo, Move>,
    pub(crate) stood: Last<Stay, bool>,
    pub(crate) taken: Last<Point, bool>,
}

impl Hosts {
    /// Each host stands where the wiring has it.
    pub fn first(alloc: Global, wiring: &Wiring) -> Result<Hosts, Memory>
        ensures { IfOk result (KeepsHosts wiring.now []) }
    {
        Ok(Hosts {
            moves: Last::new(alloc),
            stood: Last::new(alloc),
            taken: first_taken(alloc, wiring)?,
        })
    }

    /// Where a host stands.
    pub fn point_of(&self, wiring: &Wiring, host: HostNo) -> Option<Point>
        ensures { (past : List Entry) → KeepsHosts wiring.now past self.now →
            option_map edge_port_at result ≡ edge_port_of wiring.now past host.0 }
    {
        match self.moves.get(host) {
            Some(moved) => Some(moved.point),
            None => first_point(wiring, host),
        }
    }

    /// The number of the entry by which a host moved last, 0 where it never moved.
    pub fn moved_at(&self, wiring: &Wiring, host: HostNo) -> u64
        ensures { (past : List Entry) → KeepsHosts wiring.now past self.now → result ≡ moved_at past host.0 }
    {
        match self.moves.get(host) {
            Some(moved) => moved.at,
            None => 0,
        }
    }

    /// Whether a host stands or has stood at a port.
    pub fn has_stood(&self, wiring: &Wiring, host: HostNo, point: Point) -> bool
        ensures { (past : List Entry) → KeepsHosts wiring.now past self.now →
            result ≡ has_stood wiring.now past host.0 (edge_port_at point) }
    {
        let came = self.stood.get(Stay { host, point }).is_some();
        let first = is_at(first_point(wiring, host), point);
        first || came
    }

    /// Whether a port is one for hosts, at which none stands.
    pub fn is_free(&self, wiring: &Wiring, point: Point) -> bool
        ensures { (past : List Entry) → KeepsHosts wiring.now past self.now →
            result ≡ is_free wiring.now past (edge_port_at point) }
    {
        is_for_hosts(wiring, point) && !is_taken(&self.taken, point)
    }

    /// A host moves to a free port by entry `n`.
    pub fn go(&mut self, wiring: &Wiring, host: HostNo, point: Point, n: u64) -> Result<(), Memory>
        ensures { OnOk result ((past : List Entry) → RunTo wiring.now past → KeepsHosts wiring.now past self.old →
            host.0 < length wiring.now.hosts → is_free wiring.now past (edge_port_at point) ≡ true → n ≡ length past + 1 →
            KeepsHosts wiring.now (Moved host point.edge point.port ∷ past) self.new) }
    {
        let _k = wiring.k();
        let from = self.point_of(wiring, host);
        leave(&mut self.taken, from)?;
        self.taken.put(point, true)?;
        self.moves.put(host, Move { point, at: n })?;
        self.stood.put(Stay { host, point }, true)?;
        Ok(())
    }
}

// The ports where the wiring has hosts.
fn first_taken(alloc: Global, wiring: &Wiring) -> Result<Last<Point, bool>, Memory>
    ensures { IfOk result (λ taken. (k : Point) →
        taken_in taken.said.entries k ≡ not (is_left_free_by (first_edge_port wiring.now) (edge_port_at k) (length wiring.now.hosts))) }
{
    let mut taken = Last::new(alloc);
    for i in 0..wiring.host_count() {
        let host = wiring.host(HostNo(i));
        let point = Point {
            edge: host.edge,
            port: host.port,
        };
        taken.put(point, true)?;
    }
    Ok(taken)
}

// Where the wiring has a host.
fn first_point(wiring: &Wiring, host: HostNo) -> Option<Point>
    ensures { option_map edge_port_at result ≡ first_edge_port wiring.now host.0 }
{
    if host.0 >= wiring.host_count() {
        return None;
    }
    let host = wiring.host(host);
    Some(Point {
        edge: host.edge,
        port: host.port,
    })
}

pub fn is_at(there: Option<Point>, point: Point) -> bool
    ensures { result ≡ is_at (option_map edge_port_at there) (edge_port_at point) }
{
    match there {
        None => false,
        Some(there) => there.edge.0 == point.edge.0 && there.port == point.port,
    }
}

fn is_taken(taken: &Last<Point, bool>, point: Point) -> bool
    ensures { result ≡ taken_in taken.now.said.entries point }
{
    taken.get(point).unwrap_or(false)
}

// A host leaves a port.
fn leave(taken: &mut Last<Point, bool>, from: Option<Point>) -> Result<(), Memory>
    ensures { OnOk result ((k : Point) → taken_in taken.new.said.entries k
        ≡ (if is_at (option_map edge_port_at from) (edge_port_at k) then false else taken_in taken.old.said.entries k)) }
{
    if let Some(from) = from {
        taken.put(from, false)?;
    }
    Ok(())
}

fn is_for_hosts(wiring: &Wiring, point: Point) -> bool
    ensures { result ≡ (nat_lt point.edge.0 (edge_count wiring.now.k) && nat_lt point.port wiring.now.k
        && is_host_port (peer_of wiring.now point.edge.0 point.port)) }
{
    let k = wiring.k();
    if point.edge.0 >= u32::from(k) * u32::from(k / 2) || point.port >= k {
        return false;
    }
    matches!(wiring.peer(point.edge, point.port), Peer::HostPort)
}
