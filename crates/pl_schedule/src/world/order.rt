ghost use Rattle.std.specs.Prelude.{◌≡◌, ◌+◌, ◌*◌, ◌<◌, ◌≤◌, ◌^◌, length, slice_get, IfSome, None, Some};
ghost use Rattle.std.specs.Option.{option_map};
ghost use Rattle.pl_queues.specs.Queues.{filled_indices};
ghost use Rattle.pl_wiring.specs.Plan.{IsPlan};
ghost use Rattle.pl_world.specs.Flying.{IsFormed};
ghost use Rattle.pl_world.specs.QueueOrder.{filled_queues, first_from_manager, first_out, first_to_manager, host_queue, next_in, next_queue, order_queue, port_queue, queue_at, queue_count, queue_order, report_queue};
ghost use Rattle.pl_world.specs.Refusals.{has_queue, is_filled, refusal_of_queue};

use crate::world::World;
use pl_node::{HostLogic, ManagerLogic, SwitchLogic};
use pl_queue_array::Queues;
use pl_wiring::{HostNo, SwitchNo, Wiring};
use pl_world::QueueName;

impl<S: SwitchLogic, M: ManagerLogic, H: HostLogic> World<S, M, H> {
    /// How many queues the wiring has.
    pub fn queue_count(&self) -> usize
        ensures count { result ≡ queue_count self.now.plan }
        ensures order { result ≡ length (queue_order self.now.plan) }
    {
        Borders::of(self.wiring_index.wiring()).end
    }

    /// A queue by its number in queue order: the hosts' queues in the order of the wiring, the queues out
    /// of ports by switch and port, the queues to the manager, and the queues from it.
    pub fn queue_at(&self, n: usize) -> QueueName
        requires { n < queue_count self.now.plan }
        ensures name { result ≡ queue_at self.now.plan n }
        ensures order { slice_get (queue_order self.now.plan) n ≡ Some result }
    {
        name_at(self.wiring_index.wiring(), n)
    }

    /// The number of the first queue with items, of those from number `from` on; none where there is none.
    pub fn next_queue(&self, from: usize) -> Option<usize>
        ensures next { result ≡ next_queue self.now from }
        ensures there { IfSome result (λ n. (from ≤ n) × (n < queue_count self.now.plan)
            × (refusal_of_queue (has_queue self.now.plan (queue_at self.now.plan n)) (is_filled self.now (queue_at self.now.plan n)) ≡ None)) }
    {
        if let Some(n) = self.next_from_host(from) {
            return Some(n);
        }
        if let Some(n) = self.next_out(from) {
            return Some(n);
        }
        if let Some(n) = self.next_to_manager(from) {
            return Some(n);
        }
        self.next_from_manager(from)
    }

    /// How many queues have items, in constant time.
    pub fn filled_count(&self) -> usize
        ensures count { result ≡ length (filled_queues self.now) }
        ensures few { result < 2 ^ 40 }
    {
        let hosts = self.from_hosts.filled_count();
        let ports = self.switches.out().filled_count();
        let reports = self.to_manager.queues().filled_count();
        let orders = self.from_manager.queues().filled_count();
        hosts + ports + reports + orders
    }

    /// Number i of the queues with items, in queue order; none past the last.
    pub fn filled_queue(&self, i: usize) -> Option<QueueName>
        ensures { result ≡ slice_get (filled_queues self.now) i }
    {
        let hosts = self.from_hosts.filled_count();
        if i < hosts {
            return self.filled_from_host(i);
        }
        let behind_hosts = i - hosts;
        let ports = self.switches.out().filled_count();
        if behind_hosts < ports {
            return self.filled_out(behind_hosts);
        }
        let behind_ports = behind_hosts - ports;
        let reports = self.to_manager.queues().filled_count();
        if behind_ports < reports {
            return self.filled_to_manager(behind_ports);
        }
        self.filled_from_manager(behind_ports - reports)
    }

    // Number i of the hosts' queues with items, of those out of ports, to the manager, and from it.
    fn filled_from_host(&self, i: usize) -> Option<QueueName>
        ensures name { result ≡ option_map host_queue (slice_get (filled_indices self.now.from_hosts) i) }
        ensures formed { IsFormed self.now }
    {
        let h = self.from_hosts.filled_index(i)?;
        Some(QueueName::FromHost(HostNo(h as u32)))
    }

    fn filled_out(&self, i: usize) -> Option<QueueName>
        ensures { result ≡ option_map (port_queue self.now.plan.k) (slice_get (filled_indices self.now.out) i) }
    {
        let at = self.switches.out().filled_index(i)?;
        Some(port_queue(self.wiring_index.wiring().k(), at))
    }

    fn filled_to_manager(&self, i: usize) -> Option<QueueName>
        ensures { result ≡ option_map report_queue (slice_get (filled_indices self.now.to_manager) i) }
    {
        let s = self.to_manager.queues().filled_index(i)?;
        Some(QueueName::ToManager(SwitchNo(s as u32)))
    }

    fn filled_from_manager(&self, i: usize) -> Option<QueueName>
        ensures { result ≡ option_map order_queue (slice_get (filled_indices self.now.from_manager) i) }
    {
        let s = self.from_manager.queues().filled_index(i)?;
        Some(QueueName::FromManager(SwitchNo(s as u32)))
    }

    // The next one of the hosts' queues, of those out of ports, to the manager, and from it.
    fn next_from_host(&self, from: usize) -> Option<usize>
        ensures next { result ≡ next_in 0 self.now.from_hosts from }
        ensures formed { IsFormed self.now }
    {
        next_in(&self.from_hosts, 0, from)
    }

    fn next_out(&self, from: usize) -> Option<usize>
        ensures { result ≡ next_in (first_out self.now.plan) self.now.out from }
    {
        let borders = Borders::of(self.wiring_index.wiring());
        next_in(self.switches.out(), borders.out, from)
    }

    fn next_to_manager(&self, from: usize) -> Option<usize>
        ensures { result ≡ next_in (first_to_manager self.now.plan) self.now.to_manager from }
    {
        let borders = Borders::of(self.wiring_index.wiring());
        next_in(self.to_manager.queues(), borders.to_manager, from)
    }

    fn next_from_manager(&self, from: usize) -> Option<usize>
        ensures { result ≡ next_in (first_from_manager self.now.plan) self.now.from_manager from }
    {
        let borders = Borders::of(self.wiring_index.wiring());
        next_in(self.from_manager.queues(), borders.from_manager, from)
    }
}

// The numbers of the first queue out of a port, of the first to the manager and of the first from it, and
// how many queues there are.
#[derive(Drop)]
struct Borders {
    out: usize,
    to_manager: usize,
    from_manager: usize,
    end: usize,
}

impl Borders {
    fn of(wiring: &Wiring) -> Borders
        ensures out { result.out ≡ first_out wiring.now }
        ensures to_manager { result.to_manager ≡ first_to_manager wiring.now }
        ensures from_manager { result.from_manager ≡ first_from_manager wiring.now }
        ensures end { result.end ≡ queue_count wiring.now }
    {
        let switches = wiring.switch_count() as usize;
        let out = wiring.host_count() as usize;
        let to_manager = out + switches * wiring.k() as usize;
        let from_manager = to_manager + switches;
        Borders {
            out,
            to_manager,
            from_manager,
            end: from_manager + switches,
        }
    }
}

fn name_at(wiring: &Wiring, n: usize) -> QueueName
    requires { n < queue_count wiring.now }
    ensures name { result ≡ queue_at wiring.now n }
    ensures plan { IsPlan wiring.now }
{
    let borders = Borders::of(wiring);
    let k = wiring.k();
    if n < borders.out {
        QueueName::FromHost(HostNo(n as u32))
    } else if n < borders.to_manager {
        port_queue(k, n - borders.out)
    } else if n < borders.from_manager {
        QueueName::ToManager(SwitchNo((n - borders.to_manager) as u32))
    } else {
        QueueName::FromManager(SwitchNo((n - borders.from_manager) as u32))
    }
}

// The port at an index in the row of all ports.
fn port_queue(k: u8, at: usize) -> QueueName
    requires ports { 0 < k }
    requires index { at < 2 ^ 32 }
    ensures { result ≡ port_queue k at }
{
    let k = k as usize;
    QueueName::Port(SwitchNo((at / k) as u32), (at % k) as u8)
}

// The number of the next queue with items, of a queue array whose first queue has number `first`.
fn next_in<T>(queue_array: &Queues<T>, first: usize, from: usize) -> Option<usize>
    requires { first + length queue_array.now < 2 ^ 64 }
    ensures { result ≡ next_in first queue_array.now from }
{
    let at = queue_array.next_filled(from.saturating_sub(first))?;
    Some(first + at)
}
