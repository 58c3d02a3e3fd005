ghost use Rattle.std.specs.Prelude.{◌≡◌, ◌<◌, ◌≤◌, ◌*◌, [], All, length, map, replicate, slice_get, None, Some, IfOk};
ghost use Rattle.pl_wiring.specs.Labels.{switch_count};
ghost use Rattle.pl_node.specs.HostViews.{boot_host};
ghost use Rattle.pl_node.specs.ManagerViews.{booted_manager};
ghost use Rattle.pl_node.specs.SwitchFacts.{switch_at_boot};
ghost use Rattle.pl_world.specs.Booting.{CanBegin, all_live, booted, first_attachment, me_of};
ghost use Rattle.pl_world.specs.Ready.{CanStep};
ghost use Rattle.pl_world.specs.Pending.{first_switches};

use crate::world::World;
use pl_arp::Me;
use pl_frame::Memory;
use pl_lists::Items;
use pl_node::{HostLogic, HostTable, ManagerLogic, SwitchLogic};
use pl_queue_array::{CountedQueues, Queues};
use pl_wiring::{Host, LinkStates, SwitchNo, Wiring};
use pl_world::{Item, Limits};
use pl_world_parts::{
    Attachments, Switches, WaitingToManager, WaitingToSwitch, WiringIndex, WorldJournal,
};
use std::alloc::Global;

impl<S: SwitchLogic, M: ManagerLogic, H: HostLogic> World<S, M, H> {
    /// A world at its beginning: all links are live, each host stands where the wiring has it, nothing
    /// waits, and the journal is empty.
    pub fn boot(alloc: Global, wiring: Wiring, limits: Limits) -> Result<World<S, M, H>, Memory>
        requires { limits.steps ≤ 4000000000 }
        ensures booted { IfOk result (λ w. w ≡ booted wiring limits) }
        ensures orderly { IfOk result (λ w. CanStep w) }
    {
        see_addresses(&wiring);
        let standing = Standing::first(alloc, &wiring)?;
        let devices = Devices::boot(alloc, &wiring)?;
        let queues = EmptyQueues::new(alloc, &wiring)?;
        let wiring_index = WiringIndex::of_wiring(alloc, wiring)?;
        Ok(World {
            alloc,
            wiring_index,
            links: standing.links,
            attachments: standing.attachments,
            heard: standing.heard,
            switches: devices.switches,
            manager: devices.manager,
            hosts: devices.hosts,
            from_hosts: queues.from_hosts,
            to_manager: queues.to_manager,
            from_manager: queues.from_manager,
            world_journal: WorldJournal::new(alloc),
            begun: 0,
            steps: 0,
            limits,
        })
    }
}

// The links, where hosts stand, and how long ago each was heard.
#[derive(Drop)]
struct Standing {
    links: LinkStates,
    attachments: Attachments,
    heard: Vec<Option<u32>>,
}

impl Standing {
    fn first(alloc: Global, wiring: &Wiring) -> Result<Standing, Memory>
        ensures links { IfOk result (λ all. all.links ≡ all_live wiring.now) }
        ensures attachments { IfOk result (λ all. all.attachments ≡ map first_attachment wiring.now.hosts) }
        ensures heard { IfOk result (λ all. all.heard.items ≡ replicate (length wiring.now.hosts) None) }
    {
        let links = live_links(alloc, wiring)?;
        let attachments = Attachments::first(alloc, wiring.hosts())?;
        let heard = silent_hosts(alloc, wiring)?;
        Ok(Standing {
            links,
            attachments,
            heard,
        })
    }
}

// The switches, the manager and the hosts.
#[derive(Drop)]
struct Devices<S: SwitchLogic, M: ManagerLogic, H: HostLogic> {
    switches: Switches<S>,
    manager: M,
    hosts: Vec<H>,
}

impl<S: SwitchLogic, M: ManagerLogic, H: HostLogic> Devices<S, M, H> {
    fn boot(alloc: Global, wiring: &Wiring) -> Result<Devices<S, M, H>, Memory>
        ensures switches { IfOk result (λ all. all.switches ≡ first_switches wiring.now) }
        ensures manager { IfOk result (λ all. M.view all.manager ≡ booted_manager wiring.now.k) }
        ensures hosts { IfOk result (λ all. map H.view all.hosts.items ≡ map (λ host. boot_host (me_of host) (map me_of wiring.now.hosts)) wiring.now.hosts) }
    {
        let switches = boot_with_queues(alloc, wiring)?;
        let manager = boot_manager(alloc, wiring)?;
        let hosts = boot_with_table(alloc, wiring)?;
        Ok(Devices {
            switches,
            manager,
            hosts,
        })
    }
}

// The queues of hosts, to the manager and from it.
#[derive(Drop)]
struct EmptyQueues {
    from_hosts: Queues<Item>,
    to_manager: CountedQueues<WaitingToManager>,
    from_manager: CountedQueues<WaitingToSwitch>,
}

impl EmptyQueues {
    fn new(alloc: Global, wiring: &Wiring) -> Result<EmptyQueues, Memory>
        ensures from_hosts { IfOk result (λ all. all.from_hosts ≡ replicate (length wiring.now.hosts) []) }
        ensures to_manager { IfOk result (λ all. all.to_manager ≡ replicate (switch_count wiring.now.k) []) }
        ensures from_manager { IfOk result (λ all. all.from_manager ≡ replicate (switch_count wiring.now.k) []) }
    {
        let from_hosts = Queues::new(alloc, wiring.host_count() as usize)?;
        let to_manager = CountedQueues::new(alloc, wiring.switch_count() as usize)?;
        let from_manager = CountedQueues::new(alloc, wiring.switch_count() as usize)?;
        Ok(EmptyQueues {
            from_hosts,
            to_manager,
            from_manager,
        })
    }
}

// A wiring has all that a world begins with. This is known of its hosts' addresses once each was seen.
fn see_addresses(wiring: &Wiring)
    ensures { CanBegin wiring.now }
{
    let _k = wiring.k();
    see_each(wiring.hosts());
}

fn see_each(hosts: &[Host])
    ensures { All (λ host. length host.mac.0 ≡ 6) hosts.now }
{
    for host in hosts {
        see(host);
    }
}

fn see(host: &Host)
    ensures { length host.now.mac.0 ≡ 6 }
{
    see_bytes(host.mac.0);
}

fn see_bytes(bytes: [u8; 6])
    ensures { length bytes ≡ 6 }
{}

// The ports of all switches.
fn port_count(wiring: &Wiring) -> usize
    ensures { result ≡ switch_count wiring.now.k * wiring.now.k }
{
    let k = wiring.k();
    wiring.switch_count() as usize * k as usize
}

fn live_links(alloc: Global, wiring: &Wiring) -> Result<LinkStates, Memory>
    ensures { IfOk result (λ links. links ≡ all_live wiring.now) }
{
    let links = LinkStates::new(alloc, wiring)?;
    let _k = wiring.k();
    Ok(links)
}

// No host is heard at first.
fn silent_hosts(alloc: Global, wiring: &Wiring) -> Result<Vec<Option<u32>>, Memory>
    ensures { IfOk result (λ heard. heard.items ≡ replicate (length wiring.now.hosts) None) }
{
    let mut heard = Vec::new(alloc);
    for _ in 0..wiring.host_count() {
        heard.push(None)?;
    }
    Ok(heard)
}

fn me_of(host: &Host) -> Me
    ensures { result ≡ me_of host.now }
{
    Me {
        mac: host.mac,
        ip: host.ip,
    }
}

fn host_table(alloc: Global, hosts: &[Host]) -> Result<HostTable, Memory>
    ensures { IfOk result (λ table. table ≡ map me_of hosts.now) }
{
    let mut table = Items::new(alloc);
    for host in hosts {
        table.push(me_of(host))?;
    }
    Ok(table)
}

// The hosts, each of which knows the table of all.
fn boot_with_table<H: HostLogic>(alloc: Global, wiring: &Wiring) -> Result<Vec<H>, Memory>
    ensures { IfOk result (λ devices. map H.view devices.items ≡ map (λ host. boot_host (me_of host) (map me_of wiring.now.hosts)) wiring.now.hosts) }
{
    let table = host_table(alloc, wiring.hosts())?;
    boot_hosts(alloc, wiring.hosts(), &table)
}

fn boot_hosts<H: HostLogic>(
    alloc: Global,
    hosts: &[Host],
    table: &HostTable,
) -> Result<Vec<H>, Memory>
    ensures { IfOk result (λ devices. map H.view devices.items ≡ map (λ host. boot_host (me_of host) table.now) hosts.now) }
{
    let mut devices = Vec::new(alloc);
    for host in hosts {
        devices.push(H::boot(alloc, me_of(host), table)?)?;
    }
    Ok(devices)
}

fn boot_with_queues<S: SwitchLogic>(alloc: Global, wiring: &Wiring) -> Result<Switches<S>, Memory>
    ensures { IfOk result (λ all. all ≡ first_switches wiring.now) }
{
    let k = wiring.k();
    let devices = boot_switches(alloc, wiring)?;
    let out = CountedQueues::new(alloc, port_count(wiring))?;
    Switches::new(alloc, k, devices, out)
}

/// The switches of a wiring, as they begin.
pub fn boot_switches<S: SwitchLogic>(alloc: Global, wiring: &Wiring) -> Result<Vec<S>, Memory>
    ensures { IfOk result (λ devices. map S.view devices.items ≡ map (λ id. switch_at_boot id wiring.now.k) wiring.now.ids) }
{
    let mut devices = Vec::new(alloc);
    for n in 0..wiring.switch_count() {
        devices.push(boot_switch(alloc, wiring, SwitchNo(n))?)?;
    }
    Ok(devices)
}

fn boot_switch<S: SwitchLogic>(alloc: Global, wiring: &Wiring, s: SwitchNo) -> Result<S, Memory>
    requires { s.0 < switch_count wiring.now.k }
    ensures { IfOk result (λ device. slice_get (map (λ id. switch_at_boot id wiring.now.k) wiring.now.ids) s.0 ≡ Some (S.view device)) }
{
    let k = wiring.k();
    let id = wiring.id(s);
    S::boot(alloc, id, k)
}

/// The manager, as it begins.
pub fn boot_manager<M: ManagerLogic>(alloc: Global, wiring: &Wiring) -> Result<M, Memory>
    ensures { IfOk result (λ device. M.view device ≡ booted_manager wiring.now.k) }
{
    let k = wiring.k();
    M::boot(alloc, k)
}
