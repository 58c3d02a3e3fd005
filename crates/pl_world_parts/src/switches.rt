ghost use Rattle.std.specs.Prelude.{◌≡◌, ◌<◌, ◌≤◌, ◌*◌, ◌∷◌, ◌++◌, ℕ, [], cond, count_by, length, map, option_to_list, replicate, slice_get, slice_index_or, slice_set, sum_by, vec_len, IfOk, IfSome, MatchOption, OnErr, OnOk, Some};
ghost use Rattle.std.specs.List.{AllByRecursion};
ghost use Rattle.std.specs.Option.{option_copied};
ghost use Rattle.pl_wiring.specs.Index.{port_index};
ghost use Rattle.pl_node.specs.Accounting.{CanCome};
ghost use Rattle.pl_node.specs.Gains.{Gains};
ghost use Rattle.pl_node.specs.PortRecords.{ports_of_switch};
ghost use Rattle.pl_node.specs.SwitchViews.{SwitchView};
ghost use Rattle.pl_queues.specs.Counts.{most};
ghost use Rattle.pl_queues.specs.Queues.{items_at, put_at};
ghost use Rattle.pl_world_parts.specs.OneStep.{SwitchSteps, input_from, sizes};
ghost use Rattle.pl_world_parts.specs.QueueIndices.{IsQueueIndex};
ghost use Rattle.pl_world_parts.specs.StaleCounts.{is_stale_under};
ghost use Rattle.pl_world.specs.Pending.{HasQueues, is_stale, stale, stale_at_ports, stale_in};

use crate::incoming::Incoming;
use crate::one_step::hear_at;
use crate::said::{Said, all_said, says_still};
use pl_frame::Memory;
use pl_layouts::Place;
use pl_node::{Outbox, SwitchFacts, SwitchLogic};
use pl_queue_array::{CountedQueues, Iter, Queues, one_if};
use pl_world::Item;
use std::alloc::Global;
use std::marker::Model;

/// The switches, each with as many ports, and the queues out of their ports, switch by switch. A control
/// frame there is stale, unless its switch would send it out of that port now; how many are stale is kept,
/// for each port and in all.
#[derive(Drop)]
pub struct Switches<S: SwitchLogic> {
    k: u8,
    devices: Vec<S>,
    out: CountedQueues<Item>,
    counts: Vec<u64>,
    stale: u64,
}

impl<S: SwitchLogic> Model for Switches<S> {
    ghost use Rattle.std.specs.Prelude.{map};
    ghost use Rattle.pl_world.specs.Pending.{KeepsStale, SwitchesView};
    ghost use Rattle.pl_world_parts.specs.StaleCounts.{KeepsEach};

    ghost Value = { SwitchesView };

    ghost view = { λ all. record { k = all.k; switches = map S.view all.devices.items; out = all.out } };

    ghost invariant = { λ all. KeepsStale (view all) all.stale × KeepsEach (view all) all.counts.items };
}

impl<S: SwitchLogic> Switches<S> {
    /// Switches with empty queues.
    pub fn new(
        alloc: Global,
        k: u8,
        devices: Vec<S>,
        out: CountedQueues<Item>,
    ) -> Result<Switches<S>, Memory>
        requires ports { AllByRecursion (λ v. v.k ≡ k) (map S.view devices.items) }
        requires queues { out ≡ replicate (vec_len devices * k) [] }
        ensures { IfOk result (λ all. all ≡ record { k = k; switches = map S.view devices.items; out = out }) }
    {
        let counts = zeros(alloc, out.queues().len())?;
        Ok(Switches {
            k,
            devices,
            out,
            counts,
            stale: 0,
        })
    }

    pub fn device(&self, s: usize) -> &S
        requires { s < length self.now.switches }
        ensures { slice_get self.now.switches s ≡ Some (S.view result.now) }
    {
        &self.devices[s]
    }

    /// The queues out of all ports, to look at.
    pub fn out(&self) -> &Queues<Item>
        ensures { result.now ≡ self.now.out }
    {
        self.out.queues()
    }

    /// How many items out of ports are stale.
    pub fn stale(&self) -> u64
        ensures stale { result ≡ stale self.now.k self.now.switches self.now.out }
        ensures within { result ≤ most }
        ensures queues { HasQueues self.now }
    {
        let _bound = self.out.counted();
        self.stale
    }

    /// How many items wait in the queue out of a port.
    pub fn queue_len(&self, s: usize, port: u8) -> usize
        requires switch { s < length self.now.switches }
        requires port { (v : SwitchView) → slice_get self.now.switches s ≡ Some v → port < v.k }
        ensures len { result ≡ length (items_at self.now.out (port_index self.now.k s port)) }
        ensures queues { HasQueues self.now }
    {
        let at = self.queue_index(s, port);
        self.out.queues().len_at(at)
    }

    /// The first item of the queue out of a port; none where it is empty.
    pub fn first(&self, s: usize, port: u8) -> Option<&Item>
        requires switch { s < length self.now.switches }
        requires port { (v : SwitchView) → slice_get self.now.switches s ≡ Some v → port < v.k }
        ensures first { option_copied result ≡ slice_get (items_at self.now.out (port_index self.now.k s port)) 0 }
        ensures queues { HasQueues self.now }
    {
        let at = self.queue_index(s, port);
        self.out.queues().first(at)
    }

    /// Puts an item behind the last of the queue out of a port.
    pub fn put(&mut self, s: usize, port: u8, item: Item) -> Result<(), Memory>
        requires switch { s < length self.old.switches }
        requires port { (v : SwitchView) → slice_get self.old.switches s ≡ Some v → port < v.k }
        ensures ok { OnOk result (self.new ≡ record self.old { out = put_at self.old.out (port_index self.old.k s port) item }) }
        ensures err { OnErr result (self.new ≡ self.old) }
        ensures queues { HasQueues self.old }
    {
        let _bound = self.out.counted();
        let at = self.queue_index(s, port);
        let more = one_if(is_stale(&self.devices[s], port, &item));
        self.out.put(at, item)?;
        self.counts[at] += more;
        self.stale += more;
        Ok(())
    }

    /// Takes the first item of the queue out of a port; none where it is empty.
    pub fn take(&mut self, s: usize, port: u8) -> Option<Item>
        requires switch { s < length self.old.switches }
        requires port { (v : SwitchView) → slice_get self.old.switches s ≡ Some v → port < v.k }
        ensures taken { let at = port_index self.old.k s port in
            MatchOption result ((items_at self.old.out at ≡ []) × (self.new ≡ self.old))
            (λ x. (items_at self.old.out at ≡ x ∷ items_at self.new.out at) × (self.new ≡ record self.old { out = slice_set self.old.out at (items_at self.new.out at) })) }
        ensures queues { HasQueues self.old }
    {
        let at = self.queue_index(s, port);
        let taken = self.out.take(at);
        let less = stale_taken(&self.devices[s], port, &taken);
        self.counts[at] -= less;
        self.stale -= less;
        taken
    }

    /// Takes all items of the queue out of a port, the first one first, and puts them behind those that
    /// are there.
    pub fn clear_into(&mut self, s: usize, port: u8, to: &mut Vec<Item>) -> Result<(), Memory>
        requires switch { s < length self.old.switches }
        requires port { (v : SwitchView) → slice_get self.old.switches s ≡ Some v → port < v.k }
        ensures items { OnOk result (to.new.items ≡ to.old.items ++ items_at self.old.out (port_index self.old.k s port)) }
        ensures left { OnOk result (self.new ≡ record self.old { out = slice_set self.old.out (port_index self.old.k s port) [] }) }
        ensures err { OnErr result ((self.new ≡ self.old) × (to.new.items ≡ to.old.items)) }
        ensures queues { HasQueues self.old }
    {
        let at = self.queue_index(s, port);
        self.out.clear_into(at, to)?;
        self.stale -= self.counts[at];
        self.counts[at] = 0;
        Ok(())
    }

    // The index of the queue out of a port, in the row of all queues.
    fn queue_index(&self, s: usize, port: u8) -> usize
        requires switch { s < length self.now.switches }
        requires port { (v : SwitchView) → slice_get self.now.switches s ≡ Some v → port < v.k }
        ensures index { IsQueueIndex self.now s port result }
        ensures queues { HasQueues self.now }
    {
        let _many = self.out.queues().len();
        s * self.k as usize + port as usize
    }

    /// Something comes at one of the switches. The answer is its place before and after.
    pub fn hear(
        &mut self,
        s: usize,
        incoming: Incoming,
        out: &mut Outbox,
    ) -> Result<(Place, Place), Memory>
        requires within { s < length self.old.switches }
        requires coming { (v : SwitchView) → slice_get self.old.switches s ≡ Some v → CanCome v (input_from incoming) }
        ensures step { IfOk result (λ places. Gains out.old out.new
            (SwitchSteps S.rule self.old.switches s (input_from incoming.entry) self.new.switches places.0 places.1)) }
        ensures kept { sizes self.new.switches ≡ sizes self.old.switches }
        ensures queues { self.new.out ≡ self.old.out }
    {
        let waiting = self.out.counted();
        if waiting == 0 {
            return hear_at(&mut self.devices, s, incoming, out);
        }
        let said = all_said(&self.devices[s]);
        let done = hear_at(&mut self.devices, s, incoming, out);
        let (before, after) = count_again(&mut self.counts, &self.devices[s], &self.out, s, &said);
        self.stale = self.stale - before + after;
        done
    }
}

#[tactic(auto, using(crate::proofs::Stale::not_announced_is), unfolding(pl_world::specs::Pending::is_stale))]
fn is_stale<S: SwitchFacts>(device: &S, port: u8, item: &Item) -> bool
    requires { port < (S.view device.now).k }
    ensures { result ≡ is_stale (S.view device.now) port item.now }
{
    match item {
        Item::Control(frame) => !device.announces(port, frame.bytes()),
        Item::Data(..) => false,
    }
}

fn stale_taken<S: SwitchFacts>(device: &S, port: u8, taken: &Option<Item>) -> u64
    requires { port < (S.view device.now).k }
    ensures { result ≡ count_by (is_stale (S.view device.now) port) (option_to_list taken.now) }
{
    match taken {
        None => 0,
        Some(item) => one_if(is_stale(device, port, item)),
    }
}

// How many items are stale in a queue out of a port.
fn stale_in<S: SwitchFacts>(device: &S, port: u8, items: Iter<'_, Item>) -> u64
    requires { port < (S.view device.now).k }
    ensures { result ≡ count_by (is_stale (S.view device.now) port) items.entry }
{
    let _few = items.len();
    let mut count = 0;
    for item in items {
        count += one_if(is_stale(device, port, item));
    }
    count
}

// The same, where a count is known of what the switch announced before.
fn count_port<S: SwitchFacts>(
    device: &S,
    port: u8,
    items: Iter<'_, Item>,
    said: &Said,
    count: u64,
) -> u64
    requires port { port < (S.view device.now).k }
    requires known { count ≡ count_by (is_stale_under said.now) items }
    ensures { result ≡ count_by (is_stale (S.view device.now) port) items.entry }
{
    if says_still(device, port, said) {
        count
    } else {
        stale_in(device, port, items)
    }
}

// Counts again in each queue out of a port where the switch announces something else than before. The
// answer is how many were stale in those out of all its ports, and how many are.
fn count_again<S: SwitchFacts>(
    counts: &mut Vec<u64>,
    device: &S,
    out: &CountedQueues<Item>,
    s: usize,
    said: &[Said; 24],
) -> (u64, u64)
    requires queues { port_index (S.view device.now).k s (S.view device.now).k ≤ length out.now }
    requires many { vec_len counts.old ≡ length out.now }
    requires known { (port : ℕ) → port < (S.view device.now).k → IfSome (slice_get said.now port) (λ was.
        slice_index_or counts.old.items (port_index (S.view device.now).k s port) 0
        ≡ count_by (is_stale_under was) (items_at out.now (port_index (S.view device.now).k s port))) }
    ensures many { vec_len counts.new ≡ length out.now }
    ensures before { result.0 ≡ sum_by (λ port. slice_index_or counts.old.items (port_index (S.view device.now).k s port) 0) (ports_of_switch (S.view device.now).k) }
    ensures after { result.1 ≡ stale_at_ports (S.view device.now).k (Some (S.view device.now)) out.now s }
    ensures each { (port : ℕ) → port < (S.view device.now).k → slice_index_or counts.new.items (port_index (S.view device.now).k s port) 0
        ≡ stale_in (Some (S.view device.now)) port (items_at out.now (port_index (S.view device.now).k s port)) }
    ensures others { (t port : ℕ) → port < (S.view device.now).k → (t ≡ s → ⊥) →
        slice_index_or counts.new.items (port_index (S.view device.now).k t port) 0 ≡ slice_index_or counts.old.items (port_index (S.view device.now).k t port) 0 }
{
    let k = device.k();
    let (_bound, _many) = (out.counted(), out.queues().len());
    let (mut before, mut after) = (0, 0);
    for port in 0..k {
        let at = s * k as usize + port as usize;
        let count = counts[at];
        let now = count_port(
            device,
            port,
            out.queues().iter(at),
            &said[port as usize],
            count,
        );
        counts[at] = now;
        before += count;
        after += now;
    }
    (before, after)
}

fn zeros(alloc: Global, many: usize) -> Result<Vec<u64>, Memory>
    ensures { IfOk result (λ counts. counts.items ≡ replicate many 0) }
{
    let mut counts = Vec::new(alloc);
    for _ in 0..many {
        counts.push(0)?;
    }
    Ok(counts)
}
