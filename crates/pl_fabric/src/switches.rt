ghost use Rattle.std.specs.Prelude.{◌≡◌, ◌↔◌, ◌<◌, ℕ, IsTrue, Some, slice_get};
ghost use Rattle.pl_wiring.specs.Labels.{switch_count};
ghost use Rattle.pl_wiring.specs.Peers.{IsPort, peer_of};
ghost use Rattle.pl_node.specs.AvoidLists.{avoid_list};
ghost use Rattle.pl_node.specs.ManagerFacts.{group_at};
ghost use Rattle.pl_node.specs.ManagerViews.{place_of};
ghost use Rattle.pl_node.specs.SwitchFacts.{group_of_part};
ghost use Rattle.pl_node.specs.SwitchViews.{SwitchView};
ghost use Rattle.pl_world.specs.Flying.{IsCounted};
ghost use Rattle.pl_fabric.specs.Settled.{HasPart, IsSettledSwitch, IsSettledTowards, group_limit};

use crate::ends::is_settled_end;
use pl_node::{AvoidList, HostLogic, ManagerLogic, SwitchFacts, SwitchLogic};
use pl_schedule::World;
use pl_wiring::{Peer, SwitchNo};

// Groups are numbers of 32 bits.
const GROUP_LIMIT: usize = 4_294_967_296;

fn is_settled_towards<S: SwitchLogic, M: ManagerLogic, H: HostLogic>(
    world: &World<S, M, H>,
    s: SwitchNo,
    port: u8,
    peer: Peer,
) -> bool
    requires counted { IsCounted world.now }
    requires switch { s.0 < switch_count world.now.plan.k }
    requires port { port < world.now.plan.k }
    requires there { IsPort world.now.plan.k peer }
    ensures { (v : SwitchView) → slice_get world.now.switches s.0 ≡ Some v → IsTrue result ↔ IsSettledTowards world.now s.0 v port peer }
{
    match peer {
        Peer::HostPort => true,
        Peer::Switch(t, q) => is_settled_end(
            world.manager(),
            world.links().live(s, port),
            world.switch(s),
            port,
            world.switch(t),
            q,
        ),
    }
}

fn is_settled_port<S: SwitchLogic, M: ManagerLogic, H: HostLogic>(
    world: &World<S, M, H>,
    s: SwitchNo,
    port: u8,
) -> bool
    requires counted { IsCounted world.now }
    requires switch { s.0 < switch_count world.now.plan.k }
    requires port { port < world.now.plan.k }
    ensures { (v : SwitchView) → slice_get world.now.switches s.0 ≡ Some v →
        IsTrue result ↔ IsSettledTowards world.now s.0 v port (peer_of world.now.plan s.0 port) }
{
    is_settled_towards(world, s, port, world.wiring().peer(s, port))
}

fn are_settled_ports<S: SwitchLogic, M: ManagerLogic, H: HostLogic>(
    world: &World<S, M, H>,
    s: SwitchNo,
) -> bool
    requires counted { IsCounted world.now }
    requires switch { s.0 < switch_count world.now.plan.k }
    ensures { (v : SwitchView) → slice_get world.now.switches s.0 ≡ Some v →
        IsTrue result ↔ ((port : ℕ) → port < world.now.plan.k → IsSettledTowards world.now s.0 v port (peer_of world.now.plan s.0 port)) }
{
    for port in 0..world.wiring().k() {
        if !is_settled_port(world, s, port) {
            return false;
        }
    }
    true
}

// Whether the parts of the groups that the manager knows are those that it says.
fn has_parts_of_groups<S: SwitchFacts, M: ManagerLogic>(manager: &M, switch: &S) -> bool
    ensures { IsTrue result ↔ ((n group : ℕ) → n < group_limit → group_at (M.view manager.now) n ≡ Some group →
        HasPart (M.view manager.now) (S.view switch.now) group) }
{
    for n in 0..GROUP_LIMIT {
        match manager.group(n) {
            None => return true,
            Some(group) => {
                if !manager.part_is(switch.id(), group, switch.part(group)) {
                    return false;
                }
            }
        }
    }
    true
}

// And those of the groups of which the switch knows a part.
fn has_its_parts<S: SwitchFacts, M: ManagerLogic>(manager: &M, switch: &S) -> bool
    ensures { IsTrue result ↔ ((n group : ℕ) → n < group_limit → group_of_part (S.view switch.now) n ≡ Some group →
        HasPart (M.view manager.now) (S.view switch.now) group) }
{
    for n in 0..GROUP_LIMIT {
        match switch.group(n) {
            None => return true,
            Some(group) => {
                if !manager.part_is(switch.id(), group, switch.part(group)) {
                    return false;
                }
            }
        }
    }
    true
}

fn is_same_list(a: &AvoidList, b: &AvoidList) -> bool
    ensures { IsTrue result ↔ (a.now ≡ b.now) }
{
    a.is(b)
}

fn is_told<S: SwitchFacts, M: ManagerLogic>(manager: &M, switch: &S) -> bool
    ensures { IsTrue result ↔ (place_of (M.view manager.now).told (S.view switch.now).id ≡ (S.view switch.now).place) }
{
    manager.place_of(switch.id()) == switch.place()
}

fn avoids_as_told<S: SwitchFacts, M: ManagerLogic>(manager: &M, switch: &S) -> bool
    ensures { IsTrue result ↔ ((S.view switch.now).avoid ≡ avoid_list (M.view manager.now).told (S.view switch.now).id) }
{
    is_same_list(switch.avoid_list(), manager.avoid_list(switch.id()))
}

fn is_of_epoch<S: SwitchFacts, M: ManagerLogic>(manager: &M, switch: &S) -> bool
    ensures { IsTrue result ↔ ((S.view switch.now).epoch ≡ (M.view manager.now).epoch) }
{
    switch.epoch() == manager.epoch()
}

/// Whether nothing would change what a switch knows, and what the manager was told of it.
pub(crate) fn is_settled_switch<S: SwitchLogic, M: ManagerLogic, H: HostLogic>(
    world: &World<S, M, H>,
    s: SwitchNo,
) -> bool
    requires counted { IsCounted world.now }
    requires switch { s.0 < switch_count world.now.plan.k }
    ensures { (v : SwitchView) → slice_get world.now.switches s.0 ≡ Some v → IsTrue result ↔ IsSettledSwitch world.now s.0 v }
{
    let manager = world.manager();
    let switch = world.switch(s);
    if !is_told(manager, switch) {
        return false;
    }
    if !avoids_as_told(manager, switch) {
        return false;
    }
    if !has_parts_of_groups(manager, switch) {
        return false;
    }
    if !has_its_parts(manager, switch) {
        return false;
    }
    if !is_of_epoch(manager, switch) {
        return false;
    }
    are_settled_ports(world, s)
}
