ghost use Rattle.std.specs.Prelude.{◌≡◌, ◌↔◌, ◌<◌, IsTrue, Some, true};
ghost use Rattle.pl_node.specs.PortRecords.{id_at, is_usable, port_of};
ghost use Rattle.pl_fabric.specs.Settled.{IsSettledEnd, announced_at};

use crate::votes::would_change;
use pl_frame::SwitchId;
use pl_node::{ManagerLogic, Neighbour, SwitchFacts};

fn id_at<F: SwitchFacts>(facts: &F, port: u8) -> Option<SwitchId>
    requires { port < (F.view facts.now).k }
    ensures { result ≡ id_at (F.view facts.now) port }
{
    match facts.port(port).heard {
        Some(neighbour) => Some(neighbour.id),
        None => None,
    }
}

fn is_usable<F: SwitchFacts>(facts: &F, port: u8) -> bool
    requires { port < (F.view facts.now).k }
    ensures { result ≡ is_usable (F.view facts.now) port }
{
    facts.port(port).is_usable(facts.id())
}

// What a switch would announce out of a port.
fn announced_at<F: SwitchFacts>(facts: &F, port: u8) -> Neighbour
    requires { port < (F.view facts.now).k }
    ensures { result ≡ announced_at (F.view facts.now) port }
{
    Neighbour {
        id: facts.id(),
        place: facts.place(),
        echo: id_at(facts, port),
    }
}

// Whether the record of a port is what the other end would announce.
fn is_current<F: SwitchFacts>(facts: &F, port: u8, other: &F, there: u8) -> bool
    requires here { port < (F.view facts.now).k }
    requires there { there < (F.view other.now).k }
    ensures { IsTrue result ↔ ((port_of (F.view facts.now) port).heard ≡ Some (announced_at (F.view other.now) there)) }
{
    match facts.port(port).heard {
        Some(neighbour) => neighbour == announced_at(other, there),
        None => false,
    }
}

// Whether it is so, where the link is live.
fn is_current_if<F: SwitchFacts>(live: bool, facts: &F, port: u8, other: &F, there: u8) -> bool
    requires here { port < (F.view facts.now).k }
    requires there { there < (F.view other.now).k }
    ensures { IsTrue result ↔ (live ≡ true → (port_of (F.view facts.now) port).heard ≡ Some (announced_at (F.view other.now) there)) }
{
    if live {
        is_current(facts, port, other, there)
    } else {
        true
    }
}

/// Whether nothing would change what is known of one direction of a link.
pub(crate) fn is_settled_end<S: SwitchFacts, M: ManagerLogic>(
    manager: &M,
    live: bool,
    switch: &S,
    port: u8,
    other: &S,
    there: u8,
) -> bool
    requires here { port < (S.view switch.now).k }
    requires there { there < (S.view other.now).k }
    ensures { IsTrue result ↔ IsSettledEnd (M.view manager.now) live (S.view switch.now) port (S.view other.now) there }
{
    if is_usable(switch, port) != live {
        return false;
    }
    if !is_current_if(live, switch, port, other, there) {
        return false;
    }
    if manager.told(switch.id(), other.id()) != live {
        return false;
    }
    !would_change(switch, port, other, there)
}
