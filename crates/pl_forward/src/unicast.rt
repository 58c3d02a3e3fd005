ghost use Rattle.std.specs.Prelude.{◌≡◌, ◌<◌, ◌≤◌, length, OnOk};
ghost use Rattle.pl_node.specs.PortRecords.{place_at};
ghost use Rattle.pl_frame.specs.Ethernet.{destination_of};
ghost use Rattle.pl_pmac.specs.Pmac.{pmac_of};
ghost use Rattle.pl_steps.specs.Taken.{IsTaken};
ghost use Rattle.pl_switch_rule.specs.Forwarding.{came_by, candidates_by, forwards};
ghost use Rattle.pl_switch_rule.specs.SwitchRule.{by_flow};

use crate::{UnicastFacts, choose_by_flow};
use pl_frame::{Frame, Mac};
use pl_layouts::Place;
use pl_node::{Act, Cause, Memory, Outbox, SwitchFacts};
use pl_switch_rule::Came;

/// Whether a frame of the neighbour at a port comes from below or from above; none where the neighbour is
/// of the switch's own level, or one of the two levels is not known.
pub fn came_by<F: SwitchFacts>(facts: &F, port: u8) -> Option<Came>
    requires { port < (F.view facts.now).k }
    ensures { result ≡ came_by (F.view facts.now) port }
{
    Came::between(facts.place().level, place_at(facts, port).level)
}

// The place of the neighbour at a port, as far as it was told.
fn place_at<F: SwitchFacts>(facts: &F, port: u8) -> Place
    requires { port < (F.view facts.now).k }
    ensures { result ≡ place_at (F.view facts.now) port }
{
    match facts.port(port).heard {
        Some(neighbour) => neighbour.place,
        None => Place {
            level: None,
            position: None,
            pod: None,
        },
    }
}

/// The port by which a unicast frame for another edge switch leaves: of the candidates the one that its
/// flow names. It goes nowhere where it came from a neighbour of the switch's own level.
pub fn next_port<F: UnicastFacts>(facts: &F, came: Option<Came>, frame: &[u8]) -> Option<u8>
    requires { 14 ≤ length frame.now }
    ensures { result ≡ by_flow (candidates_by (F.view facts.now) (pmac_of (destination_of frame.now)) came) frame.now }
{
    match came {
        Some(came) => {
            let to = pl_pmac::unpack(Mac::read_at(frame, 0));
            choose_by_flow(facts.candidates(to, came), frame)
        }
        None => None,
    }
}

/// Passes a unicast frame on to another edge switch, or drops it where it has no next hop.
pub fn forward<F: UnicastFacts>(
    facts: &F,
    came: Option<Came>,
    frame: Frame,
    out: &mut Outbox,
) -> Result<(), Memory>
    requires { 14 ≤ length frame }
    ensures { OnOk result (IsTaken (forwards by_flow (F.view facts.now) came frame) (F.view facts.now) out.old out.new) }
{
    match next_port(facts, came, frame.bytes()) {
        Some(port) => out.push(Act::Pass(port, frame)),
        None => out.push(Act::Drop(Cause::NoNextHop)),
    }
}
