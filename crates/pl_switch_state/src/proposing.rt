ghost use Rattle.std.specs.Prelude.{◌≡◌, ◌<◌, ◌≤◌, ◌==◌, ◌++◌, map, IfOk, OnOk};
ghost use Rattle.std.specs.List.{list_any};
ghost use Rattle.pl_node.specs.declared.acts.Act.{Act};
ghost use Rattle.pl_node.specs.PortRecords.{ports_where};
ghost use Rattle.pl_node.specs.SwitchViews.{SwitchView};
ghost use Rattle.pl_layouts.specs.Control.{control_frame};
ghost use Rattle.pl_switch_rule.specs.Announcing.{proposal, proposes_at};
ghost use Rattle.pl_ports.specs.PortsViews.{ports_alone, put_ports};
ghost use Rattle.pl_position.specs.Candidacy.{with_candidacy};

use pl_frame::Frame;
use pl_layouts::Control;
use pl_ldp::write_control;
use pl_node::{Memory, Outbox, Proposal};
use pl_ports::Ports;
use pl_position::Proposer;
use pl_steps::{SendsAtPort, send_at_each_port};
use std::alloc::Global;

/// An edge switch without a position asks those above it that have not granted its present attempt, by
/// rising port.
pub(crate) fn propose(
    alloc: Global,
    ports: &Ports,
    proposer: &Proposer,
    out: &mut Outbox,
) -> Result<(), Memory>
    requires { proposer.now.k ≡ ports.now.k }
    ensures { OnOk result ((v : SwitchView) → let w = with_candidacy proposer.now (put_ports ports.now v) in
        out.new ≡ out.old ++ map (λ port. Act.Control port (proposal w)) (ports_where w (proposes_at w))) }
{
    let proposing = Proposing {
        alloc,
        ports,
        proposer,
    };
    send_at_each_port(&proposing, ports.k(), out)
}

// The proposals of an edge switch, port by port.
#[derive(Drop)]
struct Proposing<'a> {
    alloc: Global,
    ports: &'a Ports,
    proposer: &'a Proposer,
    ghost votes: { proposer.now.k ≡ ports.now.k },
}

impl SendsAtPort for Proposing<'_> {
    ghost use Rattle.pl_switch_rule.specs.Announcing.{proposal, proposes_at};
    ghost use Rattle.pl_ports.specs.PortsViews.{ports_alone};
    ghost use Rattle.pl_position.specs.Candidacy.{with_candidacy};

    ghost ports = { λ s. s.ports.now.k };

    ghost sends = { λ s. proposes_at (with_candidacy s.proposer.now (ports_alone s.ports.now)) };

    ghost frame_at = { λ s port. proposal (with_candidacy s.proposer.now (ports_alone s.ports.now)) };

    fn frame(&self, port: u8) -> Result<Option<Frame>, Memory> {
        let Some(proposal) = self.proposer.propose() else {
            return Ok(None);
        };
        if !asks(self.ports, self.proposer, port) {
            return Ok(None);
        }
        let frame = proposal_frame(self.alloc, self.ports, proposal)?;
        Ok(Some(frame))
    }
}

// Whether an edge switch without a position asks at a port.
fn asks(ports: &Ports, proposer: &Proposer, port: u8) -> bool
    requires port { port < ports.now.k }
    requires votes { proposer.now.k ≡ ports.now.k }
    ensures { result ≡ proposes_at (with_candidacy proposer.now (ports_alone ports.now)) port }
{
    ports.place().level == Some(0)
        && proposer.fixed().is_none()
        && ports.is_usable_to(1, port)
        && !has_granted(proposer, port)
}

// Whether the present attempt was granted from a port.
fn has_granted(proposer: &Proposer, port: u8) -> bool
    requires { port < proposer.now.k }
    ensures { result ≡ list_any (λ p. p == port) proposer.now.granted }
{
    proposer.granted(port)
}

fn proposal_frame(alloc: Global, ports: &Ports, proposal: Proposal) -> Result<Frame, Memory>
    requires { 1 ≤ proposal.attempt }
    ensures { IfOk result (λ frame. frame ≡ control_frame (Control.Proposal ports.now.id proposal)) }
{
    let mut bytes = [0; 35];
    let length = write_control(&Control::Proposal(ports.id(), proposal), &mut bytes);
    Frame::copy(alloc, &bytes[..length])
}
