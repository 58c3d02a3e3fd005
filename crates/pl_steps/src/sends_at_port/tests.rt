ghost use Rattle.std.specs.Prelude.{◌≡◌, not, List, [], ◌∷◌, ◌++◌, map, OnOk};
ghost use Rattle.pl_node.specs.PortRecords.{port_of, ports_where};
ghost use Rattle.pl_node.specs.SwitchViews.{SwitchView};
ghost use Rattle.pl_steps.specs.Steps.{does, ◌▹◌};
ghost use Rattle.pl_steps.specs.Taken.{IsTaken};

use super::*;
use pl_node::{SwitchFacts, ToManager};
use std::alloc::Global;
use std::test::Fail;

// Sends a frame out of each port that is no host port.
#[derive(Drop)]
struct SendsToSwitches<'a, F: SwitchFacts> {
    facts: &'a F,
    frame: &'a [u8],
    alloc: Global,
}

impl<F: SwitchFacts> SendsAtPort for SendsToSwitches<'_, F> {
    ghost use Rattle.std.specs.Prelude.{not};
    ghost use Rattle.pl_node.specs.PortRecords.{port_of};

    ghost ports = { λ sender. (F.view sender.facts.now).k };

    ghost sends = { λ sender port. not (port_of (F.view sender.facts.now) port).host };

    ghost frame_at = { λ sender port. sender.frame.now };

    fn frame(&self, port: u8) -> Result<Option<Frame>, Memory> {
        if self.facts.port(port).host {
            Ok(None)
        } else {
            let frame = Frame::copy(self.alloc, self.frame)?;
            Ok(Some(frame))
        }
    }
}

fn send_to_switches<F: SwitchFacts>(
    facts: &F,
    frame: &[u8],
    alloc: Global,
    out: &mut Outbox,
) -> Result<(), Memory>
    ensures { OnOk result (out.new ≡ out.old ++ map (λ port. Act.Control port frame.now) (ports_where (F.view facts.now) (λ port. not (port_of (F.view facts.now) port).host))) }
{
    let sender = SendsToSwitches {
        facts,
        frame,
        alloc,
    };
    send_at_each_port(&sender, facts.k(), out)
}

// Wishes for a pod.
fn wish(out: &mut Outbox) -> Result<(), Memory>
    ensures { OnOk result ((v : SwitchView) → IsTaken (does v (Act.Tell ToManager.PodWanted ∷ [])) v out.old out.new) }
{
    out.push(Act::Tell(ToManager::PodWanted))
}

// And once more.
fn wish_twice(out: &mut Outbox) -> Result<(), Memory>
    ensures { OnOk result ((v : SwitchView) → IsTaken (does v (Act.Tell ToManager.PodWanted ∷ []) ▹ (λ w. does w (Act.Tell ToManager.PodWanted ∷ []))) v out.old out.new) }
{
    wish(out)?;
    wish(out)?;
    Ok(())
}

#[test]
fn two_wishes_are_two_acts(rt: HostRuntime) -> Result<(), Fail> {
    let mut out: Outbox = Outbox::new(rt.alloc());
    wish_twice(&mut out)?;
    assert_eq!(rt; out.len(), 2);
    Ok(())
}
