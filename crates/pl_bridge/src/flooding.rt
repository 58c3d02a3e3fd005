ghost use Rattle.std.specs.Prelude.{◌≡◌, ◌≤◌, ℕ, ◌++◌, OnOk, None, Some};
ghost use Rattle.pl_bridge_rule.specs.BridgeRule.{goes_on};

use pl_frame::Frame;
use pl_node::{Act, Cause, Memory, Outbox};
use pl_steps::{TellsAtPort, one_act_where, tell_at_each_port};
use std::alloc::Global;

/// A frame goes to the port of its destination, and ends where it came from there; without one it goes to
/// all other ports of k.
pub(crate) fn go_on(
    alloc: Global,
    k: u8,
    port: u8,
    frame: &[u8],
    to: Option<u8>,
    out: &mut Outbox,
) -> Result<(), Memory>
    requires { k ≤ 24 }
    ensures { OnOk result (out.new ≡ out.old ++ goes_on k port frame.now to) }
{
    match to {
        None => flood(alloc, k, port, frame, out),
        Some(there) => go_out(alloc, k, port, frame, there, out),
    }
}

fn go_out(
    alloc: Global,
    k: u8,
    port: u8,
    frame: &[u8],
    there: u8,
    out: &mut Outbox,
) -> Result<(), Memory>
    ensures { OnOk result (out.new ≡ out.old ++ goes_on k port frame.now (Some there)) }
{
    if there == port {
        return out.push(Act::Drop(Cause::NoNextHop));
    }
    out.push(Act::Pass(there, Frame::copy(alloc, frame)?))
}

fn flood(alloc: Global, k: u8, port: u8, frame: &[u8], out: &mut Outbox) -> Result<(), Memory>
    requires { k ≤ 24 }
    ensures { OnOk result (out.new ≡ out.old ++ goes_on k port frame.now None) }
{
    one_act_where();
    let others = Others { port, alloc, frame };
    tell_at_each_port(&others, k, out)
}

// A copy of a frame for each port but one.
#[derive(Drop)]
struct Others<'a> {
    port: u8,
    alloc: Global,
    frame: &'a [u8],
}

impl TellsAtPort for Others<'_> {
    ghost use Rattle.pl_node.specs.declared.acts.Act.TheVariants.{Pass};
    ghost use Rattle.std.specs.Prelude.{◌==◌, not};
    ghost use Rattle.pl_steps.specs.PortsTold.{done_where};

    ghost ports = { λ others. 24 };

    ghost told = { λ others. done_where (λ port. not (port == others.port)) (λ port. Pass port others.frame.now) };

    fn tell(&self, port: u8, out: &mut Outbox) -> Result<(), Memory> {
        if port == self.port {
            return Ok(());
        }
        out.push(Act::Pass(port, Frame::copy(self.alloc, self.frame)?))
    }
}
