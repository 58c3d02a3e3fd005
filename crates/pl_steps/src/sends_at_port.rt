ghost use Rattle.std.specs.Prelude.{◌≡◌, ◌<◌, ◌≤◌, ℕ, Bool, if◌then◌else◌, ◌++◌, map, IfOk, OnOk, Some, None};
ghost use Rattle.std.specs.List.{filter};
ghost use Rattle.pl_node.specs.declared.acts.Act.{Act};
ghost use Rattle.pl_node.specs.PortRecords.{ports_of_switch};

use crate::{TellsAtPort, one_act_where, tell_at_each_port};
use pl_frame::Frame;
use pl_node::{Act, Memory, Outbox};

/// What sends a control frame out of some ports of a switch.
pub trait SendsAtPort {
    ghost use Rattle.std.specs.Prelude.{ℕ, Bool, List};

    /// The number of ports at which it can be asked.
    ghost ports: { Self → ℕ };

    /// Whether it sends a frame out of a port, and which.
    ghost sends: { Self → ℕ → Bool };

    ghost frame_at: { Self → ℕ → List ℕ };

    fn frame(&self, port: u8) -> Result<Option<Frame>, Memory>
        requires { port < ports self.now }
        ensures { IfOk result (λ frame. frame ≡ (if sends self.now port then Some (frame_at self.now port) else None)) };
}

// Such a sender, port by port.
#[derive(Drop)]
struct Sending<'a, S: SendsAtPort> {
    sender: &'a S,
}

impl<S: SendsAtPort> TellsAtPort for Sending<'_, S> {
    ghost use Rattle.pl_node.specs.declared.acts.Act.TheVariants.{Control};
    ghost use Rattle.pl_steps.specs.PortsTold.{done_where};

    ghost ports = { λ sending. S.ports sending.sender.now };

    ghost told = { λ sending. done_where (S.sends sending.sender.now) (λ port. Control port (S.frame_at sending.sender.now port)) };

    fn tell(&self, port: u8, out: &mut Outbox) -> Result<(), Memory> {
        match self.sender.frame(port)? {
            Some(frame) => out.push(Act::Control(port, frame)),
            None => Ok(()),
        }
    }
}

/// Sends its frame out of each of k ports at which it sends one, rising.
pub fn send_at_each_port<S: SendsAtPort>(sender: &S, k: u8, out: &mut Outbox) -> Result<(), Memory>
    requires { k ≤ S.ports sender.now }
    ensures { OnOk result (out.new ≡ out.old ++ map (λ port. Act.Control port (S.frame_at sender.now port)) (filter (S.sends sender.now) (ports_of_switch k))) }
{
    one_act_where();
    tell_at_each_port(&Sending { sender }, k, out)
}

#[cfg(test)]
mod tests;
