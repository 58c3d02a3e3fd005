ghost use Rattle.std.specs.Prelude.{◌≡◌, ◌<◌, ◌≤◌, ℕ, Bool, ◌++◌, map, OnOk};
ghost use Rattle.std.specs.List.{filter};
ghost use Rattle.pl_node.specs.declared.acts.Act.{Act};
ghost use Rattle.pl_node.specs.PortRecords.{ports_of_switch};
ghost use Rattle.pl_steps.specs.PortsTold.{at_each_port, done_where};

use pl_node::{Memory, Outbox};

/// What tells at one port of a switch, whatever was told at the others.
pub trait TellsAtPort {
    ghost use Rattle.std.specs.Prelude.{ℕ, List};
    ghost use Rattle.pl_node.specs.declared.acts.Act.{Act};

    /// The number of ports at which it can be asked.
    ghost ports: { Self → ℕ };

    /// What it tells at a port.
    ghost told: { Self → ℕ → List Act };

    fn tell(&self, port: u8, out: &mut Outbox) -> Result<(), Memory>
        requires { port < ports self.now }
        ensures { OnOk result (out.new ≡ out.old ++ told self.now port) };
}

/// Tells at each of k ports, rising.
#[tactic(auto, using(crate::proofs::Ports::told_more))]
pub fn tell_at_each_port<T: TellsAtPort>(teller: &T, k: u8, out: &mut Outbox) -> Result<(), Memory>
    requires { k ≤ T.ports teller.now }
    ensures { OnOk result (out.new ≡ out.old ++ at_each_port (T.told teller.now) k) }
{
    for port in 0..k {
        teller.tell(port, out)?;
    }
    Ok(())
}

/// What tells one act at each port that passes a test has told these acts, by the ports that pass it.
pub fn one_act_where()
    ensures { (test : ℕ → Bool) (act : ℕ → Act) (k : ℕ) → at_each_port (done_where test act) k ≡ map act (filter test (ports_of_switch k)) }
{}
