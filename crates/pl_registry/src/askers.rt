ghost use Rattle.std.specs.Prelude.{◌≡◌, ◌≤◌, ◌==◌, ◌∷◌, [], None, OnErr, OnOk, length, option_map, reverse};
ghost use Rattle.std.specs.List.{find, list_any};
ghost use Rattle.pl_layouts.specs.Equality.{same_switch};
ghost use Rattle.pl_node.specs.ManagerViews.{is_given_pod, pod_given};
ghost use Rattle.pl_registry.specs.Askers.{pod_holders};

use pl_frame::SwitchId;
use pl_node::{Memory, PodGiven};
use std::alloc::Global;
use std::marker::Model;

/// The switches that asked for the number of a pod, with what they were given. Contracts see each once, the
/// newest first.
#[derive(Debug, Drop)]
pub struct Askers {
    // The newest last.
    given: Vec<PodGiven>,
}

impl Model for Askers {
    ghost use Rattle.std.specs.Prelude.{List, reverse};
    ghost use Rattle.pl_node.specs.declared.pod_given.PodGiven.{PodGiven};
    ghost use Rattle.pl_registry.specs.Askers.{AreOnce};

    ghost Value = { List PodGiven };

    ghost view = { λ askers. reverse askers.given.items };

    ghost invariant = { λ askers. AreOnce (reverse askers.given.items) };
}

impl Askers {
    pub fn new(alloc: Global) -> Askers
        ensures { result ≡ [] }
    {
        Askers {
            given: Vec::new(alloc),
        }
    }

    /// How many switches asked.
    pub fn len(&self) -> usize
        ensures many { result ≡ length self.now }
        ensures few { result ≤ length (pod_holders self.now) }
    {
        self.given.len()
    }

    /// The number that a switch was given, if it asked.
    pub fn pod_of(&self, switch: SwitchId) -> Option<u16>
        ensures { result ≡ pod_given self.now switch }
    {
        match given_to(&self.given, switch) {
            Some(given) => Some(given.pod),
            None => None,
        }
    }

    /// Whether a switch was given this number.
    pub fn has_given(&self, pod: u16) -> bool
        ensures { result ≡ is_given_pod self.now pod }
    {
        is_given(&self.given, pod)
    }

    /// A switch that has none is given a number. Without memory for it all is as it was.
    pub fn give(&mut self, switch: SwitchId, pod: u16) -> Result<(), Memory>
        requires { pod_given self.old switch ≡ None }
        ensures ok { OnOk result (self.new ≡ record { switch = switch; pod = pod } ∷ self.old) }
        ensures err { OnErr result (self.new ≡ self.old) }
    {
        self.given.push(PodGiven { switch, pod })?;
        Ok(())
    }
}

fn given_to(given: &[PodGiven], switch: SwitchId) -> Option<&PodGiven>
    ensures { option_map (λ g. g.now) result ≡ find (λ g. same_switch g.switch switch) (reverse given.now) }
{
    given.iter().rev().find(|given| given.switch.0 == switch.0)
}

fn is_given(given: &[PodGiven], pod: u16) -> bool
    ensures { result ≡ list_any (λ g. g.pod == pod) (reverse given.now) }
{
    given.iter().rev().any(|given| given.pod == pod)
}
