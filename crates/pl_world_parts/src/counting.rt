ghost use Rattle.std.specs.Prelude.{◌≡◌};
ghost use Rattle.pl_world.specs.Pending.{is_order, is_report};

use pl_node::{ToManager, ToSwitch};
use pl_queues::Counted;
use std::marker::Model;

/// A message to the manager that waits. It counts, unless a host's question brought it about.
#[derive(Debug, Drop)]
pub struct WaitingToManager(ToManager);

impl Model for WaitingToManager {
    ghost use Rattle.pl_node.specs.declared.messages.ToManager.{ToManager};

    ghost Value = { ToManager };

    ghost view = { λ told. told.0 };
}

impl WaitingToManager {
    pub fn new(told: ToManager) -> WaitingToManager
        ensures { result ≡ told }
    {
        WaitingToManager(told)
    }

    pub fn told(&self) -> &ToManager
        ensures { result.now ≡ self.now }
    {
        &self.0
    }

    pub fn message(self) -> ToManager
        ensures { result ≡ self }
    {
        self.0
    }
}

impl Counted for WaitingToManager {
    ghost counts = { is_report };

    fn counts(&self) -> bool {
        match self.0 {
            ToManager::Query { .. } => false,
            _ => true,
        }
    }
}

/// A message from the manager that waits. It counts, unless it answers a host's question.
#[derive(Debug, Drop)]
pub struct WaitingToSwitch(ToSwitch);

impl Model for WaitingToSwitch {
    ghost use Rattle.pl_node.specs.declared.messages.ToSwitch.{ToSwitch};

    ghost Value = { ToSwitch };

    ghost view = { λ says. says.0 };
}

impl WaitingToSwitch {
    pub fn new(says: ToSwitch) -> WaitingToSwitch
        ensures { result ≡ says }
    {
        WaitingToSwitch(says)
    }

    pub fn says(&self) -> &ToSwitch
        ensures { result.now ≡ self.now }
    {
        &self.0
    }

    pub fn message(self) -> ToSwitch
        ensures { result ≡ self }
    {
        self.0
    }
}

impl Counted for WaitingToSwitch {
    ghost counts = { is_order };

    fn counts(&self) -> bool {
        match self.0 {
            ToSwitch::Answer { .. } | ToSwitch::Flood { .. } => false,
            _ => true,
        }
    }
}
