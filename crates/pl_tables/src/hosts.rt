ghost use Rattle.std.specs.Prelude.{◌≡◌, ◌<◌, ◌&&◌, true, OnOk};
ghost use Rattle.pl_node.specs.PortRecords.{port_of};
ghost use Rattle.pl_layouts.specs.Placement.{is_known};
ghost use Rattle.pl_ports.specs.Changes.{takes_host};
ghost use Rattle.pl_steps.specs.Taken.{IsTaken};
ghost use Rattle.pl_switch_rule.specs.Levels.{finds_host};

use crate::TableSwitch;
use crate::keeping::keep_up;
use pl_node::{Memory, Outbox, SwitchFacts};

impl TableSwitch {
    // Whether this is an edge switch that knows of a host at a port.
    pub(crate) fn knows_host(&self, port: u8) -> bool
        requires { port < self.now.k }
        ensures { result ≡ (is_known self.now.place.level 0 && (port_of self.now port).host) }
    {
        self.place().level == Some(0) && self.port(port).host
    }

    // A host is found at a port where none was known.
    pub(crate) fn find_new_host(&mut self, port: u8, out: &mut Outbox) -> Result<(), Memory>
        requires port { port < self.old.k }
        requires host { takes_host self.old port ≡ true }
        ensures taken { OnOk result (IsTaken (finds_host self.old port) self.new out.old out.new) }
        ensures id { self.new.id ≡ self.old.id }
        ensures k { self.new.k ≡ self.old.k }
        ensures edge { OnOk result (is_known self.new.place.level 0 ≡ true) }
    {
        let done = self.state.find_host(port, out);
        keep_up(done, &mut self.state, &mut self.leads, &mut self.tables)
    }
}
