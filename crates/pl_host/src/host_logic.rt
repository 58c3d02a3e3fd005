ghost use Rattle.pl_host_rule.specs.HostRule.{host_rule};
ghost use Rattle.pl_host_rule.proofs.Exports.{host_rule_is_lawful, joins_by_sending, keeps_frames, owes_sends, sends_own};
ghost use Rattle.pl_host.specs.Host.{host_view};

use crate::carried::Carried;
use crate::frames::{membership, request};
use crate::groups::Groups;
use crate::host::Host;
use crate::neighbours::Neighbours;
use crate::owners::Owners;
use crate::sending::{put, send};
use pl_arp::Me;
use pl_frame::{Ip4, Memory};
use pl_host_rule::LawfulHost;
use pl_journal::Skip;
use pl_layouts::Change;
use pl_node::{HostLogic, HostOutbox, HostTable, Reception};
use std::alloc::Global;

impl LawfulHost for Host {
    ghost lawful = { host_rule_is_lawful };
}

impl HostLogic for Host {
    ghost view = { host_view };

    ghost rule = { host_rule };

    ghost sends = { owes_sends };

    ghost joins = { joins_by_sending };

    ghost owns = { sends_own };

    ghost keeps = { keeps_frames };

    fn boot(alloc: Global, me: Me, table: &HostTable) -> Result<Host, Memory> {
        Ok(Host {
            alloc,
            me,
            hosts: Owners::of_table(alloc, table)?,
            neighbours: Neighbours::new(alloc),
            joined: Groups::new(alloc),
        })
    }

    fn start(&mut self, out: &mut HostOutbox) -> Result<(), Memory> {
        put(request(self.alloc, self.me, self.me.ip)?, out)
    }

    fn retry(&mut self, out: &mut HostOutbox) -> Result<(), Memory> {
        self.neighbours.waiting.ask(self.alloc, self.me, out)
    }

    fn moved(&mut self, out: &mut HostOutbox) -> Result<(), Memory> {
        put(request(self.alloc, self.me, self.me.ip)?, out)?;
        self.joined.report(self.alloc, self.me, out)
    }

    fn play(
        &mut self,
        frame: &[u8],
        original: u32,
        out: &mut HostOutbox,
    ) -> Result<Option<Skip>, Memory> {
        let skip = self.skip_of(false, frame, original);
        if skip.is_some() {
            return Ok(skip);
        }
        self.play_frame(frame, out)
    }

    fn raw(
        &mut self,
        frame: &[u8],
        original: u32,
        out: &mut HostOutbox,
    ) -> Result<Option<Skip>, Memory> {
        let skip = self.skip_of(true, frame, original);
        if skip.is_some() {
            return Ok(skip);
        }
        self.send_frame(Carried::copy(self.alloc, frame)?, out)?;
        Ok(None)
    }

    fn join(&mut self, group: Ip4, out: &mut HostOutbox) -> Result<(), Memory> {
        let report = membership(self.alloc, self.me, Change { group, join: true })?;
        send(&mut self.joined, report, out)
    }

    fn leave(&mut self, group: Ip4, out: &mut HostOutbox) -> Result<(), Memory> {
        let leave = membership(self.alloc, self.me, Change { group, join: false })?;
        send(&mut self.joined, leave, out)
    }

    fn receive(&mut self, frame: &[u8], out: &mut HostOutbox) -> Result<Reception, Memory> {
        self.hear_frame(frame, out)
    }

    fn held(&self) -> u64 {
        self.neighbours.waiting.count()
    }
}
