ghost use Rattle.std.specs.Prelude.{◌≡◌, IfOk};
ghost use Rattle.pl_host_rule.specs.HostRule.{start_frame};
ghost use Rattle.pl_node.specs.HostViews.{boot_host};
ghost use Rattle.pl_test_sample.specs.Duties.{joins_no_group, keeps_all, sends_data, sends_own};
ghost use Rattle.pl_test_sample.specs.Sending.{SendsOneFrame};

use pl_arp::{Arp, Me, REQUEST};
use pl_frame::{Frame, Ip4, Mac, Memory};
use pl_journal::Skip;
use pl_layouts::frames::{ARP_FRAME, arp_frame};
use pl_lists::Items;
use pl_node::{HostAct, HostLogic, HostOutbox, HostTable, Reception};
use std::alloc::Global;

/// A host that sends one frame when it starts, the ARP request for its own address. It plays no
/// recorded frame, keeps what arrives, and never knows more than at boot.
#[derive(Drop)]
pub struct OneFrame {
    alloc: Global,
    me: Me,
    table: HostTable,
}

fn copied(alloc: Global, table: &HostTable) -> Result<HostTable, Memory>
    ensures { IfOk result (λ copy. copy ≡ table.now) }
{
    let mut copy = Items::new(alloc);
    for me in table.as_slice() {
        copy.push(*me)?;
    }
    Ok(copy)
}

// The request of a host for its own address (RFC 826), to all.
fn start_frame(me: Me) -> [u8; ARP_FRAME]
    ensures { result ≡ start_frame me }
{
    let arp = Arp {
        op: REQUEST,
        sha: me.mac,
        spa: me.ip,
        tha: Mac([0; 6]),
        tpa: me.ip,
    };
    arp_frame(Mac::BROADCAST, &arp)
}

impl HostLogic for OneFrame {
    ghost view = { λ host. boot_host host.me host.table };

    ghost rule = { SendsOneFrame };

    ghost sends = { sends_data };

    ghost joins = { joins_no_group };

    ghost owns = { sends_own };

    ghost keeps = { keeps_all };

    fn boot(alloc: Global, me: Me, table: &HostTable) -> Result<OneFrame, Memory> {
        Ok(OneFrame {
            alloc,
            me,
            table: copied(alloc, table)?,
        })
    }

    fn start(&mut self, out: &mut HostOutbox) -> Result<(), Memory> {
        out.push(HostAct::Send(Frame::copy(self.alloc, &start_frame(self.me))?))
    }

    fn retry(&mut self, _out: &mut HostOutbox) -> Result<(), Memory> {
        Ok(())
    }

    fn moved(&mut self, _out: &mut HostOutbox) -> Result<(), Memory> {
        Ok(())
    }

    fn play(
        &mut self,
        _frame: &[u8],
        _original: u32,
        _out: &mut HostOutbox,
    ) -> Result<Option<Skip>, Memory> {
        Ok(Some(Skip::HoldFull))
    }

    fn raw(
        &mut self,
        _frame: &[u8],
        _original: u32,
        _out: &mut HostOutbox,
    ) -> Result<Option<Skip>, Memory> {
        Ok(Some(Skip::HoldFull))
    }

    fn join(&mut self, _group: Ip4, _out: &mut HostOutbox) -> Result<(), Memory> {
        Ok(())
    }

    fn leave(&mut self, _group: Ip4, _out: &mut HostOutbox) -> Result<(), Memory> {
        Ok(())
    }

    fn receive(&mut self, _frame: &[u8], _out: &mut HostOutbox) -> Result<Reception, Memory> {
        Ok(Reception::Kept)
    }

    fn held(&self) -> u64 {
        0
    }
}
