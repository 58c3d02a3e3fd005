ghost use Rattle.std.specs.Prelude.{◌≡◌, IfOk, OnOk};
ghost use Rattle.pl_node.specs.Gains.{Gains};
ghost use Rattle.pl_node.specs.HostDuties.{HostsJoinBySending, HostsKeepFrames, HostsSendData, HostsSendOwn};
ghost use Rattle.pl_node.specs.HostInputs.{HostRule};
ghost use Rattle.pl_node.specs.HostInputs.HostInput.{HasMoved, Joins, Leaves, Plays, PlaysRaw, Receives, Retries, Starts};
ghost use Rattle.pl_node.specs.HostInputs.HostAnswer.{Nothing, Played, Received};
ghost use Rattle.pl_node.specs.HostViews.{HostView, boot_host, held_count};

use crate::{HostOutbox, HostTable, Memory, Reception};
use pl_arp::Me;
use pl_frame::Ip4;
use pl_journal::Skip;
use std::alloc::Global;

/// The software of a host that plays recorded frames. Each call is one step, and puts its acts behind
/// those that are in the outbox. After want of memory neither the host nor the outbox is used again; only
/// its addresses and its table are as they were.
pub trait HostLogic: Drop {
    ghost view: { Self → HostView };

    ghost rule: { HostRule };

    /// A host that knows its own addresses and those of all hosts of the topology, in their order.
    fn boot(alloc: Global, me: Me, table: &HostTable) -> Result<Self, Memory>
        ensures { IfOk result (λ logic. view logic ≡ boot_host me table.now) };

    /// The host asks for its own address, so that the fabric hears of it.
    fn start(&mut self, out: &mut HostOutbox) -> Result<(), Memory>
        ensures step { OnOk result (Gains out.old out.new (λ acts. rule (view self.old) Starts (view self.new) acts Nothing)) }
        ensures me { (view self.new).me ≡ (view self.old).me }
        ensures table { (view self.new).table ≡ (view self.old).table };

    /// It asks again for each address for which frames are held.
    fn retry(&mut self, out: &mut HostOutbox) -> Result<(), Memory>
        ensures step { OnOk result (Gains out.old out.new (λ acts. rule (view self.old) Retries (view self.new) acts Nothing)) }
        ensures me { (view self.new).me ≡ (view self.old).me }
        ensures table { (view self.new).table ≡ (view self.old).table };

    /// It stands at another port.
    fn moved(&mut self, out: &mut HostOutbox) -> Result<(), Memory>
        ensures step { OnOk result (Gains out.old out.new (λ acts. rule (view self.old) HasMoved (view self.new) acts Nothing)) }
        ensures me { (view self.new).me ≡ (view self.old).me }
        ensures table { (view self.new).table ≡ (view self.old).table };

    /// A recorded frame is played; `original` is the length that it had on the wire. The answer is the
    /// first thing that speaks against it; then nothing is sent and nothing changes.
    fn play(
        &mut self,
        frame: &[u8],
        original: u32,
        out: &mut HostOutbox,
    ) -> Result<Option<Skip>, Memory>
        ensures step { IfOk result (λ skip. Gains out.old out.new (λ acts. rule (view self.old) (Plays frame.now original) (view self.new) acts (Played skip))) }
        ensures me { (view self.new).me ≡ (view self.old).me }
        ensures table { (view self.new).table ≡ (view self.old).table };

    /// The same, but the frame is sent as it was recorded.
    fn raw(
        &mut self,
        frame: &[u8],
        original: u32,
        out: &mut HostOutbox,
    ) -> Result<Option<Skip>, Memory>
        ensures step { IfOk result (λ skip. Gains out.old out.new (λ acts. rule (view self.old) (PlaysRaw frame.now original) (view self.new) acts (Played skip))) }
        ensures me { (view self.new).me ≡ (view self.old).me }
        ensures table { (view self.new).table ≡ (view self.old).table };

    /// The host reports that it joins a group.
    fn join(&mut self, group: Ip4, out: &mut HostOutbox) -> Result<(), Memory>
        ensures step { OnOk result (Gains out.old out.new (λ acts. rule (view self.old) (Joins group) (view self.new) acts Nothing)) }
        ensures me { (view self.new).me ≡ (view self.old).me }
        ensures table { (view self.new).table ≡ (view self.old).table };

    /// The host says that it leaves a group.
    fn leave(&mut self, group: Ip4, out: &mut HostOutbox) -> Result<(), Memory>
        ensures step { OnOk result (Gains out.old out.new (λ acts. rule (view self.old) (Leaves group) (view self.new) acts Nothing)) }
        ensures me { (view self.new).me ≡ (view self.old).me }
        ensures table { (view self.new).table ≡ (view self.old).table };

    /// A frame arrives.
    fn receive(&mut self, frame: &[u8], out: &mut HostOutbox) -> Result<Reception, Memory>
        ensures step { IfOk result (λ reception. Gains out.old out.new (λ acts. rule (view self.old) (Receives frame.now) (view self.new) acts (Received reception))) }
        ensures me { (view self.new).me ≡ (view self.old).me }
        ensures table { (view self.new).table ≡ (view self.old).table };

    /// How many frames are held. Takes no memory.
    fn held(&self) -> u64
        ensures { result ≡ held_count (view self.now) };

    ghost sends: { HostsSendData rule };

    ghost joins: { HostsJoinBySending rule };

    ghost owns: { HostsSendOwn rule };

    ghost keeps: { HostsKeepFrames rule };
}
