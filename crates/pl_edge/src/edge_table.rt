ghost use Rattle.std.specs.Prelude.{◌≡◌, ◌<◌, ◌≤◌, ◌++◌, None, not, is_some, length, IfOk, OnErr, OnOk};
ghost use Rattle.pl_frame.specs.Ethernet.{source_of};
ghost use Rattle.pl_node.specs.PortRecords.{ports_of_switch};
ghost use Rattle.pl_node.specs.SwitchViews.{SwitchView};
ghost use Rattle.pl_steps.specs.Taken.{IsTaken};
ghost use Rattle.pl_switch_rule.specs.Granting.{grants_remembered, has_no_address, learns_source, remembered_ip};
ghost use Rattle.pl_switch_rule.specs.Reporting.{addresses_reported, each_told, groups_reported};
ghost use Rattle.pl_migrate.specs.AddressTables.{edge_at, use_of};
ghost use Rattle.pl_edge.specs.EdgeViews.{edge_in, granted_by, grantee_by, new_edge, with_source, placed_at, KeepsAddressTable, KeepsEdge, MayBeAt};

use crate::reading::{sender_ip, source_of};
use pl_frame::{Frame, Ip4, Mac};
use pl_members::Members;
use pl_migrate::{AddressTable, Grantee};
use pl_node::{AddressUse, Memory, Outbox, Source};
use pl_pmac::Pmac;
use std::alloc::Global;
use std::marker::Model;

/// What an edge switch keeps of the hosts at its ports. Contracts see its k, the address table once it
/// is placed, what it remembers of each port, and the memberships.
#[derive(Drop)]
pub struct EdgeTable {
    pub(crate) alloc: Global,
    pub(crate) k: u8,
    pub(crate) address_table: Option<AddressTable>,
    pub(crate) remembered: Vec<Option<Source>>,
    pub(crate) members: Members,
}

impl Model for EdgeTable {
    ghost use Rattle.pl_edge.specs.EdgeViews.{EdgeView, IsOfPorts};

    ghost Value = { EdgeView };

    ghost view = { λ table. record { k = table.k; address_table = table.address_table; remembered = table.remembered.items; members = table.members } };

    ghost invariant = { λ table. IsOfPorts table.k table.address_table table.remembered.items };
}

impl EdgeTable {
    /// An edge switch of k ports that is not placed and has heard nothing.
    pub fn new(alloc: Global, k: u8) -> Result<EdgeTable, Memory>
        requires { k ≤ 24 }
        ensures { IfOk result (λ edge. edge ≡ new_edge k) }
    {
        Ok(EdgeTable {
            alloc,
            k,
            address_table: None,
            remembered: vec![in alloc; None; usize::from(k)]?,
            members: Members::new(alloc),
        })
    }

    /// How many ports the switch has.
    pub fn k(&self) -> u8
        ensures { result ≡ self.now.k }
    {
        self.k
    }

    /// Whether the switch is placed.
    pub fn is_placed(&self) -> bool
        ensures { result ≡ is_some self.now.address_table }
    {
        self.address_table.is_some()
    }

    /// The switch has lost its place, and its address table with it.
    pub fn unplaced(&mut self)
        ensures { self.new ≡ record self.old { address_table = None } }
    {
        self.address_table = None;
    }

    /// Whether an address was granted here, be it free by now or not.
    pub fn is_granted(&self, pmac: Pmac) -> bool
        ensures { result ≡ is_some (granted_by self.now.address_table pmac) }
    {
        match &self.address_table {
            Some(address_table) => address_table.granted(pmac).is_some(),
            None => false,
        }
    }

    /// What an address of this switch is used for; none where it was never granted, and before the switch is
    /// placed.
    pub fn holding(&self, pmac: Pmac) -> Option<AddressUse>
        ensures { result ≡ use_of (granted_by self.now.address_table pmac) }
    {
        match &self.address_table {
            Some(address_table) => {
                let grant = address_table.granted(pmac)?;
                Some(grant.held)
            }
            None => None,
        }
    }

    /// Whose an address is, be it in use or not; none where it is free, and before the switch is placed.
    pub fn find(&self, pmac: Pmac) -> Option<Grantee>
        ensures { result ≡ grantee_by self.now.address_table pmac }
    {
        match &self.address_table {
            Some(address_table) => address_table.find(pmac),
            None => None,
        }
    }

    /// A fabric manager that begins anew is told of each address that is in use, then of each for which a trap
    /// stands, then of each that rests, by rising port and vmid.
    pub fn report(&self, out: &mut Outbox) -> Result<(), Memory>
        ensures { OnOk result ((v : SwitchView) → v.k ≡ self.now.k → out.new ≡ out.old ++ each_told (addresses_reported (edge_in self.now v))) }
    {
        match &self.address_table {
            Some(address_table) => address_table.report(self.k, out),
            None => Ok(()),
        }
    }

    /// And of each group with members, by rising number.
    pub fn report_groups(&self, out: &mut Outbox) -> Result<(), Memory>
        ensures { OnOk result (out.new ≡ out.old ++ each_told (groups_reported self.now.members)) }
    {
        self.members.report(out)
    }

    /// The switch became placed: each source that it remembers is granted an address, by rising port.
    pub fn placed(&mut self, pod: u16, position: u8, out: &mut Outbox) -> Result<(), Memory>
        requires { self.old.address_table ≡ None }
        ensures taken { OnOk result ((v : SwitchView) → IsTaken (grants_remembered (ports_of_switch self.old.k) (record (edge_in self.old v) { place = edge_at pod position })) (edge_in self.new v) out.old out.new) }
        ensures k { self.new.k ≡ self.old.k }
        ensures without { OnErr result (self.new.address_table ≡ None) }
        ensures address_table { OnOk result (KeepsAddressTable (placed_at pod position self.old).address_table self.new.address_table) }
        ensures members { self.new.members ≡ self.old.members }
    {
        let mut address_table = AddressTable::new(self.alloc, self.k, pod, position)?;
        address_table.learn_all_remembered(self.k, self.remembered.as_mut_slice(), out)?;
        self.address_table = Some(address_table);
        Ok(())
    }

    /// The source of a frame that a host sent is learnt: it has an address or is granted one, or it is
    /// remembered as long as the switch is not placed. False exactly where every vmid of the port was
    /// given and no address of it is free, so that it has none and the frame ends.
    pub fn learn(&mut self, port: u8, frame: &Frame, out: &mut Outbox) -> Result<bool, Memory>
        requires port { port < self.old.k }
        requires long { 14 ≤ length frame.now }
        ensures taken { OnOk result ((v : SwitchView) → MayBeAt self.old.address_table v.place → IsTaken (learns_source (edge_in self.old v) port frame.now) (edge_in self.new v) out.old out.new) }
        ensures known { IfOk result (λ known. (v : SwitchView) → MayBeAt self.old.address_table v.place → not known ≡ has_no_address (edge_in self.new v) port (source_of frame.now)) }
        ensures kept { KeepsEdge self.old self.new }
    {
        let amac = source_of(frame.bytes());
        let ip = sender_ip(frame.bytes());
        match &mut self.address_table {
            Some(address_table) => Ok(address_table.learn(port, amac, ip, out)?.is_some()),
            None => {
                remember(&mut self.remembered, port, amac, ip);
                Ok(true)
            }
        }
    }
}

// The last source of a port, with the IPv4 address that it gave since it became that.
fn remember(remembered: &mut Vec<Option<Source>>, port: u8, amac: Mac, ip: Option<Ip4>)
    requires { port < length remembered.old.items }
    ensures { remembered.new.items ≡ with_source remembered.old.items port amac ip }
{
    let known = remembered_ip(remembered[usize::from(port)], amac);
    let ip = ip.or(known);
    remembered[usize::from(port)] = Some(Source { amac, ip });
}

// The IPv4 address that a source gave which is remembered.
fn remembered_ip(source: Option<Source>, amac: Mac) -> Option<Ip4>
    ensures { result ≡ remembered_ip source amac }
{
    match source {
        Some(source) if source.amac == amac => source.ip,
        _ => None,
    }
}
