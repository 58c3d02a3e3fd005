ghost use Rattle.std.specs.Prelude.{◌≡◌, ◌≢◌, ◌↔◌, ◌<◌, ◌≤◌, ◌∷◌, ◌++◌, [], ℕ, Err, false, true, IfOk, IfSome, IsSome, IsTrue, None, Ok, OnErr, OnOk, Some, length};
ghost use Rattle.std.specs.List.{sum_by};
ghost use Rattle.pl_frame.specs.declared.address.Mac.{Mac};
ghost use Rattle.pl_pmac.specs.declared.pmac.Pmac.{Pmac};
ghost use Rattle.pl_node.specs.declared.acts.Act.{Act};
ghost use Rattle.pl_node.specs.AddressUses.{is_in_use};
ghost use Rattle.pl_node.specs.PortRecords.{ports_of_switch};
ghost use Rattle.pl_node.specs.SwitchViews.{SwitchView};
ghost use Rattle.pl_steps.specs.Steps.{does};
ghost use Rattle.pl_steps.specs.Taken.{IsTaken, IsTakenByPart};
ghost use Rattle.pl_switch_rule.specs.Delivering.{addresses, if_newer, last_trap, redirects};
ghost use Rattle.pl_switch_rule.specs.Granting.{granted, grants_at, grants_new, grants_or_learns, grants_remembered, grants_source, in_use, learns_ip, next_vmid, without};
ghost use Rattle.pl_migrate.specs.AddressTables.{address_in, address_in_use, address_table_in, empty_address_table, freed_of, granted_in, grantee_in, grants_of, held_in, is_address_in_use, is_here, is_spent, next_address, numbered, sources_in, takes_ip, takes_over, trap_in, traps, use_of, used_if, with_ip};
ghost use Rattle.pl_migrate.specs.Standings.{stands_so, CanStandSo};
ghost use Rattle.pl_migrate.specs.Keeping.{IsCaughtUp, IsFreeOrNew, IsGrantedOnce, IsHostsOwn, KeepsGrants, KeepsTraps, newer_trap};
ghost use Rattle.pl_layouts.specs.Equality.{is_ip};

use crate::orders::{change, first_free, tenancy_at};
use crate::port_grants::PortGrants;
use crate::tenancy::{FREE, Standing, Tenancy};
use crate::{GrantError, Grantee};
use pl_frame::{Ip4, Mac};
use pl_node::{Act, AddressUse, Grant, Memory, Outbox, Source, ToManager, Trap};
use pl_pmac::Pmac;
use pl_pool::Pool;
use std::alloc::Global;
use std::marker::Model;

/// The addresses that the edge switch of a pod and position granted. Contracts see its pod and position,
/// for each port what was granted there, and the addresses in order: those in use, by their last use, those
/// with a trap, by its setting, and the free ones of each port, by their release. An address is found at its
/// place, a host at a port from the newest address of that port back, and what falls due first of its list.
#[derive(Drop)]
pub struct AddressTable {
    pub(crate) pod: u16,
    pub(crate) position: u8,
    // So many ticks passed since the switch was placed.
    pub(crate) tick: u64,
    pub(crate) ports: Vec<PortGrants>,
    pub(crate) orders: Pool<Pmac>,
}

impl Model for AddressTable {
    ghost use Rattle.pl_migrate.specs.AddressTables.{AddressTableView};
    ghost use Rattle.pl_migrate.specs.Tenancies.{AreInOrder, table_view};

    ghost Value = { AddressTableView };

    ghost view = { λ table. table_view table.pod table.position table.tick table.ports.items table.orders };

    ghost invariant = { λ table. AreInOrder table.pod table.position table.tick table.ports.items table.orders };
}

impl AddressTable {
    /// The address table of an edge switch with k ports that has granted nothing.
    pub fn new(alloc: Global, k: u8, pod: u16, position: u8) -> Result<AddressTable, Memory>
        ensures { IfOk result (λ address_table. address_table ≡ empty_address_table k pod position) }
    {
        let mut ports = Vec::with_capacity(alloc, usize::from(k))?;
        for _ in 0..k {
            ports.push(PortGrants::new(alloc))?;
        }
        Ok(AddressTable {
            pod,
            position,
            tick: 0,
            ports,
            orders: Pool::new(alloc, FREE + u32::from(k))?,
        })
    }

    /// How many ports the switch has.
    pub fn ports(&self) -> usize
        ensures { result ≡ length self.now.grants }
    {
        self.ports.len()
    }

    /// Whether an address has the pod and the position of this edge switch.
    pub fn is_local(&self, pmac: Pmac) -> bool
        ensures { result ≡ is_here self.now pmac }
    {
        self.pod == pmac.pod && self.position == pmac.position
    }

    /// What was granted under an address, also where it is free; none where it was never granted here.
    pub fn granted(&self, pmac: Pmac) -> Option<Grant>
        ensures { result ≡ granted_in self.now pmac }
    {
        if !self.is_local(pmac) {
            return None;
        }
        let tenancy = tenancy_at(self.ports.as_slice(), pmac)?;
        Some(tenancy.grant(self.tick))
    }

    /// The same of an address that is somebody's: none also where it is free.
    pub fn held(&self, pmac: Pmac) -> Option<Grant>
        ensures { result ≡ held_in self.now pmac }
    {
        match self.granted(pmac) {
            Some(grant) if grant.held.is_held() => Some(grant),
            _ => None,
        }
    }

    /// What an address of a port is used for; none where it was never granted.
    pub fn holding(&self, port: u8, vmid: u16) -> Option<AddressUse>
        ensures { result ≡ use_of (granted_in self.now (address_in self.now port vmid)) }
    {
        let grant = self.granted(self.address(port, vmid))?;
        Some(grant.held)
    }

    /// Whose an address is, be it in use or not; none where it was never granted here, or is free.
    pub fn find(&self, pmac: Pmac) -> Option<Grantee>
        ensures { result ≡ grantee_in self.now pmac }
    {
        match self.held(pmac) {
            Some(grant) => Some(Grantee {
                amac: grant.amac,
                port: pmac.port,
            }),
            None => None,
        }
    }

    /// The trap that stands for an address; none where none was set.
    pub fn follow(&self, pmac: Pmac) -> Option<Trap>
        ensures { result ≡ trap_in self.now pmac }
    {
        match self.granted(pmac) {
            Some(grant) => grant.held.trap(),
            None => None,
        }
    }

    /// The address that a host has in use at a port. It has no other in use there.
    pub fn in_use(&self, port: u8, amac: Mac) -> Option<Pmac>
        requires { port < length self.now.grants }
        ensures used { result ≡ address_in_use self.now port amac }
        ensures only { (pmac : Pmac) → IsHostsOwn self.now port amac pmac → result ≡ Some pmac }
    {
        match self.ports[usize::from(port)].in_use(amac) {
            Some(vmid) => Some(self.address(port, vmid)),
            None => None,
        }
    }

    /// A host uses an address that it has in use: it is the one that was used last from now on.
    pub fn used(&mut self, pmac: Pmac)
        requires { is_address_in_use self.old pmac ≡ true }
        ensures step { (v : SwitchView) → address_table_in self.new v ≡ used_if (address_table_in self.old v) pmac (granted (address_table_in self.old v) pmac) }
        ensures used { (port : ℕ) (amac : Mac) → address_in_use self.new port amac ≡ address_in_use self.old port amac }
        ensures caught_up { IsCaughtUp self.old → IsCaughtUp self.new }
        ensures kept { KeepsGrants self.old self.new }
        ensures traps { KeepsTraps self.old self.new }
    {
        self.stand(pmac, Standing::Fresh);
    }

    /// The address that a host has in use at a port, which is used by that, or, where it has none there, the
    /// next one of that port: of the free ones the one that was freed first, else a new one.
    pub fn grant(&mut self, port: u8, amac: Mac) -> Result<Pmac, GrantError>
        requires { port < length self.old.grants }
        ensures address { IfOk result (λ pmac. address_in_use self.new port amac ≡ Some pmac) }
        ensures once { IfOk result (IsGrantedOnce self.old port amac) }
        ensures step { OnOk result ((v : SwitchView) → address_table_in self.new v ≡ (grants_or_learns (address_table_in self.old v) port amac None (in_use (grants_at (address_table_in self.old v) port) amac)).view) }
        ensures spent { (result ≡ Err GrantError.Spent) ↔ ((address_in_use self.old port amac ≡ None) × IsTrue (is_spent self.old port)) }
        ensures err { OnErr result (self.new ≡ self.old) }
        ensures caught_up { IsCaughtUp self.old → IsCaughtUp self.new }
        ensures kept { KeepsGrants self.old self.new }
        ensures traps { KeepsTraps self.old self.new }
    {
        match self.in_use(port, amac) {
            Some(pmac) => {
                self.used(pmac);
                Ok(pmac)
            }
            None => match self.next_address(port) {
                Some(pmac) => {
                    self.grant_next(pmac, amac, None)?;
                    Ok(pmac)
                }
                None => Err(GrantError::Spent),
            },
        }
    }

    /// A host at a port is heard, with the IPv4 address that it gives or without one. It uses the address
    /// that it has in use there, or is granted the next one; the manager is told of a grant, and of an IPv4
    /// address that is new for an address in use. The answer is the address that the host has then: none
    /// where every vmid of the port was given, and no address of it is free.
    pub fn learn(
        &mut self,
        port: u8,
        amac: Mac,
        ip: Option<Ip4>,
        out: &mut Outbox,
    ) -> Result<Option<Pmac>, Memory>
        requires { port < length self.old.grants }
        ensures taken { OnOk result (IsTakenByPart address_table_in (λ v. grants_or_learns v port amac ip (in_use (grants_at v port) amac)) self.old self.new out.old out.new) }
        ensures address { IfOk result (λ pmac. pmac ≡ address_in_use self.new port amac) }
        ensures once { IfOk result (λ pmac. IfSome pmac (IsGrantedOnce self.old port amac)) }
        ensures spent { (result ≡ Ok None) ↔ ((address_in_use self.old port amac ≡ None) × IsTrue (is_spent self.old port)) }
        ensures err { OnErr result (self.new ≡ self.old) }
        ensures caught_up { IsCaughtUp self.old → IsCaughtUp self.new }
        ensures kept { KeepsGrants self.old self.new }
        ensures traps { KeepsTraps self.old self.new }
    {
        match self.in_use(port, amac) {
            Some(pmac) => {
                self.learn_ip(pmac, ip, out)?;
                Ok(Some(pmac))
            }
            None => match self.next_address(port) {
                Some(pmac) => {
                    self.grant_and_tell(pmac, amac, ip, out)?;
                    Ok(Some(pmac))
                }
                None => Ok(None),
            },
        }
    }

    /// The same of the source that was remembered at a port while the switch was not placed, if there is
    /// one.
    pub fn learn_remembered(
        &mut self,
        port: u8,
        source: Option<Source>,
        out: &mut Outbox,
    ) -> Result<(), Memory>
        requires { port < length self.old.grants }
        ensures taken { OnOk result (IsTakenByPart address_table_in (λ v. grants_source v port source) self.old self.new out.old out.new) }
        ensures err { OnErr result (self.new ≡ self.old) }
        ensures caught_up { IsCaughtUp self.old → IsCaughtUp self.new }
        ensures kept { KeepsGrants self.old self.new }
        ensures traps { KeepsTraps self.old self.new }
    {
        match source {
            Some(source) => {
                self.learn(port, source.amac, source.ip, out)?;
                Ok(())
            }
            None => Ok(()),
        }
    }

    /// The same of all k ports, rising. Nothing is remembered there any more.
    pub fn learn_all_remembered(
        &mut self,
        k: u8,
        remembered: &mut [Option<Source>],
        out: &mut Outbox,
    ) -> Result<(), Memory>
        requires ports { k ≡ length self.old.grants }
        requires sources { k ≡ length remembered.old }
        ensures taken { OnOk result ((v : SwitchView) → IsTaken (grants_remembered (ports_of_switch k) (sources_in self.old remembered.old v)) (sources_in self.new remembered.new v) out.old out.new) }
        ensures many { length remembered.new ≡ length remembered.old }
        ensures caught_up { IsCaughtUp self.old → IsCaughtUp self.new }
        ensures kept { KeepsGrants self.old self.new }
        ensures traps { KeepsTraps self.old self.new }
    {
        for port in 0..k {
            let source = remembered[usize::from(port)];
            self.learn_remembered(port, source, out)?;
            remembered[usize::from(port)] = None;
        }
        Ok(())
    }

    /// Sets a trap for an address, unless one with a larger number stands there: from now on the address
    /// is not in use. The answer is whether it was. An address that was never granted here, or is free, gets
    /// no trap.
    pub fn trap(&mut self, old: Pmac, to: Trap) -> Result<bool, Memory>
        ensures answer { result ≡ Ok (is_address_in_use self.old old) }
        ensures step { (v : SwitchView) → address_table_in self.new v ≡ traps (address_table_in self.old v) old to (held_in self.old old) }
        ensures newest { held_in self.old old ≢ None → trap_in self.new old ≡ Some (newer_trap to (trap_in self.old old)) }
        ensures unused { is_address_in_use self.new old ≡ false }
        ensures others { (pmac : Pmac) → pmac ≢ old → granted_in self.new pmac ≡ granted_in self.old pmac }
        ensures caught_up { IsCaughtUp self.old → IsCaughtUp self.new }
        ensures kept { KeepsGrants self.old self.new }
    {
        match self.held(old) {
            Some(grant) if takes_over(to, grant.held.trap()) => {
                self.stand(old, Standing::Trapped(to));
                Ok(grant.held.is_in_use())
            }
            _ => Ok(false),
        }
    }

    /// A frame for an address meets its trap, and goes on along the traps here that follow, each with a
    /// larger number than the one before. The answer is the last of them.
    pub fn redirect(&self, old: Pmac, trap: Trap, out: &mut Outbox) -> Result<Trap, Memory>
        ensures taken { OnOk result ((v : SwitchView) → IsTaken (does (address_table_in self.now v) (Act.Redirect old trap.new ∷ redirects (addresses (address_table_in self.now v)) (address_table_in self.now v) trap)) (address_table_in self.now v) out.old out.new) }
        ensures last { IfOk result (λ last. (v : SwitchView) → last ≡ last_trap (addresses (address_table_in self.now v)) (address_table_in self.now v) trap) }
    {
        out.push(Act::Redirect { old, new: trap.new })?;
        let mut last = trap;
        let mut left = self.addresses();
        while left > 0 {
            match self.next_trap(last) {
                None => return Ok(last),
                Some(next) => {
                    out.push(Act::Redirect {
                        old: last.new,
                        new: next.new,
                    })?;
                    last = next;
                    left -= 1;
                }
            }
        }
        Ok(last)
    }

    /// The last of the traps here that follow a trap, each with a larger number than the one before: the
    /// trap itself, where none follows.
    pub fn last_trap(&self, trap: Trap) -> Trap
        ensures { (v : SwitchView) → result ≡ last_trap (addresses (address_table_in self.now v)) (address_table_in self.now v) trap }
    {
        let mut last = trap;
        let mut left = self.addresses();
        while left > 0 {
            match self.next_trap(last) {
                None => return last,
                Some(next) => {
                    last = next;
                    left -= 1;
                }
            }
        }
        last
    }
}

impl AddressTable {
    pub(crate) fn address(&self, port: u8, vmid: u16) -> Pmac
        ensures { result ≡ address_in self.now port vmid }
    {
        Pmac {
            pod: self.pod,
            position: self.position,
            port,
            vmid,
        }
    }

    // The address that a port gives next; none where every vmid was given, and no address is free.
    fn next_address(&self, port: u8) -> Option<Pmac>
        requires { port < length self.now.grants }
        ensures next { result ≡ next_address self.now port }
        ensures nobodys { IfSome result (λ pmac. IsFreeOrNew (freed_of self.now port) (granted_in self.now pmac)) }
    {
        match first_free(&self.orders, port) {
            Some(pmac) => Some(pmac),
            None => self.next_new(port),
        }
    }

    // The first address of a port that was never granted.
    fn next_new(&self, port: u8) -> Option<Pmac>
        requires { port < length self.now.grants }
        ensures { result ≡ numbered self.now port (next_vmid [] (grants_of self.now port)) }
    {
        let given = self.given(port);
        if given < 65535 {
            Some(self.address(port, given as u16 + 1))
        } else {
            None
        }
    }

    // Grants the next address of a port to a host that has none in use there. It is used by that.
    fn grant_next(&mut self, pmac: Pmac, amac: Mac, ip: Option<Ip4>) -> Result<(), Memory>
        requires port { pmac.port < length self.old.grants }
        requires unused { address_in_use self.old pmac.port amac ≡ None }
        requires next { next_address self.old pmac.port ≡ Some pmac }
        ensures step { OnOk result ((v : SwitchView) → address_table_in self.new v ≡ (grants_new (address_table_in self.old v) pmac.port amac ip pmac).view) }
        ensures err { OnErr result (self.new ≡ self.old) }
        ensures caught_up { IsCaughtUp self.old → IsCaughtUp self.new }
    {
        let now = self.tick;
        match tenancy_at(self.ports.as_slice(), pmac) {
            Some(tenancy) => {
                let new = Tenancy {
                    amac,
                    ip,
                    standing: Standing::Fresh,
                    since: now,
                    ..tenancy
                };
                change(&mut self.ports, &mut self.orders, pmac, tenancy, new);
                Ok(())
            }
            None => {
                self.ports[usize::from(pmac.port)].push(&mut self.orders, pmac, amac, ip, now)
            }
        }
    }

    // The same, and the manager is told.
    fn grant_and_tell(
        &mut self,
        pmac: Pmac,
        amac: Mac,
        ip: Option<Ip4>,
        out: &mut Outbox,
    ) -> Result<(), Memory>
        requires port { pmac.port < length self.old.grants }
        requires unused { address_in_use self.old pmac.port amac ≡ None }
        requires next { next_address self.old pmac.port ≡ Some pmac }
        ensures taken { OnOk result (IsTakenByPart address_table_in (λ v. grants_new v pmac.port amac ip pmac) self.old self.new out.old out.new) }
        ensures err { OnErr result (self.new ≡ self.old) }
        ensures caught_up { IsCaughtUp self.old → IsCaughtUp self.new }
    {
        out.push(Act::Grant { pmac, amac })?;
        out.push(Act::Tell(ToManager::Learned { pmac, amac, ip }))?;
        self.grant_next(pmac, amac, ip)
    }

    // A frame uses an address in use, and gives it an IPv4 address or none: where it is new, it is kept, and
    // the manager is told.
    fn learn_ip(&mut self, pmac: Pmac, ip: Option<Ip4>, out: &mut Outbox) -> Result<(), Memory>
        requires { is_address_in_use self.old pmac ≡ true }
        ensures taken { OnOk result (IsTakenByPart address_table_in (λ v. learns_ip v pmac (granted v pmac) ip) self.old self.new out.old out.new) }
        ensures used { (port : ℕ) (amac : Mac) → address_in_use self.new port amac ≡ address_in_use self.old port amac }
        ensures err { OnErr result (self.new ≡ self.old) }
        ensures caught_up { IsCaughtUp self.old → IsCaughtUp self.new }
        ensures kept { KeepsGrants self.old self.new }
        ensures traps { KeepsTraps self.old self.new }
    {
        match ip {
            Some(ip) => self.learn_given_ip(pmac, ip, out),
            None => {
                self.used(pmac);
                Ok(())
            }
        }
    }

    fn learn_given_ip(&mut self, pmac: Pmac, ip: Ip4, out: &mut Outbox) -> Result<(), Memory>
        requires { is_address_in_use self.old pmac ≡ true }
        ensures taken { OnOk result (IsTakenByPart address_table_in (λ v. learns_ip v pmac (granted v pmac) (Some ip)) self.old self.new out.old out.new) }
        ensures used { (port : ℕ) (amac : Mac) → address_in_use self.new port amac ≡ address_in_use self.old port amac }
        ensures err { OnErr result (self.new ≡ self.old) }
        ensures caught_up { IsCaughtUp self.old → IsCaughtUp self.new }
        ensures kept { KeepsGrants self.old self.new }
        ensures traps { KeepsTraps self.old self.new }
    {
        match self.granted(pmac) {
            Some(grant) if !is_same_ip(grant.ip, ip) => self.take_ip(pmac, grant, ip, out),
            _ => {
                self.used(pmac);
                Ok(())
            }
        }
    }

    // A frame uses an address in use, and gives it an IPv4 address that is new.
    fn take_ip(&mut self, pmac: Pmac, grant: Grant, ip: Ip4, out: &mut Outbox) -> Result<(), Memory>
        requires granted { granted_in self.old pmac ≡ Some grant }
        requires used { is_in_use grant.held ≡ true }
        ensures taken { OnOk result (IsTakenByPart address_table_in (λ v. takes_ip v pmac grant ip) self.old self.new out.old out.new) }
        ensures used { (port : ℕ) (amac : Mac) → address_in_use self.new port amac ≡ address_in_use self.old port amac }
        ensures err { OnErr result (self.new ≡ self.old) }
        ensures caught_up { IsCaughtUp self.old → IsCaughtUp self.new }
        ensures kept { KeepsGrants self.old self.new }
        ensures traps { KeepsTraps self.old self.new }
    {
        out.push(Act::Tell(ToManager::Learned {
            pmac,
            amac: grant.amac,
            ip: Some(ip),
        }))?;
        self.set_ip(pmac, ip);
        self.used(pmac);
        Ok(())
    }

    // An IPv4 address is kept for an address that was granted here.
    fn set_ip(&mut self, pmac: Pmac, ip: Ip4)
        requires { IsSome (granted_in self.old pmac) }
        ensures step { (v : SwitchView) → address_table_in self.new v ≡ with_ip (address_table_in self.old v) pmac ip (granted_in self.old pmac) }
        ensures caught_up { IsCaughtUp self.old → IsCaughtUp self.new }
    {
        if let Some(tenancy) = tenancy_at(self.ports.as_slice(), pmac) {
            let new = Tenancy {
                ip: Some(ip),
                ..tenancy
            };
            self.ports[usize::from(pmac.port)].replace(pmac.vmid, new);
        }
    }

    /// What an address that was granted here is used for changes now.
    pub(crate) fn stand(&mut self, pmac: Pmac, standing: Standing)
        requires { CanStandSo standing (granted_in self.old pmac) }
        ensures asked { self.new.asked ≡ without pmac self.old.asked }
        ensures step { (v : SwitchView) → address_table_in self.new v ≡ stands_so standing (address_table_in self.old v) pmac (granted_in self.old pmac) }
        ensures others { (other : Pmac) → other ≢ pmac → granted_in self.new other ≡ granted_in self.old other }
        ensures caught_up { IsCaughtUp self.old → IsCaughtUp self.new }
    {
        if let Some(tenancy) = tenancy_at(self.ports.as_slice(), pmac) {
            let new = Tenancy {
                standing,
                since: self.tick,
                ..tenancy
            };
            change(&mut self.ports, &mut self.orders, pmac, tenancy, new);
        }
    }

    // How many addresses were granted at a port.
    pub(crate) fn given(&self, port: u8) -> usize
        requires { port < length self.now.grants }
        ensures many { result ≡ length (grants_of self.now port) }
        ensures within { result ≤ 65535 }
    {
        self.ports[usize::from(port)].len()
    }

    // How many addresses were granted.
    fn addresses(&self) -> usize
        ensures { result ≡ sum_by length self.now.grants }
    {
        let mut count = 0;
        for port in &self.ports {
            count += port.len();
        }
        count
    }

    // The trap that follows a trap, where one stands for its new address and has a larger number.
    fn next_trap(&self, trap: Trap) -> Option<Trap>
        ensures { result ≡ if_newer trap (trap_in self.now trap.new) }
    {
        match self.follow(trap.new) {
            Some(next) if trap.number < next.number => Some(next),
            _ => None,
        }
    }
}

fn is_same_ip(known: Option<Ip4>, ip: Ip4) -> bool
    ensures { result ≡ is_ip known ip }
{
    known == Some(ip)
}

// Whether a trap takes the place of the one that stands: one with a larger number stays.
fn takes_over(trap: Trap, standing: Option<Trap>) -> bool
    ensures { result ≡ takes_over trap standing }
{
    match standing {
        Some(standing) => standing.number <= trap.number,
        None => true,
    }
}
