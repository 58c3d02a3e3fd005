ghost use Rattle.std.specs.Prelude.{◌≡◌, MatchOption, OnErr, OnOk};
ghost use Rattle.pl_node.specs.SwitchViews.{SwitchView};
ghost use Rattle.pl_steps.specs.Taken.{IsTakenByPart};
ghost use Rattle.pl_switch_rule.specs.Aging.{ticks_to_probe, ticks_to_rest, with_older};
ghost use Rattle.pl_switch_rule.specs.Granting.{granted};
ghost use Rattle.pl_switch_rule.specs.Messages.{frees};
ghost use Rattle.pl_migrate.specs.AddressTables.{address_table_in};
ghost use Rattle.pl_migrate.specs.Keeping.{FallDueInOrder, IsAged, IsAtPlaceOf, IsCaughtUp, IsNextDue, IsOlder, IsToBeAsked, IsYoung, KeepsGrants, NothingIsDue};
ghost use Rattle.pl_migrate.specs.Standings.{is_resting, number_behind};

use crate::AddressTable;
use crate::orders::{change, first_due, next_to_rest};
use crate::tenancy::{FRESH, Standing, Tenancy};
use pl_node::{Act, AddressUse, Memory, Outbox};
use pl_pmac::Pmac;
use std::alloc::AllocError;

// After so many ticks without a frame a host is asked, and after so many its address rests; a trap stands as
// long as that.
const TICKS_TO_PROBE: u64 = 270;

const TICKS_TO_REST: u64 = 300;

impl AddressTable {
    /// A tick passes: what is in use is idle for one tick more, and each trap is older by one. Where the
    /// table cannot count so far, this is as want of memory.
    pub fn age(&mut self) -> Result<(), Memory>
        ensures older { OnOk result ((v : SwitchView) → address_table_in self.new v ≡ with_older (address_table_in self.old v)) }
        ensures same { OnOk result (IsOlder self.old self.new) }
        ensures err { OnErr result (self.new ≡ self.old) }
        ensures kept { KeepsGrants self.old self.new }
    {
        if self.tick == u64::MAX {
            return Err(AllocError);
        }
        self.tick += 1;
        Ok(())
    }

    /// The next address whose host is to be asked, since it used it last 270 ticks ago; none where all of
    /// them were given. Each is given once, until its host uses it again.
    pub fn next_probe(&mut self) -> Option<Pmac>
        ensures { MatchOption result (IsYoung self.old ticks_to_probe self.old.fresh × (self.new ≡ self.old)) (IsToBeAsked self.old self.new) }
    {
        let (pmac, tenancy) = first_due(
            self.ports.as_slice(),
            &self.orders,
            FRESH,
            self.tick,
            TICKS_TO_PROBE,
        )?;
        let new = Tenancy {
            standing: Standing::Asked,
            ..tenancy
        };
        change(&mut self.ports, &mut self.orders, pmac, tenancy, new);
        Some(pmac)
    }

    /// The next address that comes to rest, with the number of the trap behind which it aged, 0 where it was
    /// in use: those in use first, in the order of last use, and then those with a trap, in the order of
    /// setting. None where none is due. Takes no memory.
    pub fn next_aged(&mut self) -> Option<(Pmac, u64)>
        ensures aged { MatchOption result (NothingIsDue self.old × (self.new ≡ self.old)) (λ aged. IsAged self.old self.new aged.0 aged.1) }
        ensures kept { KeepsGrants self.old self.new }
    {
        let (pmac, number) = self.next_due()?;
        self.stand(pmac, Standing::Resting(number));
        Some((pmac, number))
    }

    // The next address whose time has come, with the number of the trap behind which it aged.
    fn next_due(&self) -> Option<(Pmac, u64)>
        ensures { MatchOption result (NothingIsDue self.now) (λ due. IsNextDue self.now due.0 due.1) }
    {
        let (pmac, tenancy) = next_to_rest(
            self.ports.as_slice(),
            &self.orders,
            self.tick,
            TICKS_TO_REST,
        )?;
        Some((pmac, number_behind(tenancy.standing)))
    }

    /// The manager releases an address: where it rests, it is free from now on, and goes behind the other
    /// free ones of its port. Any other stays as it is.
    pub fn release(&mut self, pmac: Pmac, out: &mut Outbox) -> Result<(), Memory>
        ensures taken { OnOk result (IsTakenByPart address_table_in (λ v. frees v pmac (granted v pmac)) self.old self.new out.old out.new) }
        ensures place { IsAtPlaceOf self.old self.new }
        ensures err { OnErr result (self.new ≡ self.old) }
        ensures caught_up { IsCaughtUp self.old → IsCaughtUp self.new }
    {
        match self.granted(pmac) {
            Some(grant) if is_resting(grant.held) => {
                out.push(Act::Free(pmac))?;
                self.stand(pmac, Standing::Free);
                Ok(())
            }
            _ => Ok(()),
        }
    }

    /// What falls due first stands first. It changes nothing.
    pub fn falls_due_in_order(&self)
        ensures { FallDueInOrder self.now }
    {
        let _tick = self.tick;
    }
}

// The number of the trap behind which an address ages.
fn number_behind(standing: Standing) -> u64
    ensures { result ≡ number_behind standing }
{
    match standing {
        Standing::Trapped(trap) => trap.number,
        _ => 0,
    }
}

fn is_resting(held: AddressUse) -> bool
    ensures { result ≡ is_resting held }
{
    matches!(held, AddressUse::Resting(_))
}
