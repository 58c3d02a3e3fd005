ghost use Rattle.std.specs.Prelude.{◌≡◌, ℕ, None, Some, reverse, slice_get, true};
ghost use Rattle.pl_wiring.specs.Plan.{Plan};
ghost use Rattle.pl_pmac.specs.declared.pmac.Pmac.{Pmac};
ghost use Rattle.pl_journal.specs.Places.{at_port, granted_at};
ghost use Rattle.pl_node.specs.AddressUses.{is_in_use};
ghost use Rattle.pl_node.specs.declared.switch_records.Grant.{Grant};
ghost use Rattle.pl_node.specs.SwitchViews.{SwitchView};
ghost use Rattle.pl_switch_rule.specs.Granting.{granted};
ghost use Rattle.pl_world.specs.Changes.{host_of};
ghost use Rattle.pl_manager_rule.specs.WholeRule.{whole_rule};
ghost use Rattle.pl_switch_rule.specs.SwitchRule.{Loose};
ghost use Rattle.pl_world.specs.declared.event.Event.{Event};
ghost use Rattle.pl_world.specs.declared.limits.Limits.{Limits};
ghost use Rattle.pl_world.specs.Booting.{booted};
ghost use Rattle.pl_world.specs.Refusals.{refusal};
ghost use Rattle.pl_world.specs.WorldRule.{WorldStep};
ghost use Rattle.pl_world.specs.Worlds.{WorldView};
ghost use Rattle.pl_law_invariant.specs.ControlInvariant.{ControlInvariant};
ghost use Rattle.pl_law_ledger.specs.Leading.{HoldsLedger};
ghost use Rattle.pl_law_ledger.specs.Ledgers.{IsLedger, ledger};

use pl_node::HostLogic;

/// At the beginning no address is granted or registered, and the journal says so.
pub fn the_ledger_begins_empty()
    ensures { (plan : Plan) (limits : Limits) → IsLedger (booted plan limits) }
{}

/// Each step keeps it that the journal says of addresses what the switches granted and the fabric manager registered, a
/// restart of the manager too, and that each trap which is set leads to a larger number: whichever candidates the switches
/// choose, where all is kept that is kept in every run, and as long as no more steps are made than an epoch has numbers.
pub fn each_step_keeps_the_ledger<H: HostLogic>()
    ensures { (old : WorldView) (event : Event) (new : WorldView) → ControlInvariant old → ControlInvariant new →
        refusal old event ≡ None → WorldStep Loose whole_rule H.rule old event new → HoldsLedger old → HoldsLedger new }
{}

/// The address that a host has in use at a port is the last that was granted to it there, as the journal says.
pub fn an_address_in_use_is_the_last_granted()
    ensures { (w : WorldView) → IsLedger w → (s : ℕ) (v : SwitchView) (x : Pmac) (g : Grant) (h : ℕ) → slice_get w.switches s ≡ Some v →
        granted v x ≡ Some g → is_in_use g.held ≡ true → host_of w.plan g.amac ≡ Some h →
        granted_at (ledger (reverse w.journal)) h (at_port s x.port) ≡ Some x }
{}
