ghost use Rattle.std.specs.Prelude.{◌≡◌, ◌<◌, ℕ, None};
ghost use Rattle.std.specs.List.{AllByRecursion};
ghost use Rattle.pl_manager_rule.specs.WholeRule.{whole_rule};
ghost use Rattle.pl_switch_rule.specs.SwitchRule.{Loose};
ghost use Rattle.pl_world.specs.declared.event.Event.{Event};
ghost use Rattle.pl_world.specs.Refusals.{refusal};
ghost use Rattle.pl_world.specs.Runs.{InEveryRun};
ghost use Rattle.pl_world.specs.WorldRule.{WorldStep};
ghost use Rattle.pl_world.specs.Worlds.{WorldView};
ghost use Rattle.pl_law_control_plane.specs.ControlPlanes.{control_plane};
ghost use Rattle.pl_law_places.specs.Told.{IsTrueOf};
ghost use Rattle.pl_law_invariant.specs.ControlInvariant.{ControlInvariant};
ghost use Rattle.pl_law_ledger.specs.Ledgers.{AreInBounds, IsLedger, WhereNumbersSuffice};
ghost use Rattle.pl_law_ledger.specs.Leading.{AreLed};

use pl_node::HostLogic;

/// In every run the journal says of addresses what the switches granted and the fabric manager registered:
/// to whom and where each address was granted, its number, where hosts stand and have stood. The manager may begin
/// anew as often as it likes: its numbers rise as long as no more steps are made than an epoch has numbers.
pub fn the_journal_says_what_was_granted_in_every_run<H: HostLogic>()
    ensures { InEveryRun Loose whole_rule H.rule (WhereNumbersSuffice IsLedger) }
{}

/// And so a trap that stands leads to a newer address of the same host, by the numbers that the journal says; so does
/// one that is still on its way to its edge switch. Whether the fabric manager knows either address makes no
/// difference to that: once it has begun anew it knows neither.
pub fn each_trap_leads_to_a_newer_address_in_every_run<H: HostLogic>()
    ensures { InEveryRun Loose whole_rule H.rule (WhereNumbersSuffice AreLed) }
{}

/// In every run each number of a pod that is given is below how many pods there are.
pub fn each_number_given_is_below_the_number_of_pods<H: HostLogic>()
    ensures { InEveryRun Loose whole_rule H.rule (λ new. AllByRecursion (λ g. g.pod < new.plan.k) new.manager.pods) }
{}

/// And the pods and positions of placed edge switches are numbers of one byte.
pub fn pods_and_positions_are_of_one_byte_in_every_run<H: HostLogic>()
    ensures { InEveryRun Loose whole_rule H.rule (λ new. AreInBounds new.switches) }
{}

/// What a switch knows of its place it knows after each step.
pub fn what_is_known_of_places_is_known_later<H: HostLogic>()
    ensures { (old : WorldView) (event : Event) (new : WorldView) → ControlInvariant old → refusal old event ≡ None →
        WorldStep Loose whole_rule H.rule old event new →
        (s : ℕ) → IsTrueOf ((control_plane old).view s).place ((control_plane new).view s).place }
{}
