ghost use Rattle.pl_manager_rule.specs.WholeRule.{whole_rule};
ghost use Rattle.pl_switch_rule.specs.SwitchRule.{Loose};
ghost use Rattle.pl_world.specs.Runs.{InEveryRun};
ghost use Rattle.pl_world.specs.Worlds.{WorldView};
ghost use Rattle.pl_law_invariant.specs.ControlInvariant.{ControlInvariant};
ghost use Rattle.pl_law_registration.specs.BeingRegistered.{AreBeingRegistered, NothingWaits};
ghost use Rattle.pl_law_registration.specs.Registering.{AreRegistered};

use pl_host_rule::LawfulHost;
use pl_manager_rule::LawfulManager;
use pl_switch_rule::LooseSwitch;

/// Where every queue is empty, a host is registered whose edge switch is placed, which is heard there, and at whose
/// port vmid 65,535 was not given: its newest address is in use at that port, and the fabric manager was told its
/// IPv4 address with it.
pub fn a_host_is_registered_at_rest()
    ensures { (w : WorldView) → ControlInvariant w → AreBeingRegistered w → NothingWaits w → AreRegistered w }
{}

/// So it is at each moment of every run at which every queue is empty, whichever candidates switches choose.
pub fn a_host_is_registered_at_rest_in_every_run<H: LawfulHost>()
    ensures { InEveryRun Loose whole_rule H.rule (λ new. NothingWaits new → AreRegistered new) }
{}

/// And in every run of lawful logic.
pub fn lawful_logic_registers_hosts_at_rest<S: LooseSwitch, M: LawfulManager, H: LawfulHost>()
    ensures { InEveryRun S.rule M.rule H.rule (λ new. NothingWaits new → AreRegistered new) }
{}
