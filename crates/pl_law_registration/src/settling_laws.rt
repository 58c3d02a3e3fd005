ghost use Rattle.std.specs.Prelude.{◌<◌, ℕ, List};
ghost use Rattle.pl_wiring.specs.Plan.{Plan};
ghost use Rattle.pl_world.specs.declared.limits.Limits.{Limits};
ghost use Rattle.pl_world.specs.Booting.{CanBegin, booted};
ghost use Rattle.pl_world.specs.Runs.{InEveryRun, Moment, WorldRun};
ghost use Rattle.pl_world.specs.Worlds.{WorldView};
ghost use Rattle.pl_fabric.specs.declared.settling.Settling.{Settling};
ghost use Rattle.pl_fabric.specs.Settlings.{IsAtRest, Settles};
ghost use Rattle.pl_law_registration.specs.BeingRegistered.{NothingWaits};
ghost use Rattle.pl_law_registration.specs.Registering.{AreRegistered};

use pl_host_rule::LawfulHost;
use pl_manager_rule::LawfulManager;
use pl_switch_rule::LooseSwitch;

/// In a fabric at rest every queue is empty.
pub fn a_fabric_at_rest_has_empty_queues()
    ensures { (w : WorldView) → IsAtRest w → NothingWaits w }
{}

/// So at each moment of a run of lawful logic at which the fabric is at rest, each host is registered where it
/// stands whose edge switch is placed, which is heard there, and at whose port vmid 65,535 was not given.
pub fn a_fabric_at_rest_has_its_hosts_registered<S: LooseSwitch, M: LawfulManager, H: LawfulHost>()
    ensures { InEveryRun S.rule M.rule H.rule (λ new. IsAtRest new → AreRegistered new) }
{}

/// A settling that ends before as many rounds as were asked leaves a fabric whose hosts are registered so.
pub fn a_settling_leaves_hosts_registered<S: LooseSwitch, M: LawfulManager, H: LawfulHost>()
    ensures { (plan : Plan) (limits : Limits) (moments : List Moment) (old : WorldView) (asked : ℕ) (answer : Settling) (new : WorldView) → CanBegin plan →
        WorldRun S.rule M.rule H.rule (booted plan limits) moments old → (settling : Settles S.rule M.rule H.rule asked old answer new) →
        settling.used < asked → AreRegistered new }
{}
