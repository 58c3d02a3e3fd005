ghost use Rattle.std.specs.Prelude.{Option};
ghost use Rattle.pl_frame.specs.declared.address.Ip4.{Ip4};
ghost use Rattle.pl_frame.specs.declared.address.Mac.{Mac};
ghost use Rattle.pl_manager_rule.specs.WholeRule.{whole_rule};
ghost use Rattle.pl_switch_rule.specs.SwitchRule.{Loose};
ghost use Rattle.pl_wiring.specs.Plan.{IsPlan};
ghost use Rattle.pl_law_control_plane.specs.ControlPlanes.{ControlPlane};
ghost use Rattle.pl_law_control_plane.specs.PlaneSteps.{WholeStep};
ghost use Rattle.pl_law_control_plane.specs.Restarts.{Restarts};
ghost use Rattle.pl_law_due.specs.Gathering.{GathersWell};
ghost use Rattle.pl_law_epochs.specs.Addressed.{AreApart, IsFair};
ghost use Rattle.pl_law_epochs.specs.InOrder.{AddressesAreInOrder};

/// Each step of the control plane in which no word is lost keeps its addresses in order, in each epoch, where reports are gathered
/// in order, placed edge switches stand apart before and after it, hosts send their own IPv4 addresses, and no switch takes another
/// one for a host.
pub fn each_step_of_the_control_plane_keeps_addresses_in_order()
    ensures { (own : Mac → Option Ip4) (old new : ControlPlane) → IsPlan old.plan → GathersWell old → AreApart old.view → AreApart new.view →
        (step : WholeStep Loose whole_rule old new) → IsFair own Loose whole_rule old new step.0 → AddressesAreInOrder own old → AddressesAreInOrder own new }
{}

/// And so does a manager that begins anew.
pub fn a_restart_keeps_all_addresses_in_order()
    ensures { (own : Mac → Option Ip4) (old new : ControlPlane) → IsPlan old.plan → Restarts old new → AddressesAreInOrder own old →
        AddressesAreInOrder own new }
{}
