ghost use Rattle.std.specs.Prelude.{◌≡◌, ◌⊎◌, ℕ, false, true, None, Option, Some, slice_get};
ghost use Rattle.std.specs.List.{list_any};
ghost use Rattle.std.specs.Option.{option_and_then};
ghost use Rattle.pl_frame.specs.declared.address.Ip4.{Ip4};
ghost use Rattle.pl_frame.specs.declared.address.Mac.{Mac};
ghost use Rattle.pl_frame.specs.declared.address.SwitchId.{SwitchId};
ghost use Rattle.pl_pmac.specs.declared.pmac.Pmac.{Pmac};
ghost use Rattle.pl_wiring.specs.Plan.{IsPlan, Plan};
ghost use Rattle.pl_node.specs.AddressUses.{is_in_use, standing_trap};
ghost use Rattle.pl_node.specs.declared.switch_records.Grant.{Grant};
ghost use Rattle.pl_node.specs.declared.trap.Trap.{Trap};
ghost use Rattle.pl_node.specs.ManagerViews.{Registration, Reported, ip_of, newest, registration};
ghost use Rattle.pl_manager_rule.specs.Reports.{known_at};
ghost use Rattle.pl_switch_rule.specs.Granting.{granted};
ghost use Rattle.pl_switch_rule.specs.SwitchRule.{Loose};
ghost use Rattle.pl_world.specs.declared.limits.Limits.{Limits};
ghost use Rattle.pl_world.specs.Booting.{booted};
ghost use Rattle.pl_law_control_plane.specs.ControlPlanes.{ControlPlane, control_plane};
ghost use Rattle.pl_law_due.specs.Due.{due_plane, is_silent};
ghost use Rattle.pl_law_control_plane.specs.Restarts.{Restarts};
ghost use Rattle.pl_law_due.specs.DueSteps.{DueStep};
ghost use Rattle.pl_law_due.specs.Gathering.{AreUnheard};
ghost use Rattle.pl_law_addresses.specs.EdgeAddresses.{recalls, tells, tells_ip};
ghost use Rattle.pl_law_addresses.specs.OwnAddresses.{IsOwnIp};
ghost use Rattle.pl_law_epochs.specs.Addressed.{AreAddressed, AreApart, IsFairDue, IsGrantedBySome, says_trap};
ghost use Rattle.pl_law_epochs.specs.Edges.{HasOwnIp, registry_of};

/// At the beginning addresses are in order: none is granted, and nothing is known of any or due.
pub fn addresses_begin_in_order()
    ensures { (own : Mac → Option Ip4) (plan : Plan) (limits : Limits) → AreAddressed own (due_plane (control_plane (booted plan limits))) }
{}

/// Each step to what is due keeps them in order, in each epoch of the manager, where placed edge switches stand apart before
/// and after it, hosts send their own IPv4 addresses, and no switch takes another one for a host.
pub fn each_step_keeps_addresses_in_order()
    ensures { (own : Mac → Option Ip4) (old new : ControlPlane) → IsPlan old.plan → AreUnheard old → AreApart old.view → AreApart new.view →
        (step : DueStep Loose old new) → IsFairDue own Loose old new step → AreAddressed own old → AreAddressed own new }
{}

/// And so does a manager that begins anew.
pub fn a_restart_keeps_addresses_in_order()
    ensures { (own : Mac → Option Ip4) (old new : ControlPlane) → IsPlan old.plan → Restarts old new → AreAddressed own old → AreAddressed own new }
{}

/// Where they are in order, a registered address is granted by the switch that told it, to the host for which it is
/// registered, and is not free.
pub fn a_registered_address_is_held()
    ensures { (own : Mac → Option Ip4) (f : ControlPlane) → AreAddressed own f → (x : Pmac) (reg : Registration) → registration f.manager.learnt x ≡ Some reg →
        IsGrantedBySome f x reg.amac reg.switch }
{}

/// An address in use at a switch that has heard of the epoch is told to the manager by a word that is due, where the manager does not know
/// it; else it is the newest of its host, or an order waits that tells its switch of a newer one.
pub fn an_address_in_use_is_told_or_known()
    ensures told { (own : Mac → Option Ip4) (f : ControlPlane) → AreAddressed own f → (s : ℕ) (id : SwitchId) → slice_get f.plan.ids s ≡ Some id →
        is_silent f.orders s ≡ false → (x : Pmac) (g : Grant) → granted (f.view s) x ≡ Some g → is_in_use g.held ≡ true →
        registration f.manager.learnt x ≡ None → list_any (tells x) (f.reports s) ≡ true }
    ensures known { (own : Mac → Option Ip4) (f : ControlPlane) → AreAddressed own f → (s : ℕ) (id : SwitchId) → slice_get f.plan.ids s ≡ Some id →
        is_silent f.orders s ≡ false → (x : Pmac) (g : Grant) → granted (f.view s) x ≡ Some g → is_in_use g.held ≡ true →
        (reg : Registration) → registration f.manager.learnt x ≡ Some reg →
        (newest f.manager.learnt g.amac ≡ Some reg) ⊎ (list_any (recalls x) (f.orders s) ≡ true) }
{}

/// An IPv4 address that an edge switch keeps with an address, or that the manager knows of it, is that of the host that has it. The one
/// that is kept with an address in use, at a switch that has heard of the epoch, the manager knows, or a word that is due tells it.
pub fn an_ip_address_that_is_known_is_its_hosts_own()
    ensures kept { (own : Mac → Option Ip4) (f : ControlPlane) → AreAddressed own f → (s : ℕ) (id : SwitchId) → slice_get f.plan.ids s ≡ Some id →
        (x : Pmac) (g : Grant) → granted (f.view s) x ≡ Some g → IsOwnIp own g.amac g.ip }
    ensures told { (own : Mac → Option Ip4) (f : ControlPlane) → AreAddressed own f → (x : Pmac) (ip : Ip4) → ip_of f.manager.learnt x ≡ Some ip →
        HasOwnIp own (registry_of f.manager) x ip }
    ensures due { (own : Mac → Option Ip4) (f : ControlPlane) → AreAddressed own f → (s : ℕ) (id : SwitchId) → slice_get f.plan.ids s ≡ Some id →
        is_silent f.orders s ≡ false → (x : Pmac) (g : Grant) (ip : Ip4) → granted (f.view s) x ≡ Some g → is_in_use g.held ≡ true → g.ip ≡ Some ip →
        (ip_of f.manager.learnt x ≡ Some ip) ⊎ (list_any (tells_ip x) (f.reports s) ≡ true) }
{}

/// A trap that stands at such a switch is one that the manager knows, or its switch is going to report it.
pub fn a_standing_trap_is_known_or_reported()
    ensures { (own : Mac → Option Ip4) (f : ControlPlane) → AreAddressed own f → (s : ℕ) (id : SwitchId) → slice_get f.plan.ids s ≡ Some id →
        is_silent f.orders s ≡ false → (x : Pmac) (g : Grant) → granted (f.view s) x ≡ Some g → (trap : Trap) → standing_trap g.held ≡ Some trap →
        (option_and_then (λ (k : Reported). k.recall) (known_at f.manager.learnt x) ≡ Some (record { new = trap.new; number = trap.number }))
        ⊎ (list_any (says_trap x (record { new = trap.new; number = trap.number })) (f.reports s) ≡ true) }
{}
