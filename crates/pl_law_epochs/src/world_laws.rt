ghost use Rattle.std.specs.Prelude.{◌≡◌, ℕ, true, [], None, Some, slice_get};
ghost use Rattle.pl_gathering.specs.Gathering.{is_whole};
ghost use Rattle.pl_manager_rule.specs.WholeRule.{gathered, whole_rule};
ghost use Rattle.pl_node.specs.SwitchViews.{SwitchView};
ghost use Rattle.pl_pmac.specs.declared.pmac.Pmac.{Pmac};
ghost use Rattle.pl_queues.specs.Queues.{items_at};
ghost use Rattle.pl_switch_rule.specs.SwitchRule.{Loose};
ghost use Rattle.pl_wiring.specs.declared.host.Host.{Host};
ghost use Rattle.pl_wiring.specs.Plan.{Plan};
ghost use Rattle.pl_world.specs.declared.attachment.AttachmentPoint.{AttachmentPoint};
ghost use Rattle.pl_world.specs.declared.event.Event.{Event};
ghost use Rattle.pl_world.specs.declared.limits.Limits.{Limits};
ghost use Rattle.pl_world.specs.Booting.{booted, me_of};
ghost use Rattle.pl_world.specs.Flying.{IsCounted};
ghost use Rattle.pl_world.specs.Refusals.{refusal};
ghost use Rattle.pl_world.specs.WorldRule.{WorldStep};
ghost use Rattle.pl_world.specs.Worlds.{WorldView};
ghost use Rattle.pl_law_control_plane.specs.ControlPlanes.{control_plane};
ghost use Rattle.pl_law_control_plane.specs.HostsAtEdges.{HostsAtEdges};
ghost use Rattle.pl_law_due.specs.Gathering.{GathersWell, IsSized};
ghost use Rattle.pl_law_addresses.specs.Addressed.{AreApart, IsGrounded, IsLiveNowhere};
ghost use Rattle.pl_law_addresses.specs.OwnFrames.{HostsAreOwn};
ghost use Rattle.pl_law_addresses.specs.Registered.{IsRegisteredWithIp, IsServed};
ghost use Rattle.pl_law_addresses.specs.Standing.{StandsForNothing};
ghost use Rattle.pl_law_epochs.specs.InOrder.{IsAddressed};

use pl_node::HostLogic;

/// At the beginning the addresses of a world are in order.
pub fn addresses_of_a_world_begin_in_order()
    ensures { (plan : Plan) (limits : Limits) → IsAddressed (booted plan limits) }
{}

/// Each step of a world in which reports are gathered in order keeps them in order, a restart of the manager too, where
/// hosts stand at edges and send frames of their own, placed edge switches stand apart before and after it, and no switch
/// takes another one for a host.
pub fn each_step_of_a_world_keeps_addresses_in_order<H: HostLogic>()
    ensures { (old : WorldView) (event : Event) (new : WorldView) → IsCounted old → HostsAtEdges old → HostsAreOwn old → IsGrounded old →
        AreApart new.switches → refusal old event ≡ None → IsSized (control_plane old) → GathersWell (control_plane old) → IsAddressed old →
        WorldStep Loose whole_rule H.rule old event new → IsAddressed new }
{}

/// Where no report is missing, and nothing waits between an edge switch and the manager, each host that the switch serves
/// is registered: the address that it has in use there is its newest one, and the manager was told its IPv4 address with it.
pub fn a_served_host_is_registered_at_rest()
    ensures { (w : WorldView) → IsCounted w → IsAddressed w → (h : ℕ) (host : Host) (attachment : AttachmentPoint) (v : SwitchView) →
        slice_get w.plan.hosts h ≡ Some host → slice_get w.attachments h ≡ Some attachment → slice_get w.switches attachment.edge.0 ≡ Some v →
        is_whole (gathered w.manager) ≡ true → items_at w.to_manager attachment.edge.0 ≡ [] → items_at w.from_manager attachment.edge.0 ≡ [] →
        IsServed v attachment.port (me_of host) → IsRegisteredWithIp w h }
{}

/// An address that is nobody's at any switch stands for nothing, in each epoch: the manager does not know it, no trap stands from it or to it, and
/// no message to an edge switch speaks of it.
pub fn an_address_that_is_nobodys_stands_for_nothing()
    ensures { (w : WorldView) → IsCounted w → IsAddressed w → (x : Pmac) → IsLiveNowhere w.switches x → StandsForNothing w x }
{}
