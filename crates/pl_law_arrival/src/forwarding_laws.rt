ghost use Rattle.std.specs.Prelude.{◌≡◌, ℕ};
ghost use Rattle.pl_pmac.specs.declared.pmac.Pmac.{Pmac};
ghost use Rattle.pl_switch_rule.specs.declared.came.Came.TheVariants.{FromAbove, FromBelow, FromHost};
ghost use Rattle.pl_world.specs.Worlds.{WorldView};
ghost use Rattle.pl_fabric.specs.Settled.{IsSettled};
ghost use Rattle.pl_law_control_plane.specs.ControlPlanes.{control_plane};
ghost use Rattle.pl_law_arrival.specs.Orderly.{IsOrderlyWorld};
ghost use Rattle.pl_law_arrival.specs.Reach.{Reaches};
ghost use Rattle.pl_law_addresses.specs.Registered.{IsRegisteredBy};
ghost use Rattle.pl_law_arrival.specs.Ways.{HasPortOn, IsOfOtherPod, IsLast, IsTop, LeadsDown, fabric_of};

/// In a settled fabric, where the one host reaches the other one at another edge switch: at its own edge switch a
/// frame for that host has a port by which it may leave, and each such port leads over a live link to an
/// aggregation switch from which a way leads down to the other edge switch.
pub fn a_frame_goes_up_from_its_edge_switch()
    ensures { (w : WorldView) (h g : ℕ) (x : Pmac) → IsOrderlyWorld w → IsSettled w → (reach : Reaches w h g x) →
        (reach.from.1.attachment.edge.0 ≡ reach.to.attachment.edge.0 → ⊥) →
        HasPortOn (fabric_of w) ((control_plane w).view reach.from.1.attachment.edge.0) reach.from.1.attachment.edge.0 x FromHost
        (LeadsDown (fabric_of w) x.pod reach.to.attachment.edge.0) }
{}

/// So it is at an aggregation switch: of another pod each port leads up to a core switch from which a way leads
/// down; of the pod itself each leads to the other edge switch, whether the frame came from below or from above.
pub fn a_frame_goes_on_from_an_aggregation_switch()
    ensures up { (w : WorldView) (g : ℕ) (x : Pmac) → IsOrderlyWorld w → IsSettled w → (to : IsRegisteredBy w g x) →
        (s : ℕ) → IsOfOtherPod (fabric_of w) x.pod to.attachment.edge.0 s →
        HasPortOn (fabric_of w) ((control_plane w).view s) s x FromBelow (IsTop (fabric_of w) x.pod to.attachment.edge.0) }
    ensures within { (w : WorldView) (g : ℕ) (x : Pmac) → IsOrderlyWorld w → IsSettled w → (to : IsRegisteredBy w g x) →
        (s : ℕ) → IsLast (fabric_of w) x.pod to.attachment.edge.0 s →
        HasPortOn (fabric_of w) ((control_plane w).view s) s x FromBelow (λ t. t ≡ to.attachment.edge.0) }
    ensures down { (w : WorldView) (g : ℕ) (x : Pmac) → IsOrderlyWorld w → IsSettled w → (to : IsRegisteredBy w g x) →
        (s : ℕ) → IsLast (fabric_of w) x.pod to.attachment.edge.0 s →
        HasPortOn (fabric_of w) ((control_plane w).view s) s x FromAbove (λ t. t ≡ to.attachment.edge.0) }
{}

/// And at such a core switch each port leads down to an aggregation switch of the pod that is linked to the other
/// edge switch.
pub fn a_frame_comes_down_from_a_core_switch()
    ensures { (w : WorldView) (g : ℕ) (x : Pmac) → IsOrderlyWorld w → IsSettled w → (to : IsRegisteredBy w g x) →
        (s : ℕ) → IsTop (fabric_of w) x.pod to.attachment.edge.0 s →
        HasPortOn (fabric_of w) ((control_plane w).view s) s x FromBelow (IsLast (fabric_of w) x.pod to.attachment.edge.0) }
{}
