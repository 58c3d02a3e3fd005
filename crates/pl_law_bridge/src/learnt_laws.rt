ghost use Rattle.std.specs.Prelude.{◌≡◌, ◌≤◌, ◌∷◌, ℕ, false, List, Some, set, slice_get};
ghost use Rattle.std.specs.List.{AllByRecursion};
ghost use Rattle.pl_frame.specs.Ethernet.{destination_of};
ghost use Rattle.pl_wiring.specs.declared.host.HostNo.{HostNo};
ghost use Rattle.pl_wiring.specs.declared.label.SwitchNo.{SwitchNo};
ghost use Rattle.pl_wiring.specs.declared.link.Peer.TheVariants.{Switch};
ghost use Rattle.pl_wiring.specs.Index.{port_index};
ghost use Rattle.pl_wiring.specs.Peers.{peer_of};
ghost use Rattle.pl_wiring.specs.Plan.{Plan};
ghost use Rattle.pl_journal.specs.Flights.{ends};
ghost use Rattle.pl_queues.specs.Queues.{items_at};
ghost use Rattle.pl_world.specs.declared.attachment.AttachmentPoint.{AttachmentPoint};
ghost use Rattle.pl_world.specs.declared.event.Event.TheVariants.{Deliver};
ghost use Rattle.pl_world.specs.declared.event.QueueName.TheVariants.{FromHost, Port};
ghost use Rattle.pl_world.specs.declared.item.Item.{Item};
ghost use Rattle.pl_world.specs.declared.item.Item.TheVariants.{Data};
ghost use Rattle.pl_world.specs.declared.limits.Limits.{Limits};
ghost use Rattle.pl_world.specs.Booting.{CanBegin};
ghost use Rattle.pl_world.specs.Changes.{is_failed_at, out_of};
ghost use Rattle.pl_world.specs.Flying.{IsCounted};
ghost use Rattle.pl_world.specs.Runs.{Moment, WorldRun};
ghost use Rattle.pl_world.specs.WorldRule.{WorldStep};
ghost use Rattle.pl_world.specs.Worlds.{WorldView};
ghost use Rattle.pl_bridge_rule.specs.BridgeRule.{Bridges};
ghost use Rattle.pl_law_bridge.specs.ExactWay.{IsSure, WentBy};
ghost use Rattle.pl_law_bridge.specs.Learnt.{GoesOnAlone, HasAt};
ghost use Rattle.pl_law_bridge.specs.TreeWorld.{RepairsNothing, tree_world};

use pl_node::{HostLogic, ManagerLogic};

/// A frame that comes over a link to a bridge which then has its destination at another port, of a link that
/// is not failed or for hosts, crosses the bridge and goes on by that port alone.
pub fn a_frame_from_a_link_goes_where_it_is_learnt<M: ManagerLogic, H: HostLogic>()
    ensures { (old new : WorldView) (s t : SwitchNo) (port q p id : ℕ) (frame : List ℕ) (items : List Item) → IsCounted old →
        out_of old s.0 port ≡ Data id frame ∷ items → peer_of old.plan s.0 port ≡ Switch t q →
        WorldStep Bridges M.rule H.rule old (Deliver (Port s port)) new → HasAt new (destination_of frame) t p → (p ≡ q → ⊥) →
        is_failed_at old t.0 p ≡ false → GoesOnAlone old old.from_hosts (set old.out (port_index old.plan.k s.0 port) items) new id frame t p }
{}

/// So does the frame of a host that comes to its edge switch.
pub fn a_frame_of_a_host_goes_where_it_is_learnt<M: ManagerLogic, H: HostLogic>()
    ensures { (old new : WorldView) (h : HostNo) (attachment : AttachmentPoint) (p id : ℕ) (frame : List ℕ) (items : List Item) → IsCounted old →
        items_at old.from_hosts h.0 ≡ Data id frame ∷ items → slice_get old.attachments h.0 ≡ Some attachment →
        WorldStep Bridges M.rule H.rule old (Deliver (FromHost h)) new → HasAt new (destination_of frame) attachment.edge p →
        (p ≡ attachment.port → ⊥) → is_failed_at old attachment.edge.0 p ≡ false →
        GoesOnAlone old (set old.from_hosts h.0 items) old.out new id frame attachment.edge p }
{}

/// A frame waits at its host, for another host. As long as each switch of the way over the tree has its
/// destination at the port towards it, the links of the way are live, no host moves and the frame is not
/// lost: once it has ended it has crossed just that way, was not copied, and has arrived. So it stays,
/// whatever befalls then.
pub fn a_frame_goes_the_way_that_is_learnt<M: ManagerLogic, H: HostLogic>()
    ensures { (plan : Plan) (limits : Limits) (before moments more : List Moment) (old new last : WorldView) (id h g : ℕ) (frame : List ℕ) (way : List SwitchNo) →
        CanBegin plan → AllByRecursion RepairsNothing before → WorldRun Bridges M.rule H.rule (tree_world plan limits) before old →
        IsSure M.rule H.rule old moments new id h g frame way → 1 ≤ ends new.journal id → WorldRun Bridges M.rule H.rule new more last →
        WentBy last id g frame way }
{}
