ghost use Rattle.std.specs.Prelude.{◌≡◌, ◌≢◌, ℕ, ◌≤◌, List, ◌∷◌, ◌++◌, Some, IsTrue, Any};
ghost use Rattle.std.specs.Bool.{IsFalse};
ghost use Rattle.pl_frame.specs.Ethernet.{destination_of, source_of};
ghost use Rattle.pl_layouts.specs.Frames.{mac_number};
ghost use Rattle.pl_layouts.specs.Memberships.{flood, group_of};
ghost use Rattle.pl_wiring.specs.declared.host.HostNo.{HostNo};
ghost use Rattle.pl_wiring.specs.Plan.{IsPlan, Plan};
ghost use Rattle.pl_journal.specs.declared.entry.Entry.{Entry};
ghost use Rattle.pl_journal.specs.declared.entry.Entry.TheVariants.{Arrived};
ghost use Rattle.pl_journal.specs.Places.{edge_port, edge_port_of};
ghost use Rattle.pl_journal.specs.Flights.{beginning};
ghost use Rattle.pl_journal.specs.Causes.{goes_to_group};
ghost use Rattle.pl_journal.specs.Lossy.{RunTo, copies_since_move, has_joined, is_same_place};

/// A frame to the MAC address of a host of the wiring goes to no group.
pub fn a_frame_to_a_host_goes_to_no_group()
    ensures { (plan : Plan) (past : List Entry) (id : ℕ) → IsPlan plan →
        Any (λ host. destination_of (beginning past id) ≡ host.mac) plan.hosts →
        IsFalse (goes_to_group past id) }
{}

/// In a run no frame of a group arrives at a host that stands at the port of the frame's source: the
/// port where the address was granted that it has as its source.
pub fn a_group_frame_never_arrives_at_the_port_of_its_source()
    ensures { (plan : Plan) (newer past : List Entry) (id : ℕ) (host : HostNo) (frame : List ℕ) →
        RunTo plan (newer ++ Arrived id host frame ∷ past) → IsTrue (goes_to_group past id) →
        IsFalse (is_same_place (edge_port past (mac_number (source_of frame))) (edge_port_of plan past host.0)) }
{}

/// In a run a frame of a routed group arrives only at hosts that have joined the group.
pub fn a_frame_of_a_routed_group_arrives_at_members_alone()
    ensures { (plan : Plan) (newer past : List Entry) (id group : ℕ) (host : HostNo)
        (frame : List ℕ) →
        RunTo plan (newer ++ Arrived id host frame ∷ past) → IsTrue (goes_to_group past id) →
        group_of (destination_of frame) ≡ Some group → group ≢ flood →
        IsTrue (has_joined past host.0 group) }
{}

/// In a run a host receives a frame of a group at most once as long as it does not move: the frame
/// itself, or one of its copies.
pub fn a_host_that_does_not_move_receives_a_group_frame_at_most_once()
    ensures { (plan : Plan) (past : List Entry) (r host : ℕ) → RunTo plan past →
        copies_since_move past r host ≤ 1 }
{}
