ghost use Rattle.std.specs.Prelude.{◌≡◌, ◌≢◌, ◌⊎◌, ◌↔◌, ℕ, ◌+◌, ◌≤◌, List, ◌∷◌, ◌++◌, reverse, filter_map, Some, None, IsTrue};
ghost use Rattle.std.specs.List.{range_with_len};
ghost use Rattle.std.specs.Bool.{IsFalse};
ghost use Rattle.pl_frame.specs.Ethernet.{destination_of};
ghost use Rattle.pl_wiring.specs.declared.label.SwitchNo.{SwitchNo};
ghost use Rattle.pl_wiring.specs.declared.host.HostNo.{HostNo};
ghost use Rattle.pl_wiring.specs.Plan.{Plan};
ghost use Rattle.pl_journal.specs.declared.entry.Entry.{Entry};
ghost use Rattle.pl_journal.specs.declared.entry.Entry.TheVariants.{Sent, Made, Copied, Crossed};
ghost use Rattle.pl_layouts.specs.Frames.{mac_number};
ghost use Rattle.pl_journal.specs.Places.{EdgePort, is_failed, is_adjacent};
ghost use Rattle.pl_journal.specs.Flights.{are_adjacent, begun, begun_by, ends, first_flight, flight_of, is_begun, is_flying, is_good_leg, leg, no_flight, root, was_live};
ghost use Rattle.pl_journal.specs.Causes.{goes_to_group, has_crossed};
ghost use Rattle.pl_journal.specs.Lossy.{GoodTrailTo, Run, RunTo, copies_at};

/// In a run the frames that begin are numbers 1, 2, 3 and so on, and those alone have begun.
pub fn frames_are_numbered_in_order()
    ensures in_order { (plan : Plan) (journal : List Entry) → Run plan journal →
        filter_map begun_by journal ≡ range_with_len 1 (begun (reverse journal)) }
    ensures begun { (plan : Plan) (past : List Entry) (id : ℕ) → RunTo plan past →
        IsTrue (is_begun past id) ↔ ((1 ≤ id) × (id ≤ begun past)) }
    ensures root { (plan : Plan) (past : List Entry) (id : ℕ) → RunTo plan past →
        IsTrue (is_begun past id) → IsTrue (is_begun past (root past id)) }
{}

/// In a run a frame ends at most once, and one that has begun is in flight until it ends.
pub fn a_frame_ends_at_most_once()
    ensures once { (plan : Plan) (past : List Entry) (id : ℕ) → RunTo plan past → ends past id ≤ 1 }
    ensures not_before_it_begins { (plan : Plan) (past : List Entry) (id : ℕ) → RunTo plan past →
        IsFalse (is_begun past id) → ends past id ≡ 0 }
    ensures either { (plan : Plan) (past : List Entry) (id : ℕ) → RunTo plan past →
        IsTrue (is_begun past id) → IsTrue (is_flying past id) ⊎ (ends past id ≡ 1) }
{}

/// In a run at most one frame of a group arrives at each port: the frame itself, or one of its
/// copies.
pub fn a_group_frame_arrives_at_a_port_at_most_once()
    ensures { (plan : Plan) (past : List Entry) (r : ℕ) (there : EdgePort) → RunTo plan past →
        copies_at plan past r there ≤ 1 }
{}

/// Nothing befalls a frame before it begins. Then it has its own root, its bytes and its
/// destination, and has crossed nothing; a copy has all that the frame has of which it is a copy.
pub fn a_frame_begins_with_an_empty_trail()
    ensures before { (plan : Plan) (past : List Entry) (id : ℕ) → RunTo plan past →
        IsFalse (is_begun past id) → flight_of plan past id ≡ no_flight id }
    ensures not_live { (plan : Plan) (past : List Entry) (id a b : ℕ) → RunTo plan past →
        IsFalse (is_begun past id) → IsFalse (was_live past id a b) }
    ensures sent { (plan : Plan) (past : List Entry) (id : ℕ) (host : HostNo) (frame : List ℕ) →
        RunTo plan past → id ≡ begun past + 1 →
        flight_of plan (Sent id host frame ∷ past) id
        ≡ first_flight id (Some host.0) frame (mac_number (destination_of frame)) }
    ensures made { (plan : Plan) (past : List Entry) (id : ℕ) (switch : SwitchNo) (frame : List ℕ) →
        RunTo plan past → id ≡ begun past + 1 →
        flight_of plan (Made id switch frame ∷ past) id
        ≡ first_flight id None frame (mac_number (destination_of frame)) }
    ensures copied { (plan : Plan) (past : List Entry) (id copy : ℕ) →
        flight_of plan (Copied id copy ∷ past) copy ≡ flight_of plan past id }
    ensures others { (plan : Plan) (past : List Entry) (id copy other : ℕ) → copy ≢ other →
        flight_of plan (Copied id copy ∷ past) other ≡ flight_of plan past other }
{}

/// In a run with good trails the leg of each frame is good at every moment, and its neighbours are
/// linked.
pub fn legs_are_good()
    ensures good { (plan : Plan) (past : List Entry) (id : ℕ) → RunTo plan past →
        GoodTrailTo plan past →
        IsTrue (is_good_leg (goes_to_group past id) plan.k (leg past id)) }
    ensures adjacent { (plan : Plan) (past : List Entry) (id : ℕ) → RunTo plan past →
        GoodTrailTo plan past → IsTrue (are_adjacent plan (leg past id)) }
{}

/// In a run with good trails a frame comes from the last switch of its leg to the next one by a link
/// of the wiring, and that link was live at each moment since the frame crossed the last switch.
pub fn the_links_of_a_leg_were_live()
    ensures adjacent { (plan : Plan) (newer past : List Entry) (id last : ℕ) (next : SwitchNo)
        (earlier : List ℕ) →
        GoodTrailTo plan (newer ++ Crossed id next ∷ past) →
        leg past id ≡ last ∷ earlier → IsTrue (is_adjacent plan last next.0) }
    ensures live { (plan : Plan) (newer since past : List Entry) (id last : ℕ) (next : SwitchNo)
        (earlier : List ℕ) →
        RunTo plan (newer ++ Crossed id next ∷ (since ++ past)) →
        GoodTrailTo plan (newer ++ Crossed id next ∷ (since ++ past)) →
        leg (since ++ past) id ≡ last ∷ earlier →
        IsFalse (has_crossed since id) → IsFalse (is_failed past last next.0) }
{}
