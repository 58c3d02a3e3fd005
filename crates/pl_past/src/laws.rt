ghost use Rattle.std.specs.Prelude.{◌≡◌, ◌≢◌, ◌&&◌, nat_lt, ℕ, ◌+◌, ◌<◌, Bool, List, ◌∷◌, ◌++◌, [], length, set, Some, None, true, false};
ghost use Rattle.pl_pmac.specs.declared.pmac.Pmac.{Pmac};
ghost use Rattle.pl_wiring.specs.declared.label.SwitchNo.{SwitchNo};
ghost use Rattle.pl_wiring.specs.declared.host.HostNo.{HostNo};
ghost use Rattle.pl_wiring.specs.Plan.{Plan};
ghost use Rattle.pl_journal.specs.declared.cause.Cause.{Cause};
ghost use Rattle.pl_journal.specs.declared.entry.Entry.{Entry};
ghost use Rattle.pl_journal.specs.declared.entry.Entry.TheVariants.{Arrived, Copied, Crossed, Dropped, Granted, Made, Redirected, Sent, Taken};
ghost use Rattle.pl_journal.specs.Places.{is_of_edge, live_holder};
ghost use Rattle.pl_journal.specs.Flights.{address_at, begun, came_in, has_just_crossed, has_moved_since, held_at_crossing, is_flying, leg, sender, was_live};
ghost use Rattle.pl_journal.specs.Lossy.{RunTo, goes_well};
ghost use Rattle.pl_past.specs.Moves.{edge_of, is_none_or, is_none_or_alike, moved_at, address_of_edge, sent_at};
ghost use Rattle.pl_past.specs.Links.{live_since, was_live_by_numbers};
ghost use Rattle.pl_past.specs.Kept.{IsTable, Kept, crossing, ending, entrance, first_kept, granting, kept, redirecting, touched_by};
ghost use Rattle.pl_past.specs.Legs.{goes_well_by};
ghost use Rattle.pl_past.specs.Addressees.{asked_at, held_as_of, tenures};

/// Whether a link was live since a frame's last crossing is told by two numbers, and whether a crossing goes on
/// well by what is kept of the frame.
pub fn two_numbers_tell_whether_a_link_was_live()
    ensures link { (past : List Entry) (id a b : ℕ) → was_live past id a b ≡ was_live_by_numbers past id a b }
    ensures crossing { (plan : Plan) (past : List Entry) (id s : ℕ) →
        goes_well plan past id (leg past id) s ≡ goes_well_by plan (live_since past) (kept plan past id) s }
{}

/// What is kept of a frame, entry by entry.
pub fn what_is_kept_of_a_frame_changes_by_its_own_entries()
    ensures sent { (plan : Plan) (past : List Entry) (id : ℕ) (host : HostNo) (frame : List ℕ) →
        RunTo plan past → id ≡ begun past + 1 →
        kept plan (Sent id host frame ∷ past) id ≡ first_kept id (Some host.0) frame (length past + 1) }
    ensures made { (plan : Plan) (past : List Entry) (id : ℕ) (switch : SwitchNo) (frame : List ℕ) →
        RunTo plan past → id ≡ begun past + 1 →
        kept plan (Made id switch frame ∷ past) id ≡ first_kept id None frame 0 }
    ensures copied { (plan : Plan) (past : List Entry) (id copy : ℕ) →
        RunTo plan past → is_flying past id ≡ true → copy ≡ begun past + 1 →
        kept plan (Copied id copy ∷ past) copy ≡ kept plan past id }
    ensures crossed { (plan : Plan) (past : List Entry) (id : ℕ) (s : SwitchNo) →
        kept plan (Crossed id s ∷ past) id
        ≡ crossing (length past + 1) s.0 (entrance plan past id s.0)
        (address_at past (sender past id) (entrance plan past id s.0)) (kept plan past id) }
    ensures granted { (plan : Plan) (past : List Entry) (x : Pmac) (h : HostNo) (e : SwitchNo) (p id : ℕ) →
        has_just_crossed past id ≡ true →
        kept plan (Granted x h e p ∷ past) id
        ≡ granting (length past + 1) (address_at (Granted x h e p ∷ past) (sender past id) (came_in plan past id)) (kept plan past id) }
    ensures redirected { (plan : Plan) (past : List Entry) (id : ℕ) (old new : Pmac) →
        kept plan (Redirected id old new ∷ past) id ≡ redirecting new (kept plan past id) }
    ensures arrived { (plan : Plan) (past : List Entry) (id : ℕ) (h : HostNo) (f : List ℕ) →
        kept plan (Arrived id h f ∷ past) id ≡ ending (kept plan past id) }
    ensures taken { (plan : Plan) (past : List Entry) (id : ℕ) (s : SwitchNo) →
        kept plan (Taken id s ∷ past) id ≡ ending (kept plan past id) }
    ensures dropped { (plan : Plan) (past : List Entry) (id : ℕ) (cause : Cause) →
        kept plan (Dropped id cause ∷ past) id ≡ ending (kept plan past id) }
    ensures others { (plan : Plan) (past : List Entry) (entry : Entry) (id : ℕ) →
        touched_by past entry id ≡ false → kept plan (entry ∷ past) id ≡ kept plan past id }
{}

/// The table of frames, entry by entry: one place is written, one is added, or none changes.
pub fn one_place_of_the_table_changes()
    ensures one { (plan : Plan) (past : List Entry) (entry : Entry) (frames : List Kept) (n : ℕ) (new : Kept) →
        IsTable plan past frames → begun (entry ∷ past) ≡ begun past → n < begun past →
        kept plan (entry ∷ past) (n + 1) ≡ new → ((id : ℕ) → id ≢ n + 1 → touched_by past entry id ≡ false) →
        IsTable plan (entry ∷ past) (set frames n new) }
    ensures more { (plan : Plan) (past : List Entry) (entry : Entry) (frames : List Kept) (new : Kept) →
        IsTable plan past frames → begun (entry ∷ past) ≡ begun past + 1 →
        kept plan (entry ∷ past) (begun past + 1) ≡ new → ((id : ℕ) → id ≢ begun past + 1 → touched_by past entry id ≡ false) →
        IsTable plan (entry ∷ past) (frames ++ new ∷ []) }
    ensures none { (plan : Plan) (past : List Entry) (entry : Entry) (frames : List Kept) →
        IsTable plan past frames → begun (entry ∷ past) ≡ begun past → ((id : ℕ) → touched_by past entry id ≡ false) →
        IsTable plan (entry ∷ past) frames }
{}

/// Whether a host moved since a frame was sent is told by two numbers, and whether pod and position are those of
/// one edge switch by two tables.
pub fn moves_and_edges_by_numbers_and_tables()
    ensures moved { (past : List Entry) (id host : ℕ) →
        has_moved_since past id host ≡ nat_lt (sent_at past id) (moved_at past host) }
    ensures edge { (plan : Plan) (past : List Entry) (x : Pmac) (edge : ℕ) → RunTo plan past →
        is_of_edge past x edge
        ≡ (is_none_or (edge_of past x) edge && is_none_or_alike (address_of_edge past edge) x) }
{}

/// Whom a frame is for is told by one number, and by who held its address since when.
pub fn one_number_tells_whom_a_frame_is_for()
    ensures now { (past : List Entry) (x : ℕ) → live_holder past x ≡ held_as_of (length past) (tenures past x) }
    ensures crossing { (past : List Entry) (id x : ℕ) →
        held_at_crossing past id x ≡ held_as_of (asked_at past id) (tenures past x) }
{}
