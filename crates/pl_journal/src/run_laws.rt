ghost use Rattle.std.specs.Prelude.{List, [], ◌∷◌, ◌++◌, reverse};
ghost use Rattle.pl_wiring.specs.Plan.{Plan};
ghost use Rattle.pl_journal.specs.declared.entry.Entry.{Entry};
ghost use Rattle.pl_journal.specs.Lossy.{CrossesWell, GoodTrail, Needs, Run};

/// The empty journal is a run, and a run goes on by each entry that may follow it.
pub fn a_run_goes_on()
    ensures begins { (plan : Plan) → Run plan [] }
    ensures goes_on { (plan : Plan) (journal : List Entry) (entry : Entry) →
        Run plan journal → Needs plan (reverse journal) entry →
        Run plan (journal ++ entry ∷ []) }
    ensures went_on { (plan : Plan) (journal : List Entry) (entry : Entry) →
        Run plan (journal ++ entry ∷ []) →
        Run plan journal × Needs plan (reverse journal) entry }
{}

/// The same of journals in which each frame has a good trail.
pub fn a_good_trail_goes_on()
    ensures begins { (plan : Plan) → GoodTrail plan [] }
    ensures goes_on { (plan : Plan) (journal : List Entry) (entry : Entry) →
        GoodTrail plan journal → CrossesWell plan (reverse journal) entry →
        GoodTrail plan (journal ++ entry ∷ []) }
    ensures went_on { (plan : Plan) (journal : List Entry) (entry : Entry) →
        GoodTrail plan (journal ++ entry ∷ []) →
        GoodTrail plan journal × CrossesWell plan (reverse journal) entry }
{}

/// Whatever follows, a front of a run is a run, and its trails are good if those of the whole are.
pub fn a_front_of_a_run_is_a_run()
    ensures run { (plan : Plan) (front rest : List Entry) →
        Run plan (front ++ rest) → Run plan front }
    ensures trail { (plan : Plan) (front rest : List Entry) →
        GoodTrail plan (front ++ rest) → GoodTrail plan front }
{}
