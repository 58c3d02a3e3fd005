ghost use Rattle.std.specs.Prelude.{◌≡◌, ◌≢◌, ℕ, ◌<◌, List, ◌∷◌, Some, IsTrue, length};
ghost use Rattle.std.specs.Bool.{IsFalse};
ghost use Rattle.pl_wiring.specs.declared.label.SwitchNo.{SwitchNo};
ghost use Rattle.pl_wiring.specs.declared.host.HostNo.{HostNo};
ghost use Rattle.pl_wiring.specs.Plan.{IsPlan, Plan};
ghost use Rattle.pl_journal.specs.declared.entry.Entry.{Entry};
ghost use Rattle.pl_journal.specs.declared.entry.Entry.TheVariants.{LinkDown, LinkUp, Moved};
ghost use Rattle.pl_journal.specs.Places.{EdgePort, at_port, is_failed, is_adjacent, edge_port_of};
ghost use Rattle.pl_journal.specs.Flights.{was_live};
ghost use Rattle.pl_journal.specs.Lossy.{RunTo};

/// A host that moves stands where it moved to, and each other host stands where it stood. In a run
/// each host that stands somewhere is one of the wiring, and no two stand at one port.
pub fn a_host_stands_where_it_moved_last()
    ensures moved { (plan : Plan) (past : List Entry) (host : HostNo) (edge : SwitchNo)
        (port : ℕ) →
        edge_port_of plan (Moved host edge port ∷ past) host.0 ≡ Some (at_port edge.0 port) }
    ensures others { (plan : Plan) (past : List Entry) (host : HostNo) (edge : SwitchNo)
        (port other : ℕ) → host.0 ≢ other →
        edge_port_of plan (Moved host edge port ∷ past) other ≡ edge_port_of plan past other }
    ensures known { (plan : Plan) (past : List Entry) (host : ℕ) (there : EdgePort) → RunTo plan past →
        edge_port_of plan past host ≡ Some there → host < length plan.hosts }
    ensures apart { (plan : Plan) (past : List Entry) (g h : ℕ) (there : EdgePort) → IsPlan plan →
        RunTo plan past → edge_port_of plan past g ≡ Some there → edge_port_of plan past h ≡ Some there →
        g ≡ h }
{}

/// A link is failed from the entry that says so to the one that says that it is repaired. Which of
/// its ends is named first makes no difference, and in a run each failed link is one of the wiring.
pub fn a_link_is_failed_until_it_is_repaired()
    ensures failed { (past : List Entry) (x y : SwitchNo) →
        IsTrue (is_failed (LinkDown x y ∷ past) x.0 y.0) }
    ensures repaired { (past : List Entry) (x y : SwitchNo) →
        IsFalse (is_failed (LinkUp x y ∷ past) x.0 y.0) }
    ensures either_way { (past : List Entry) (a b : ℕ) → is_failed past a b ≡ is_failed past b a }
    ensures adjacent { (plan : Plan) (past : List Entry) (a b : ℕ) → RunTo plan past →
        IsTrue (is_failed past a b) → IsTrue (is_adjacent plan a b) }
    ensures live_now { (past : List Entry) (id a b : ℕ) →
        IsTrue (was_live past id a b) → IsFalse (is_failed past a b) }
{}
