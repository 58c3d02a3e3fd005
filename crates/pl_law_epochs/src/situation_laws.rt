ghost use Rattle.std.specs.Prelude.{◌≡◌, ◌<◌, ℕ, Bool, false, true, List, [], ◌∷◌, ◌++◌, None, Option, Some};
ghost use Rattle.pl_node.specs.ManagerViews.{Recall};
ghost use Rattle.pl_law_epochs.specs.Tenures.{Said, Tenure, treats};
ghost use Rattle.pl_law_epochs.specs.Tenures.Knowledge.{Knows, Nothing};
ghost use Rattle.pl_law_epochs.specs.Tenures.Order.{Recalls, Releases};
ghost use Rattle.pl_law_epochs.specs.Tenures.Said.{Ages, Learns, Traps};
ghost use Rattle.pl_law_epochs.specs.Tenures.Use.{Leads, Nobodys, Rests, Serves};
ghost use Rattle.pl_law_epochs.specs.Situations.{IsIn, reported};

/// Whatever its edge switch does leaves an address in a situation: it grants it, tells it again, lets it rest, ends its trap,
/// and sets one or frees it where an order says so.
pub fn what_a_switch_does_leaves_an_address_in_a_situation()
    ensures grants { (later : Bool) (t : Tenure) → IsIn later t → t.use_is ≡ Nobodys → IsIn later (record t { use_is = Serves; due = t.due ++ Learns ∷ [] }) }
    ensures again { (later : Bool) (t : Tenure) → IsIn later t → t.use_is ≡ Serves → IsIn later (record t { due = t.due ++ Learns ∷ [] }) }
    ensures rests { (later : Bool) (t : Tenure) → IsIn later t → t.use_is ≡ Serves → IsIn later (record t { use_is = Rests 0; due = t.due ++ Ages 0 ∷ [] }) }
    ensures ends { (later : Bool) (t : Tenure) (to : Recall) → IsIn later t → t.use_is ≡ Leads to →
        IsIn later (record t { use_is = Rests to.number; due = t.due ++ Ages to.number ∷ [] }) }
    ensures obeys { (later : Bool) (t : Tenure) (to : Recall) → IsIn later t → t.orders ≡ Recalls to ∷ [] →
        IsIn later (record t { use_is = Leads to; orders = [] }) }
    ensures frees { (later : Bool) (t : Tenure) → IsIn later t → t.orders ≡ Releases ∷ [] → IsIn later (record t { use_is = Nobodys; orders = [] }) }
{}

/// Whatever the manager does leaves an address in a situation: it treats the first word that is due, sends a newer address of the
/// host, and forgets an address that has aged.
pub fn what_the_manager_does_leaves_an_address_in_a_situation()
    ensures treats { (later : Bool) (t : Tenure) (word : Said) (due : List Said) → IsIn later t → t.silent ≡ false → t.due ≡ word ∷ due →
        IsIn later (record t { due = due; known = treats later t.known word }) }
    ensures recalls { (later : Bool) (t : Tenure) (to : Recall) (aged : Bool) → IsIn later t → 0 < to.number → t.known ≡ Knows true None aged →
        IsIn later (record t { orders = t.orders ++ Recalls to ∷ []; known = Knows true (Some to) false }) }
    ensures forgets { (later : Bool) (t : Tenure) (known : Bool) (to : Option Recall) → IsIn later t → t.known ≡ Knows known to true →
        IsIn later (record t { orders = t.orders ++ Releases ∷ []; known = Nothing }) }
{}

/// So does a manager that begins anew, and a switch that hears of it.
pub fn what_a_restart_does_leaves_an_address_in_a_situation()
    ensures restarts { (later : Bool) (t : Tenure) → IsIn later t →
        IsIn true (record { use_is = t.use_is; due = []; orders = []; known = Nothing; silent = true }) }
    ensures greeted { (later : Bool) (t : Tenure) → IsIn later t → t.silent ≡ true →
        IsIn later (record t { due = reported t.use_is; orders = []; silent = false }) }
{}

/// What the manager hears of an address of which it knows nothing, beside that the address is told, its switch says in a
/// report. It hears of a trap in a later epoch than the first alone, and of an address of which it knows nothing. That an
/// unknown address has aged it hears in a later epoch alone, of one that rests at its switch, and nothing else is due of it.
pub fn what_is_heard_of_an_unknown_address_is_reported()
    ensures traps { (later : Bool) (t : Tenure) (to : Recall) (due : List Said) → IsIn later t → t.silent ≡ false → t.due ≡ Traps to ∷ due →
        (later ≡ true) × (t.known ≡ Nothing) }
    ensures ages { (later : Bool) (t : Tenure) (number : ℕ) (due : List Said) → IsIn later t → t.silent ≡ false → t.known ≡ Nothing →
        t.due ≡ Ages number ∷ due → (later ≡ true) × (due ≡ []) × (t.use_is ≡ Rests number) }
{}
