ghost use Rattle.std.specs.Prelude.{◌≡◌, ◌≢◌, ℕ, ◌≤◌, List, ◌∷◌, ◌++◌, Some, IsSome, IsSomeAnd, false, is_some, true};
ghost use Rattle.pl_pmac.specs.declared.pmac.Pmac.{Pmac};
ghost use Rattle.pl_pmac.specs.Pmac.{pmac_number};
ghost use Rattle.pl_wiring.specs.declared.label.SwitchNo.{SwitchNo};
ghost use Rattle.pl_wiring.specs.declared.host.HostNo.{HostNo};
ghost use Rattle.pl_wiring.specs.Plan.{Plan};
ghost use Rattle.pl_journal.specs.declared.entry.Entry.{Entry};
ghost use Rattle.pl_journal.specs.declared.entry.Entry.TheVariants.{Granted, Registered};
ghost use Rattle.pl_journal.specs.Places.{at_port, are_freed, highest, holder, is_live, number, edge_port};
ghost use Rattle.pl_journal.specs.Flights.{held_at_crossing, is_begun, is_crossed};
ghost use Rattle.pl_journal.specs.Lossy.{RunTo};

/// A grant gives an address its holder and its port, and leaves those of each other address.
pub fn a_grant_gives_an_address()
    ensures holder { (past : List Entry) (x : Pmac) (host : HostNo) (edge : SwitchNo) (port : ℕ) →
        holder (Granted x host edge port ∷ past) (pmac_number x) ≡ Some host.0 }
    ensures edge_port { (past : List Entry) (x : Pmac) (host : HostNo) (edge : SwitchNo) (port : ℕ) →
        edge_port (Granted x host edge port ∷ past) (pmac_number x) ≡ Some (at_port edge.0 port) }
    ensures other_holder { (past : List Entry) (x : Pmac) (host : HostNo) (edge : SwitchNo)
        (port y : ℕ) → pmac_number x ≢ y →
        holder (Granted x host edge port ∷ past) y ≡ holder past y }
    ensures other_edge_port { (past : List Entry) (x : Pmac) (host : HostNo) (edge : SwitchNo)
        (port y : ℕ) → pmac_number x ≢ y →
        edge_port (Granted x host edge port ∷ past) y ≡ edge_port past y }
    ensures both { (past : List Entry) (y : ℕ) → is_some (edge_port past y) ≡ is_some (holder past y) }
{}

/// A registration gives an address its number, and leaves that of each other address.
pub fn a_registration_gives_a_number()
    ensures number { (past : List Entry) (x : Pmac) (n : ℕ) →
        number (Registered x n ∷ past) (pmac_number x) ≡ Some n }
    ensures other { (past : List Entry) (x : Pmac) (n y : ℕ) → pmac_number x ≢ y →
        number (Registered x n ∷ past) y ≡ number past y }
{}

/// In a run a live address keeps its holder and its port, whatever follows, until it is freed; its number may rise.
pub fn a_live_address_stays_with_its_host()
    ensures live { (plan : Plan) (newer past : List Entry) (x : ℕ) → RunTo plan (newer ++ past) →
        are_freed newer x ≡ false → is_live past x ≡ true → is_live (newer ++ past) x ≡ true }
    ensures holder { (plan : Plan) (newer past : List Entry) (x : ℕ) → RunTo plan (newer ++ past) →
        are_freed newer x ≡ false → is_live past x ≡ true → holder (newer ++ past) x ≡ holder past x }
    ensures edge_port { (plan : Plan) (newer past : List Entry) (x : ℕ) → RunTo plan (newer ++ past) →
        are_freed newer x ≡ false → is_live past x ≡ true → edge_port (newer ++ past) x ≡ edge_port past x }
    ensures number { (plan : Plan) (newer past : List Entry) (x n : ℕ) → RunTo plan (newer ++ past) →
        are_freed newer x ≡ false → is_live past x ≡ true → number past x ≡ Some n →
        IsSomeAnd (number (newer ++ past) x) (λ m. n ≤ m) }
{}

/// In a run the numbers of registered addresses lie between 1 and the highest, no two are equal, and each of
/// the addresses was granted.
pub fn registered_addresses_have_numbers_of_their_own()
    ensures within { (plan : Plan) (past : List Entry) (x n : ℕ) → RunTo plan past →
        number past x ≡ Some n → (1 ≤ n) × (n ≤ highest past) }
    ensures apart { (plan : Plan) (past : List Entry) (x y n : ℕ) → RunTo plan past →
        number past x ≡ Some n → number past y ≡ Some n → x ≡ y }
    ensures granted { (plan : Plan) (past : List Entry) (x n : ℕ) → RunTo plan past →
        number past x ≡ Some n → IsSome (holder past x) }
{}

/// A frame that waits is for the same host all the while, in a run: also while its present address is freed, or
/// granted again.
pub fn a_waiting_frame_keeps_its_addressee()
    ensures { (plan : Plan) (newer past : List Entry) (id x host : ℕ) → RunTo plan (newer ++ past) →
        is_begun past id ≡ true → is_crossed newer id ≡ false → held_at_crossing past id x ≡ Some host →
        held_at_crossing (newer ++ past) id x ≡ Some host }
{}
