ghost use Rattle.std.specs.Prelude.{◌≡◌, ◌≤◌, ℕ, List, Some, true, slice_get};
ghost use Rattle.pl_node.specs.ManagerViews.{Registration, newest, registration};
ghost use Rattle.pl_node.specs.SwitchViews.{SwitchView};
ghost use Rattle.pl_manager_rule.specs.Histories.{Word, known};
ghost use Rattle.pl_pmac.specs.declared.pmac.Pmac.{Pmac};
ghost use Rattle.pl_world.specs.Worlds.{WorldView};
ghost use Rattle.pl_law_addresses.specs.Addressed.{AreApart};
ghost use Rattle.pl_law_addresses.specs.EdgeAddresses.{is_live};

/// No two edge switches have one address for a host.
pub fn no_two_edge_switches_grant_one_address()
    ensures { (w : WorldView) → AreApart w.switches → (s t : ℕ) (v u : SwitchView) (x : Pmac) →
        slice_get w.switches s ≡ Some v → slice_get w.switches t ≡ Some u → is_live v x ≡ true → is_live u x ≡ true → s ≡ t }
{}

/// Whatever the manager was told: of the addresses that are registered for a host the newest one has the largest number.
pub fn the_newest_address_has_the_largest_number()
    ensures { (k : ℕ) (words : List Word) (x : Pmac) (reg first : Registration) → registration (known k words).learnt x ≡ Some reg →
        newest (known k words).learnt reg.amac ≡ Some first → reg.number ≤ first.number }
{}
