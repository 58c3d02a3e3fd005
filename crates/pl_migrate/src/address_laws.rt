ghost use Rattle.std.specs.Prelude.{◌≡◌, ℕ, List, [], MatchOption, Some};
ghost use Rattle.pl_frame.specs.declared.address.Mac.{Mac};
ghost use Rattle.pl_pmac.specs.declared.pmac.Pmac.{Pmac};
ghost use Rattle.pl_node.specs.declared.trap.Trap.{Trap};
ghost use Rattle.pl_node.specs.SwitchViews.{SwitchView};
ghost use Rattle.pl_switch_rule.specs.Delivering.{trap_for};
ghost use Rattle.pl_switch_rule.specs.Granting.{granted, grants_at, in_use, is_local};
ghost use Rattle.pl_switch_rule.specs.Intake.{pmac_at};
ghost use Rattle.pl_migrate.specs.AddressTables.{AddressTableView, address_in_use, address_table_in, granted_in, is_here, trap_in};
ghost use Rattle.pl_migrate.specs.Keeping.{trap_standing, IsHostsOwn, StandsOf};

/// What stands in an address table is what a switch with its place and its grants knows.
pub fn an_address_table_is_a_part_of_a_switch()
    ensures local { (address_table : AddressTableView) (v : SwitchView) (pmac : Pmac) → is_local (address_table_in address_table v) pmac ≡ is_here address_table pmac }
    ensures granted { (address_table : AddressTableView) (v : SwitchView) (pmac : Pmac) → granted (address_table_in address_table v) pmac ≡ granted_in address_table pmac }
    ensures trap { (address_table : AddressTableView) (v : SwitchView) (pmac : Pmac) → trap_for (address_table_in address_table v) pmac ≡ trap_in address_table pmac }
    ensures used { (address_table : AddressTableView) (v : SwitchView) (port : ℕ) (amac : Mac) → pmac_at (address_table_in address_table v) port (in_use (grants_at (address_table_in address_table v) port) amac) ≡ address_in_use address_table port amac }
{}

/// The address that a host has in use at a port was granted to that host at that port.
pub fn an_address_in_use_is_its_hosts()
    ensures { (address_table : AddressTableView) (port : ℕ) (amac : Mac) (pmac : Pmac) → address_in_use address_table port amac ≡ Some pmac → IsHostsOwn address_table port amac pmac }
{}

/// Of the traps that were set for an address, one after another, one with the largest number stands.
pub fn the_newest_trap_stands()
    ensures { (traps : List Trap) → MatchOption (trap_standing traps) (traps ≡ []) (StandsOf traps) }
{}
