ghost use Rattle.pl_manager_rule.specs.WholeRule.{whole_rule};
ghost use Rattle.pl_switch_rule.specs.SwitchRule.{Loose};
ghost use Rattle.pl_world.specs.Runs.{InEveryRun};
ghost use Rattle.pl_law_control_plane.specs.ControlPlanes.{control_plane};
ghost use Rattle.pl_law_ledger.specs.Ledgers.{WhereNumbersSuffice};
ghost use Rattle.pl_law_theorem.specs.Invariant.{CopiesAreInOrder, HostsAreInOrder, NetworkInvariant, PlacesAreInOrder, RecordsAreInOrder};

use crate::{lawful_logic_is_one_lossy_switch, lawful_logic_writes_what_is_so};
use pl_host_rule::LawfulHost;
use pl_law_copies::{
    frames_of_a_root_are_alone_in_every_run, one_copy_may_come_to_each_port_in_every_run,
    what_is_told_and_ordered_is_so_in_every_run,
};
use pl_law_invariant::{
    each_run_of_lawful_logic_is_a_run_of_the_rules, every_run_keeps_all_of_it,
    lawful_logic_keeps_all_of_it,
};
use pl_law_ledger::{
    each_number_given_is_below_the_number_of_pods, each_trap_leads_to_a_newer_address_in_every_run,
    pods_and_positions_are_of_one_byte_in_every_run,
    the_journal_says_what_was_granted_in_every_run,
};
use pl_law_members::hosts_have_joined_what_their_frames_said_in_every_run;
use pl_law_placing::every_run_keeps_edge_switches_placing;
use pl_law_records::{
    addresses_are_registered_in_order_in_every_run, links_are_told_in_every_run,
    links_to_neighbours_alone_are_told_usable_in_every_run, orders_are_of_the_records_in_every_run,
    places_are_what_was_written_last_in_every_run, records_are_current_at_rest,
    reports_are_kept_in_every_run, usable_links_are_those_of_the_wiring_at_rest,
    usable_pairs_are_current_at_rest,
};
use pl_law_registration::{
    addresses_are_granted_where_hosts_stood, hosts_are_being_registered_in_every_run,
    lawful_logic_registers_hosts_at_rest, no_two_hosts_stand_at_one_place,
    unplaced_edge_switches_remember_hosts,
};
use pl_law_runs::{each_run_is_a_loose_run, restarts_are_counted_in_every_run};
use pl_law_settled::settled_runs_have_current_records_and_positions;
use pl_manager_rule::LawfulManager;
use pl_node::HostLogic;
use pl_switch_rule::LooseSwitch;

/// In every run edge switches come to their places as they should.
pub fn places_are_in_order_in_every_run<H: HostLogic>()
    ensures { InEveryRun Loose whole_rule H.rule PlacesAreInOrder }
{
    every_run_keeps_edge_switches_placing::<H>();
    each_number_given_is_below_the_number_of_pods::<H>();
    pods_and_positions_are_of_one_byte_in_every_run::<H>();
}

/// In every run hosts are attended to, and the journal has each grant and each number, where the numbers of an epoch suffice.
pub fn hosts_are_in_order_in_every_run<H: LawfulHost>()
    ensures { InEveryRun Loose whole_rule H.rule (WhereNumbersSuffice HostsAreInOrder) }
{
    no_two_hosts_stand_at_one_place::<H>();
    hosts_are_being_registered_in_every_run::<H>();
    unplaced_edge_switches_remember_hosts::<H>();
    the_journal_says_what_was_granted_in_every_run::<H>();
    each_trap_leads_to_a_newer_address_in_every_run::<H>();
    addresses_are_granted_where_hosts_stood::<H>();
}

/// In every run what the manager knows and ordered follows from what it was told.
pub fn records_are_in_order_in_every_run<H: HostLogic>()
    ensures { InEveryRun Loose whole_rule H.rule (λ new. RecordsAreInOrder (control_plane new)) }
{
    reports_are_kept_in_every_run::<H>();
    links_are_told_in_every_run::<H>();
    links_to_neighbours_alone_are_told_usable_in_every_run::<H>();
    orders_are_of_the_records_in_every_run::<H>();
    every_run_keeps_all_of_it::<H>();
    records_are_current_at_rest();
    usable_pairs_are_current_at_rest();
    usable_links_are_those_of_the_wiring_at_rest();
}

/// In every run what is told and ordered is so, and of the frames of one root at most one copy comes to each port.
pub fn copies_are_in_order_in_every_run<H: HostLogic>()
    ensures { InEveryRun Loose whole_rule H.rule CopiesAreInOrder }
{
    what_is_told_and_ordered_is_so_in_every_run::<H>();
    one_copy_may_come_to_each_port_in_every_run::<H>();
    frames_of_a_root_are_alone_in_every_run::<H>();
}

/// So lawful logic has the invariant of the network at each moment of each run from the beginning, where they do.
pub fn lawful_logic_keeps_the_invariant<S: LooseSwitch, M: LawfulManager, H: LawfulHost>()
    ensures { InEveryRun S.rule M.rule H.rule (WhereNumbersSuffice NetworkInvariant) }
{
    each_run_of_lawful_logic_is_a_run_of_the_rules::<S, M, H>();
    each_run_is_a_loose_run::<S, M, H>();
    lawful_logic_keeps_all_of_it::<S, M, H>();
    places_are_in_order_in_every_run::<H>();
    hosts_are_in_order_in_every_run::<H>();
    records_are_in_order_in_every_run::<H>();
    copies_are_in_order_in_every_run::<H>();
    restarts_are_counted_in_every_run::<S, M, H>();
    hosts_have_joined_what_their_frames_said_in_every_run::<M, H>();
    places_are_what_was_written_last_in_every_run::<S, M, H>();
    addresses_are_registered_in_order_in_every_run::<S, M, H>();
    lawful_logic_is_one_lossy_switch::<S, M, H>();
    lawful_logic_writes_what_is_so::<S, M, H>();
    settled_runs_have_current_records_and_positions::<S, M, H>();
    lawful_logic_registers_hosts_at_rest::<S, M, H>();
}
