//! Laws of the manager's records: what the manager knows of places, links and members is what the
//! switches told it, and the avoid lists and tree parts of the switches are those of its records, but for
//! what waits between them.
//!
//! Laws of two kinds of entries: in each step those that place switches and those that register addresses
//! stand exactly where a place changes and where an address is registered, with the world's values.
#![tactic(auto)]

pub use entry_laws::{
    addresses_are_registered_in_order_in_every_run, places_are_what_was_written_last_in_every_run,
    places_are_written_where_they_change, registrations_are_written_where_they_are_made,
};
pub use record_laws::{
    each_step_keeps_links, each_step_keeps_orders, each_step_keeps_reports,
    links_are_told_in_every_run, links_to_neighbours_alone_are_told_usable_in_every_run,
    orders_are_of_the_records_in_every_run, records_are_current_at_rest,
    reports_are_kept_in_every_run, the_links_begin_current, the_records_begin_current,
    usable_links_are_those_of_the_wiring_at_rest, usable_pairs_are_current_at_rest,
};

mod entry_laws;
mod record_laws;
