//! What a checker of journals has to keep of the past, as definitions, and by which equations it changes.
//!
//! `kept` is what is kept of a frame, a value of fixed size but for its bytes; an entry changes that of one
//! frame at most. Entries are numbered, so that "since" and "at that time" are comparisons of two such
//! numbers. The tables themselves are left to the crates above.
#![tactic(auto)]

pub use laws::{
    moves_and_edges_by_numbers_and_tables, one_number_tells_whom_a_frame_is_for,
    one_place_of_the_table_changes, two_numbers_tell_whether_a_link_was_live,
    what_is_kept_of_a_frame_changes_by_its_own_entries,
};

mod laws;
