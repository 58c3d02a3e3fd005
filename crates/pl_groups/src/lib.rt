//! The trees of the groups: which switches forward a group's frames, and by which neighbours.
//!
//! `Groups` keeps which edge switches have members, and for each group its tree as it was last made. A
//! tree is made anew from what the switches told of their places and links; the tree of one group is a
//! pass over the links of the aggregation and the core switches, and no loop over core, aggregation and
//! edge switches together. Whom the manager tells of a change is left to the crates above.
#![tactic(auto)]

pub use groups::Groups;

mod cores;
mod groups;
mod needs;
mod parts;
mod place_tests;
mod positions;
mod root;
mod roster;
mod serving;
mod tree;
