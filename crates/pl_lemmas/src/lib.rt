//! Small lemmas that name std alone, on truth values, options and lists, for the proofs of all other crates. It has no code.
#![tactic(auto)]
