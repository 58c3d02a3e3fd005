//! Worked examples of the rules, the lossy switch and the world, as theorems that compute. No proof needs them.
#![tactic(auto)]
