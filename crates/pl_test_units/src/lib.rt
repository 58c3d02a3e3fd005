//! Tests of calls that stand below: a crate with tests is proved twice, this one has nothing else to prove.
#![tactic(auto)]

#[cfg(test)]
mod tests;
