//! Tests of the one call `portland` over a shelf in memory: what no stored run can show.
#![tactic(auto)]

#[cfg(test)]
mod tests;
