//! Tests of the crates `logs` and `worked`, and of one history on both books, through their public names alone.
#![tactic(auto)]

#[cfg(test)]
mod edges;
#[cfg(test)]
mod histories;
