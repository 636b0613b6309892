//! Tests of the crate `books` and of what both books answer at their edges, through their public names alone.
#![tactic(auto)]

#[cfg(test)]
mod edges;
