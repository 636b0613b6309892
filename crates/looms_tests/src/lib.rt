//! Tests of the crate `looms`, through its public names alone.
#![tactic(auto)]

#[cfg(test)]
mod lists;
#[cfg(test)]
mod stages;
