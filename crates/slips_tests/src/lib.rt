//! Tests of the crate `slips`, through its public names alone: slips that are read whole, each fault at its edges,
//! the reader step by step, and rows that are written.
#![tactic(auto)]

#[cfg(test)]
mod faults;
#[cfg(test)]
mod reading;
#[cfg(test)]
mod sample;
#[cfg(test)]
mod steps;
#[cfg(test)]
mod writing;
