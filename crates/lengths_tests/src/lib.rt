//! Tests of the crate `lengths`, through its public names alone: what each kind answers at its edges.
//!
//! The helpers are generic over the kind, so that every kind is asked the same questions.
#![tactic(auto)]

#[cfg(test)]
mod asked;
#[cfg(test)]
mod laws;
#[cfg(test)]
mod pairs;
#[cfg(test)]
mod whole;
