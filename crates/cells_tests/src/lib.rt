//! Tests of the crate `cells`, through its public names alone.

#[cfg(test)]
mod places;
