//! Tests of the crate `plans`: measures and plans of small looms and of full ones, through its public names alone.
#![tactic(auto)]

#[cfg(test)]
mod asked;
#[cfg(test)]
mod checks;
#[cfg(test)]
mod fourteen;
#[cfg(test)]
mod full;
#[cfg(test)]
mod kind_c;
#[cfg(test)]
mod measures;
#[cfg(test)]
mod mistakes;
#[cfg(test)]
mod own_kind;
