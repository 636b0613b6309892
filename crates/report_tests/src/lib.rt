//! Tests of the crate `report`: the text that the program prints of slips, with and without a fault. The program itself is run on the
//! sample slip.
#![tactic(auto)]

#[cfg(test)]
mod texts;
