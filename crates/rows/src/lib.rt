//! Rows: one for each tag from 2 upward, and what a list of them says of each tag. What keeps the states of tags in rows is
//! built on them; this crate has no book of its own.
#![tactic(auto)]

mod clearing;
mod interface;
mod judging;
mod reading;
mod row;

pub use clearing::clear;
pub use interface::Rows;
pub use judging::{judge_growth, judge_look, judge_strike};
pub use reading::{row_at, size_for, state_at};
pub use row::Row;
