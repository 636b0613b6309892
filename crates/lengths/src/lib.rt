//! Kinds of length: figures that are summed and compared, by laws that every kind shows.
//!
//! A kind is a type with an impl of [`Length`], and its values are figures. Code above this crate is generic over the
//! kind and knows of it only what the trait says.
#![tactic(auto)]

mod count;
mod interface;
mod pairs;
mod sums;

pub use count::{Count, Couplings, Millimetres};
pub use interface::{Length, Ordered, Whole};
pub use pairs::{FirstThen, KindC, KindM, kind_c, one_coupling_is_more};
pub use sums::{larger, sum_of};
