//! The log book: a book that keeps the accepted edits in order, in entries that are lent to it.
#![tactic(auto)]

mod lent;
mod log;
mod opening;
mod replaying;

pub use lent::LogBook;
