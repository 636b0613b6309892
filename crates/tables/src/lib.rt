//! The table book: a book that keeps one row for each tag from 2 upward, in rows that are lent to it.
#![tactic(auto)]

mod lent;
mod opening;
mod table;

pub use lent::TableBook;
pub use rows::Row;
