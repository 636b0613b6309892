//! Slips: the bytes by which tablets send edits, read row by row and written row by row.
//!
//! A slip is a names line and then a line for each row. Reading hands out each row as parts of the slip itself, or the
//! first fault with its place. docs/slips.md has the format, docs/refusals.md the numbers.
#![tactic(auto)]

mod cursor;
mod digits;
mod faults;
mod fields;
mod lines;
mod rows;
mod walk;
mod whole;
mod write;

pub use cursor::Reader;
pub use faults::{Cause, Fault, WriteFault};
pub use rows::{Field, Letter, Row, Values};
pub use whole::{Contents, read_slip};
pub use write::write_row;
