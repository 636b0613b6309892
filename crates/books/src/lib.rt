//! Books: what keeps the tree of a loom. This crate has the meaning of a book as an interface, and what holds of every book
//! that shows that meaning; it has no book of its own.
#![tactic(auto)]

mod applying;
mod causes;
mod edits;
mod interface;
mod judging;
mod states;

pub use applying::{apply, attempt};
pub use causes::{Refusal, Refused};
pub use edits::{Answer, Edit, Entry, answer_number};
pub use interface::Book;
pub use judging::{growth_cause, look_cause, spur_cause, strike_cause};
pub use states::{Spur, State};
