//! Looms: a book that is open for edits, or released for measures and plans, with a count of its accepted edits.
#![tactic(auto)]

mod calls;
mod history;
mod loom;

pub use calls::{Answer, Call, Noted};
pub use history::{AnyLoom, run};
pub use loom::{Loom, Open, Released};
