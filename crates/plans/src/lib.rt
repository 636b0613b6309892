//! Measures (distance, length, reach and sum of a path) and plans (hub, spine and trunk) of any book. Each call reads the tree out of
//! the book once; a path is measured by passes over that tree, and a plan is searched for among all points or all paths.
#![tactic(auto)]

mod answers;
mod checking;
mod denials;
mod drawing;
mod folding;
mod measures;
mod passing;
mod planning;
mod searching;
mod sides;
mod weighing;

pub use answers::Plan;
pub use denials::Denial;
pub use measures::{distance, length, reach, sum};
pub use planning::{hub, spine, trunk};
