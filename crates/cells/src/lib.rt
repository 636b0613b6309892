//! Columns: 256 values of any type that can be copied, held by value. They are kept in nested structs of two and not in an
//! array: who calls a function over `[T; 256]`, or over an `ArrayVec<T, 256>`, has to show that it takes less than 2^63 bytes,
//! which generic code cannot know of `T`, and which no public function may ask of its callers.
#![tactic(auto)]

mod columns;
mod interface;
mod twos;

pub use columns::Column;
