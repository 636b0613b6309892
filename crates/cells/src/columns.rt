// 256 places by number.
ghost use Rattle.std.specs.Prelude.{◌≡◌, ℕ, ◌<◌, if◌then◌else◌, nat_eq};
ghost use Rattle.cells.specs.Columns.{held};

use crate::interface::Cells;
use crate::twos::Cells256;

/// 256 values, one for each number below 256.
#[derive(Clone, Copy)]
pub struct Column<T> {
    cells: Cells256<T>,
}

impl<T: Copy> Column<T> {
    /// A column that holds the same value everywhere.
    pub fn filled(item: T) -> Column<T>
        ensures { (i : ℕ) → held result i ≡ item }
    {
        Column {
            cells: Cells::filled(item),
        }
    }

    /// The value at a number.
    pub fn get(&self, index: usize) -> &T
        ensures { result.now ≡ held self.now index }
    {
        self.cells.get(index)
    }

    /// Puts a value at a number below 256, and leaves the others.
    pub fn put(&mut self, index: usize, item: T)
        ensures { (i : ℕ) → i < 256 → index < 256 → held self.new i ≡ (if nat_eq index i then item else held self.old i) }
    {
        self.cells.put(index, item);
    }
}
