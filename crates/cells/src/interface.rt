// The interface of cells, from which a column is built.
ghost use Rattle.std.specs.Prelude.{◌≡◌, ℕ, ◌<◌, if◌then◌else◌, nat_eq};

/// A fixed number of places, each with a value. A place is named by a number. Every number may be asked for, also past the last
/// place; what is promised of a put is promised of the numbers below the count.
pub trait Cells: Copy {
    /// What a place holds.
    type Item: Copy;

    // How many places there are.
    ghost count: { ℕ };

    // What the place of a number holds.
    ghost at: { Self → ℕ → Self.Item };

    /// Cells that all hold the same value.
    fn filled(item: Self::Item) -> Self
        ensures { (i : ℕ) → at result i ≡ item };

    /// What a place holds.
    fn get(&self, index: usize) -> &Self::Item
        ensures { result.now ≡ at self.now index };

    /// Puts a value into a place, and leaves the others.
    fn put(&mut self, index: usize, item: Self::Item)
        ensures { (i : ℕ) → i < count → index < count → at self.new i ≡ (if nat_eq index i then item else at self.old i) };
}
