// The interface of a list of rows.
ghost use Rattle.std.specs.Prelude.{◌≡◌, List};
ghost use Rattle.rows.specs.declared.row.Row.{Row};
ghost use Rattle.rows.specs.Rows.{row_at, extent_of};

use books::State;
use lengths::Length;

/// A list of rows, however it is kept: the row at index 0 is that of tag 2.
pub trait Rows {
    /// The kind of length that the rows keep.
    type Kind: Length;

    // The rows, as a list.
    ghost rows: { Self → List (Row Self.Kind) };

    /// The size of a book with these rows. (Each kind of rows knows how many it has; `size_for` does the rest for all.)
    fn extent(&self) -> u32
        ensures { result ≡ extent_of (rows self.now) };

    /// What the row at this index says, and blank past the last row.
    fn row(&self, index: usize) -> State<Self::Kind>
        ensures { result ≡ row_at (rows self.now) index };
}
