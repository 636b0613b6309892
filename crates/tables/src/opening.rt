// Opening a table book on rows that are lent.
ghost use Rattle.std.specs.Prelude.{◌≡◌, ℕ, ◌+◌, ◌<◌, min, length, drop};
ghost use Rattle.books.specs.declared.states.State.TheVariants.{Blank};
ghost use Rattle.books.specs.States.{New};
ghost use Rattle.rows.specs.Rows.{row_at, extent_of, state_of};

use crate::lent::TableBook;
use lengths::Length;
use rows::{Row, clear};

impl<'a, K: Length> TableBook<'a, K> {
    /// Opens a new book on rows of any number and content. The rows after the first 255 keep their content.
    pub fn open(rows: &'a mut [Row<K>]) -> TableBook<'a, K>
        ensures size { extent_of result.rows.now ≡ 1 + min 255 (length rows.old) }
        ensures new { New K.figures (state_of K.figures result.rows.now) }
        ensures blank { (i : ℕ) → i < 255 → row_at result.rows.now i ≡ Blank }
        ensures place { result.rows.ghost_name ≡ rows.entry.ghost_name }
        ensures rest { drop 255 result.rows.now ≡ drop 255 rows.old }
    {
        clear(rows);
        TableBook { rows }
    }
}
