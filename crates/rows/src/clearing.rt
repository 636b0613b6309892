// Making rows blank.
ghost use Rattle.std.specs.Prelude.{◌≡◌, ℕ, ◌<◌, length, drop};
ghost use Rattle.books.specs.declared.states.State.TheVariants.{Blank};
ghost use Rattle.rows.specs.Rows.{row_at};

use crate::row::Row;

/// Makes each of the first 255 rows blank.
pub fn clear<K: Copy>(rows: &mut [Row<K>])
    ensures used { (i : ℕ) → i < 255 → row_at rows.new i ≡ Blank }
    ensures long { length rows.new ≡ length rows.old }
    ensures rest { drop 255 rows.new ≡ drop 255 rows.old }
{
    let used = rows.len().min(255);
    rows[..used].fill(Row::blank());
}
