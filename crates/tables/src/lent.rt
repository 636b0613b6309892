// A table book over rows that are lent to it.
ghost use Rattle.rows.specs.Rows.{Kept};

use rows::Row;

/// A book that keeps what was last written of tag 2 in its first row, of tag 3 in its second, and so on; it uses the first
/// 255 rows.
#[derive(Drop)]
pub struct TableBook<'a, K> {
    pub(crate) rows: &'a mut [Row<K>],
    // no row says that a tag stands on one whose row is blank
    ghost kept: { Kept rows.now },
}
