// A log book over entries that are lent to it.
ghost use Rattle.rows.specs.Rows.{Kept};
ghost use Rattle.logs.specs.Logs.{rows_of, Roomy};

use books::Edit;

/// A book that keeps the accepted edits, oldest first, one in each entry from the first on. A tag's state is what the rows
/// that they come to say.
#[derive(Drop)]
pub struct LogBook<'a, K> {
    pub(crate) entries: &'a mut [Edit<K>],
    // how many entries hold an edit: a length beside the entries, since a book keeps its edits in memory that is lent to it
    pub(crate) used: usize,
    // no row that the edits come to says that a tag stands on one whose row is blank
    ghost kept: { Kept (rows_of entries.now used) },
    // there is room for every edit that may still be accepted: so the log never runs full
    ghost room: { Roomy entries.now used },
}
