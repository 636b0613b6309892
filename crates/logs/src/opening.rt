// Opening a log book on entries that are lent.
ghost use Rattle.std.specs.Prelude.{◌≡◌, ◌+◌, ◌/◌, min, length};
ghost use Rattle.books.specs.States.{New};
ghost use Rattle.logs.specs.Logs.{extent_of, log_state, Replays};

use crate::lent::LogBook;
use books::Edit;
use lengths::Length;

impl<'a, K: Length> LogBook<'a, K> {
    /// Opens a new book on entries of any number and content. It keeps no edit yet, and all entries keep their content.
    pub fn open(entries: &'a mut [Edit<K>]) -> LogBook<'a, K>
        ensures size { extent_of result.entries.now ≡ 1 + min 255 (length entries.old / 2) }
        ensures new { New K.figures (log_state K.figures result.entries.now result.used) }
        ensures log { result.used ≡ 0 }
        ensures replays { Replays K.figures result.entries.now result.used }
        ensures place { result.entries.ghost_name ≡ entries.entry.ghost_name }
        ensures rest { result.entries.now ≡ entries.old }
    {
        LogBook { entries, used: 0 }
    }
}
