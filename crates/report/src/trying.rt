// Doing edits on new books: in each kind the one book that it is done in, on memory of its own. (Not one function: the books, the
// kinds and what is lent to them all differ.)
ghost use Rattle.std.specs.Prelude.{map};
ghost use Rattle.lengths.specs.Whole.{mm};
ghost use Rattle.lengths.specs.Pairs.{kind_c_figures};
ghost use Rattle.books.specs.Edits.{Tried};

use books::{Edit, Entry, apply};
use lengths::{KindC, KindM};
use logs::LogBook;
use tables::{Row, TableBook};

/// Does edits of kind M in a new table book of 256 tags.
pub(crate) fn try_in_table(noted: &mut [Entry<KindM>])
    ensures { Tried mm 256 (map (λ n. n.edit) noted.old) noted.new }
{
    let mut rows = [Row::<KindM>::blank(); 255];
    let mut book = TableBook::open(&mut rows);
    apply(&mut book, noted);
}

/// Does edits of kind C in a new log book of 256 tags.
pub(crate) fn try_in_log(noted: &mut [Entry<KindC>])
    ensures { Tried kind_c_figures 256 (map (λ n. n.edit) noted.old) noted.new }
{
    // what fills memory that has no edit yet: a log opens on any content
    let mut entries = [Edit::<KindC>::Strike { tag: 0 }; 510];
    let mut book = LogBook::open(&mut entries);
    apply(&mut book, noted);
}
