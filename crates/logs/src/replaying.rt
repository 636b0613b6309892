// Replaying edits: the rows that they come to.
ghost use Rattle.std.specs.Prelude.{◌≡◌, ◌≤◌, length, replicate};
ghost use Rattle.books.specs.declared.states.State.TheVariants.{Blank};
ghost use Rattle.logs.specs.Logs.{replay};
ghost use Rattle.logs.specs.Marks.{mark_one, rows_by};
ghost use Rattle.rows.specs.Rows.{row_of};

use arrayvec::ArrayVec;
use books::{Edit, State};
use lengths::Length;
use rows::{Rows, size_for};

/// The rows that edits come to, each kept as a mark: the index of the last edit of its tag, or none for a blank row. (Whole rows
/// would be as large as the kind's figures are, and so of no fixed size. The marks are made anew at each look, growth and strike, so
/// their size counts: an index is a `u16`, which is enough for the 510 edits that a book can accept.)
#[derive(Drop)]
pub(crate) struct Replayed<'e, K> {
    pub(crate) edits: &'e [Edit<K>],
    pub(crate) marks: ArrayVec<Option<u16>, 255>,
}

/// Marks the row of an edit's tag, if there is one.
fn mark_one<K: Copy>(marks: &mut [Option<u16>], edit: Edit<K>, index: u16)
    ensures { marks.new ≡ mark_one marks.old edit index }
{
    let tag = edit.tag() as usize;
    if tag >= 2 && tag - 2 < marks.len() {
        marks[tag - 2] = Some(index);
    }
}

/// Replays edits, oldest first, into marks.
fn mark<K: Copy>(marks: &mut [Option<u16>], edits: &[Edit<K>])
    requires { length edits.now ≤ 510 }
    ensures { rows_by edits.now marks.new ≡ replay (rows_by edits.now marks.old) edits.now }
{
    for (index, edit) in edits.iter().enumerate() {
        mark_one(marks, *edit, index as u16);
    }
}

impl<'e, K: Length> Replayed<'e, K> {
    /// Replays edits, oldest first, on so many blank rows.
    pub(crate) fn new(edits: &'e [Edit<K>], count: usize) -> Replayed<'e, K>
        requires count { count ≤ 255 }
        requires few { length edits.now ≤ 510 }
        ensures { rows_by result.edits.now result.marks.items ≡ replay (replicate count (row_of Blank)) edits.entry.now }
    {
        let mut replayed = Replayed {
            edits,
            marks: ArrayVec::from([None; 255]),
        };
        replayed.marks.truncate(count);
        mark(replayed.marks.as_mut_slice(), edits);
        replayed
    }
}

impl<'e, K: Length> Rows for Replayed<'e, K> {
    type Kind = K;

    ghost rows = { λ b. rows_by b.edits.now b.marks.items };

    fn extent(&self) -> u32 {
        size_for(self.marks.len())
    }

    fn row(&self, index: usize) -> State<K> {
        // no `flatten` of the two Options: it stayed open
        let Some(Some(last)) = self.marks.get(index) else {
            return State::Blank;
        };
        self.edits
            .get(usize::from(*last))
            .map_or(State::Blank, |edit| edit.written())
    }
}
