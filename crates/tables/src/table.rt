// The table book as a book.
ghost use Rattle.std.specs.Prelude.{◌≡◌, ◌-◌, drop as after, slice_set};
ghost use Rattle.books.specs.Edits.{tag_of, written};
ghost use Rattle.rows.specs.Rows.{row_of, extent_of, state_of};

use crate::lent::TableBook;
use books::{Book, Refused, Spur, State};
use lengths::Length;
use rows::{Row, Rows, judge_growth, judge_look, judge_strike, row_at, size_for};

impl<'a, K: Length> Rows for TableBook<'a, K> {
    type Kind = K;

    ghost rows = { λ b. b.rows.now };

    fn extent(&self) -> u32 {
        size_for(self.rows.len())
    }

    fn row(&self, index: usize) -> State<K> {
        row_at(self.rows, index)
    }
}

impl<'a, K: Length> Book for TableBook<'a, K> {
    type Kind = K;

    ghost extent = { λ b. extent_of b.rows.now };

    ghost state = { λ b. state_of K.Length.figures b.rows.now };

    ghost leaves = { λ a b. (b.rows.ghost_name ≡ a.rows.ghost_name) × (after 255 b.rows.now ≡ after 255 a.rows.now) };

    ghost writes = { λ a e b. (b.rows.ghost_name ≡ a.rows.ghost_name) × (b.rows.now ≡ slice_set a.rows.now (tag_of e - 2) (row_of (written e))) };

    fn size(&self) -> u32 {
        self.extent()
    }

    fn look(&self, tag: u32) -> Result<State<K>, Refused> {
        judge_look(self, tag)
    }

    // A growth and a strike differ in what is judged and in the row; one method for both would repeat the trait's clauses.
    fn grow(&mut self, tag: u32, spur: &Spur<K>) -> Result<(), Refused> {
        judge_growth(self, tag, spur)?;
        self.rows[tag as usize - 2] = Row {
            state: State::Standing(*spur),
        };
        Ok(())
    }

    fn strike(&mut self, tag: u32) -> Result<(), Refused> {
        judge_strike(self, tag)?;
        self.rows[tag as usize - 2] = Row {
            state: State::Struck,
        };
        Ok(())
    }
}
