// The log book as a book.
ghost use Rattle.std.specs.Prelude.{◌≡◌, take};
ghost use Rattle.logs.specs.Logs.{extent_of, rows_of, log_state, Leaves, Logs, Replays};
ghost use Rattle.logs.specs.Marks.{rows_by};

use crate::lent::LogBook;
use crate::replaying::Replayed;
use books::{Book, Edit, Refused, Spur, State};
use lengths::Length;
use rows::{judge_growth, judge_look, judge_strike, size_for};

/// The size of a log with these entries.
fn extent_of<K>(entries: &[Edit<K>]) -> u32
    ensures { result ≡ extent_of entries.now }
{
    size_for(entries.len() / 2)
}

impl<'a, K: Length> LogBook<'a, K> {
    /// The rows that the edits kept come to. So a look, a growth and a strike cost steps by the number of edits kept.
    fn replayed(&self) -> Replayed<'_, K>
        ensures { rows_by result.edits.now result.marks.items ≡ rows_of self.now.entries.now self.now.used }
    {
        let count = extent_of(self.entries) as usize - 1;
        Replayed::new(&self.entries[..self.used], count)
    }
}

impl<'a, K: Length> Book for LogBook<'a, K> {
    type Kind = K;

    ghost extent = { λ b. extent_of b.entries.now };

    ghost state = { λ b. log_state K.Length.figures b.entries.now b.used };

    ghost leaves = { λ a b. (b.entries.ghost_name ≡ a.entries.ghost_name) × Leaves a.entries.now a.used b.entries.now b.used };

    ghost writes = { λ a e b. (b.entries.ghost_name ≡ a.entries.ghost_name) × Logs a.entries.now a.used e b.entries.now b.used × (Replays K.Length.figures a.entries.now a.used → Replays K.Length.figures b.entries.now b.used) };

    fn size(&self) -> u32 {
        extent_of(self.entries)
    }

    fn look(&self, tag: u32) -> Result<State<K>, Refused> {
        judge_look(&self.replayed(), tag)
    }

    // A growth and a strike differ in what is judged and in the entry; one method for both would repeat the trait's clauses.
    fn grow(&mut self, tag: u32, spur: &Spur<K>) -> Result<(), Refused> {
        judge_growth(&self.replayed(), tag, spur)?;
        self.entries[self.used] = Edit::Growth { tag, spur: *spur };
        self.used += 1;
        Ok(())
    }

    fn strike(&mut self, tag: u32) -> Result<(), Refused> {
        judge_strike(&self.replayed(), tag)?;
        self.entries[self.used] = Edit::Strike { tag };
        self.used += 1;
        Ok(())
    }
}
