// Reading a slip row by row.
ghost use Rattle.std.specs.Prelude.{◌≡◌, List, [], ◌++◌, length, drop, IfOk, MatchResult};
ghost use Rattle.slips.specs.declared.rows.Values.{Values as TheValues};
ghost use Rattle.slips.specs.Format.{names_line};
ghost use Rattle.slips.specs.Rules.{NamesFault, Read};
ghost use Rattle.slips.specs.Seen.{Answer, a_fault, seen, HandsOut, RowsAnswer, Answers, place, moved, Continues};
ghost use Rattle.slips.specs.Inner.{outcome, After};

use crate::cursor::Reader;
use crate::faults::{Cause, Fault};
use crate::lines::cut;
use crate::rows::Row;

/// The greatest number of bytes of a slip.
const MOST_BYTES: usize = 65_536;

/// The names of the fields, which are the first line of a slip.
const NAMES: &[u8] = b"edit,tag,parent,couplings,run,drop";

/// Refuses a slip whose first line is not the names.
fn check_names(slip: &[u8]) -> Result<(), Cause>
    ensures { MatchResult result (λ _. slip.now ≡ names_line ++ drop (length names_line) slip.now) (λ c. NamesFault slip.now c) }
{
    if slip.is_empty() {
        return Err(Cause::NotNames);
    }
    let Some((line, _)) = cut(slip, b'\n') else {
        return Err(Cause::Unended);
    };
    if line == NAMES {
        Ok(())
    } else {
        Err(Cause::NotNames)
    }
}

impl<'a> Reader<'a> {
    /// A reader at the start of a slip.
    pub fn new(slip: &'a [u8]) -> Reader<'a>
        ensures slip { result.slip ≡ slip.entry }
        ensures start { place result.byte result.line ≡ place 0 1 }
        ensures none { Read slip.now [] result.byte result.line }
    {
        Reader {
            slip,
            byte: 0,
            line: 1,
        }
    }

    /// Where the next row begins: past the names line, which is checked where it has not been read.
    fn start(&self) -> Result<Reader<'a>, Fault>
        ensures start { MatchResult result (λ r. (a : Answer) → RowsAnswer (drop r.byte r.slip.now) r.byte r.line a → Answers self.now.slip.now self.now.byte self.now.line a) (λ f. Answers self.now.slip.now self.now.byte self.now.line (a_fault f)) }
        ensures slip { IfOk result (λ r. r.slip ≡ self.now.slip) }
    {
        if self.slip.len() > MOST_BYTES {
            return Err(Fault::of_line(Cause::TooLong, 0, 0));
        }
        if self.line != 1 {
            return Ok(*self);
        }
        check_names(self.slip).map_err(|cause| Fault::of_line(cause, 1, 0))?;
        Ok(Reader {
            slip: self.slip,
            byte: NAMES.len() + 1,
            line: 2,
        })
    }

    /// The row of the line that begins here, with the reader past it; nothing where no byte is left.
    fn next_row(&self) -> Result<Option<(Row<'a>, Reader<'a>)>, Fault>
        ensures answer { RowsAnswer (drop self.now.byte self.now.slip.now) self.now.byte self.now.line (outcome result) }
        ensures after { After self.now result }
    {
        if self.byte >= self.slip.len() {
            return Ok(None);
        }
        let Some((line, _)) = cut(&self.slip[self.byte..], b'\n') else {
            return Err(Fault::of_line(Cause::Unended, self.line, self.byte));
        };
        let row = self.row_of(line)?;
        let after = Reader {
            slip: self.slip,
            byte: self.byte + line.len() + 1,
            line: self.line + 1,
        };
        Ok(Some((row, after)))
    }

    /// The next row, a fault, or the end: the one answer that the rules allow where the reader stands. Only a row moves
    /// it on, so that reading again after a fault or at the end gives the same.
    pub fn read(&mut self) -> Result<Option<Row<'a>>, Fault>
        ensures answer { Answers self.old.slip.now self.old.byte self.old.line (seen result) }
        ensures only { (a : Answer) → Answers self.old.slip.now self.old.byte self.old.line a → a ≡ seen result }
        ensures row { HandsOut self.old.slip.now (seen result) }
        ensures moved { place self.new.byte self.new.line ≡ moved (seen result) (place self.old.byte self.old.line) }
        ensures whole { (vs : List TheValues) → Read self.old.slip.now vs self.old.byte self.old.line → Continues self.old.slip.now vs (seen result) self.new.byte self.new.line }
        ensures slip { self.new.slip ≡ self.old.slip }
    {
        let Some((row, after)) = self.start()?.next_row()? else {
            return Ok(None);
        };
        *self = after;
        Ok(Some(row))
    }
}
