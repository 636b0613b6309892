// Writing a row.
ghost use Rattle.std.specs.Prelude.{◌≡◌, ℕ, ◌<◌, ◌≤◌, List, length, take, IfOk, MatchOption, MatchResult, slice_index};
ghost use Rattle.std.specs.List.{AllByRecursion};
ghost use Rattle.slips.specs.Format.{most, letter_byte, numbers, Proper, row_line};
ghost use Rattle.slips.specs.Writing.{RowOf, BadRow, Unwritten, Written, ReadBack, SameBytes};
ghost use Rattle.slips.specs.Seen.{row_seen, Handed};

use crate::digits::MOST;
use crate::faults::{Cause, WriteFault};
use crate::fields::nonzero_after_tag;
use crate::rows::{Letter, Row, Values};
use arrayvec::ArrayString;
use itoa::Buffer;

/// The bytes of the longest line: a letter, five numbers of seven digits with a comma before each, and a newline.
const LONGEST: usize = 42;

/// The first of `numbers` above the greatest, by its index.
fn too_large(numbers: &[u32]) -> Option<usize>
    ensures { MatchOption result (AllByRecursion (λ n. n ≤ most) numbers.now) (λ k. (k < length numbers.now) × ((j : ℕ) → j < k → slice_index numbers.now j ≤ most) × (most < slice_index numbers.now k)) }
{
    numbers.iter().position(|n| *n > MOST)
}

/// The row of a letter and five numbers, or why a slip may not hold it.
fn checked(letter: char, numbers: [u32; 5]) -> Result<Values, WriteFault>
    ensures { MatchResult result (λ v. RowOf letter numbers v × Proper v) (λ f. BadRow letter numbers f) }
{
    let letter = Letter::try_from(letter).map_err(|cause| WriteFault::InField(cause, 1))?;
    if let Some(k) = too_large(&numbers) {
        return Err(WriteFault::InField(Cause::BadNumber, k + 2));
    }
    if let Letter::Strike = letter
        && let Some(k) = nonzero_after_tag(&numbers)
    {
        return Err(WriteFault::InField(Cause::NotZero, k + 2));
    }
    Ok(Values::new(letter, numbers))
}

/// The line of a row, with its newline.
fn line_of(row: Values) -> ArrayString<LONGEST>
    requires { Proper row }
    ensures { result.bytes ≡ row_line row }
{
    let mut line = ArrayString::new();
    let mut digits = Buffer::new();
    line.push(char::from(row.letter));
    for n in row.numbers() {
        line.push(',');
        line.push_str(digits.format(n));
    }
    line.push('\n');
    line
}

/// Writes the row of a letter and five numbers, with its newline, at the front of `out`, and says how long it is. The
/// bytes after it stay; a refusal writes nothing. (The letter is any char and not a `Letter`: to refuse a wrong one is what this is
/// for; with a `Letter` its caller would have to.)
pub fn write_row(letter: char, numbers: [u32; 5], out: &mut [u8]) -> Result<usize, WriteFault>
    ensures answer { MatchResult result (λ n. Written letter numbers out.old out.new n) (λ f. Unwritten letter numbers (length out.old) f × (out.new ≡ out.old)) }
    ensures back { IfOk result (λ n. ReadBack letter numbers (take n out.new)) }
{
    let row = checked(letter, numbers)?;
    let line = line_of(row);
    let len = line.len();
    if out.len() < len {
        return Err(WriteFault::ShortBuffer);
    }
    out[..len].copy_from_slice(line.as_str().as_bytes());
    Ok(len)
}

impl Row<'_> {
    /// Writes the row again. Of a row that was handed out of a slip, the bytes written are those of its line in the slip,
    /// and nothing but a short buffer is refused.
    pub fn write(&self, out: &mut [u8]) -> Result<usize, WriteFault>
        ensures answer { MatchResult result (λ n. Written (letter_byte self.now.values.letter) (numbers self.now.values) out.old out.new n) (λ f. Unwritten (letter_byte self.now.values.letter) (numbers self.now.values) (length out.old) f × (out.new ≡ out.old)) }
        ensures same { (slip : List ℕ) → Handed slip (row_seen self.now) → SameBytes self.now slip result out.new }
    {
        let letter = char::from(self.values.letter);
        write_row(letter, self.values.numbers(), out)
    }
}
