// One row: its letter, its fields and its values.
ghost use Rattle.std.specs.Prelude.{◌≡◌, ℕ, ◌+◌, ◌^◌, ◌<◌, ◌≤◌, List, ◌∷◌, ◌++◌, map, length, drop, decimal, MatchOption, MatchResult, ◌≢◌};
ghost use Rattle.std.specs.List.{AllByRecursion};
ghost use Rattle.slips.specs.declared.faults.Cause.TheVariants.{BadLetter, BadNumber};
ghost use Rattle.slips.specs.declared.faults.RowFault.{RowFault as ARowFault};
ghost use Rattle.slips.specs.declared.rows.Letter.{Letter as ALetter};
ghost use Rattle.slips.specs.Causes.{row_fault, placed};
ghost use Rattle.slips.specs.Format.{most, letter_byte, numbers, Proper, commaed, row_text};
ghost use Rattle.slips.specs.Rules.{Free, Number, IsNumber, FirstNonzero, NumberFault, LineFault};
ghost use Rattle.slips.specs.Layout.{laid, field_seen};
ghost use Rattle.slips.specs.Seen.{row_seen, found};
ghost use Rattle.slips.specs.Inner.{bytes_of, parts_seen, shifted, count};

use crate::cursor::Reader;
use crate::digits::number;
use crate::faults::{Cause, Fault, RowFault};
use crate::lines::{count_of, cut};
use crate::rows::{Field, Letter, Row, Values};

/// What the letter of a line says, and what stands after its comma.
fn letter_of(line: &[u8]) -> Result<(Letter, &[u8]), Cause>
    ensures { MatchResult result (λ p. line.now ≡ letter_byte p.0 ∷ (44 ∷ p.1.now)) (λ e. (e ≡ BadLetter) × ((l : ALetter) (rest : List ℕ) → line.now ≢ letter_byte l ∷ (44 ∷ rest))) }
{
    let [letter, b',', rest @ ..] = line else {
        return Err(Cause::BadLetter);
    };
    let letter = Letter::try_from(char::from(*letter))?;
    Ok((letter, rest))
}

/// The field before the first comma of `rest`, and what follows that comma.
fn next_field<'a>(rest: Field<'a>) -> (Field<'a>, Field<'a>)
    requires comma { 0 < count 44 rest.bytes.now }
    requires fits { rest.place + length rest.bytes.now < 2 ^ 64 }
    ensures text { rest.entry.bytes.now ≡ result.0.bytes.now ++ 44 ∷ result.1.bytes.now }
    ensures free { Free 44 result.0.bytes.now }
    ensures counted { count 44 result.1.bytes.now + 1 ≡ count 44 rest.entry.bytes.now }
    ensures first { result.0.place ≡ rest.entry.place }
    ensures second { result.1.place ≡ rest.entry.place + length result.0.bytes.now + 1 }
    ensures len { result.1.place + length result.1.bytes.now ≡ rest.entry.place + length rest.entry.bytes.now }
{
    let Some((bytes, after)) = cut(rest.bytes, b',') else {
        unreachable!()
    };
    let place = rest.place;
    let field = Field { bytes, place };
    let rest = Field {
        bytes: after,
        place: place + bytes.len() + 1,
    };
    (field, rest)
}

/// The five fields of a row after its letter, one after another, with their places in the line.
#[derive(Clone, Copy)]
pub(crate) struct Parts<'a> {
    pub fields: [Field<'a>; 5],
    // which the type of `fields` says too, but not where a proof of another function reads it
    ghost five: { length fields ≡ 5 },
    ghost laid: { parts_seen fields ≡ laid 2 (bytes_of fields) },
}

/// The five fields of `rest`, what follows the letter and its comma.
fn split(rest: &[u8]) -> Parts<'_>
    requires commas { count 44 rest.now ≡ 4 }
    requires fits { 2 + length rest.now < 2 ^ 64 }
    ensures text { 44 ∷ rest.now ≡ commaed (bytes_of result.fields) }
    ensures free { AllByRecursion (Free 44) (bytes_of result.fields) }
{
    let rest = Field {
        bytes: rest,
        place: 2,
    };
    // the library's `split` gives the fields without their places
    let (tag, rest) = next_field(rest);
    let (parent, rest) = next_field(rest);
    let (couplings, rest) = next_field(rest);
    let (run, drop) = next_field(rest);
    Parts {
        fields: [tag, parent, couplings, run, drop],
    }
}

/// The number that the field `n` of a row writes.
fn number_in(field: Field<'_>, n: usize) -> Result<u32, RowFault>
    ensures { MatchResult result (λ v. Number field.entry.bytes.now v) (λ f. (f ≡ row_fault BadNumber n field.entry.place) × (IsNumber field.entry.bytes.now → ⊥)) }
{
    number(field.bytes).map_err(|cause| cause.in_field(n, field.place))
}

/// The first of `numbers` after the tag that is not 0, by its index.
pub(crate) fn nonzero_after_tag(numbers: &[u32]) -> Option<usize>
    ensures { MatchOption result (AllByRecursion (λ n. n ≡ 0) (drop 1 numbers.now)) (λ k. FirstNonzero numbers.now k) }
{
    let [_, after @ ..] = numbers else {
        return None;
    };
    let k = after.iter().position(|n| *n != 0)?;
    Some(k + 1)
}

impl Parts<'_> {
    /// The numbers that the fields write.
    fn numbers(&self) -> Result<[u32; 5], RowFault>
        ensures { MatchResult result (λ ns. AllByRecursion (λ n. n ≤ most) ns × (bytes_of self.now.fields ≡ map decimal ns)) (λ f. (l : ALetter) → NumberFault l (bytes_of self.now.fields) f) }
    {
        let mut numbers = [0; 5];
        // `try_map` of an array says that some field was refused, and not that it was the first
        for (k, field) in self.fields.iter().enumerate() {
            numbers[k] = number_in(*field, k + 2)?;
        }
        Ok(numbers)
    }

    /// The values of a row with this letter and these fields. A strike with a number after the tag that is not 0 is refused. (The
    /// writer tests the same of numbers that have no place in a line, so its refusal is another; what they share is
    /// `nonzero_after_tag`.)
    fn values(&self, letter: Letter) -> Result<Values, RowFault>
        ensures { MatchResult result (λ v. (v.letter ≡ letter) × Proper v × (bytes_of self.now.fields ≡ map decimal (numbers v))) (λ f. NumberFault letter (bytes_of self.now.fields) f) }
    {
        let numbers = self.numbers()?;
        if let Letter::Strike = letter
            && let Some(k) = nonzero_after_tag(&numbers)
        {
            return Err(Cause::NotZero.in_field(k + 2, self.fields[k].place));
        }
        Ok(Values::new(letter, numbers))
    }
}

/// The five fields and the values of a row, from its line without the newline. Places are those in the line.
fn read_row(line: &[u8]) -> Result<(Parts<'_>, Values), RowFault>
    ensures value { MatchResult result (λ p. Proper p.1 × (line.now ≡ row_text p.1) × (bytes_of p.0.fields ≡ map decimal (numbers p.1))) (λ f. LineFault line.now f) }
    ensures within { MatchResult result (λ p. AllByRecursion (λ t. t.place ≤ length line.now) (parts_seen p.0.fields)) (λ f. f.at ≤ length line.now) }
{
    if count_of(line, b',') != 5 {
        return Err(Cause::NotSixFields.in_field(0, 0));
    }
    let (letter, rest) = letter_of(line).map_err(|cause| cause.in_field(1, 0))?;
    let parts = split(rest);
    let values = parts.values(letter)?;
    Ok((parts, values))
}

impl<'a> Field<'a> {
    /// The same bytes, placed so many bytes further on.
    fn moved(&self, by: usize) -> Field<'a>
        requires { by + self.now.place < 2 ^ 64 }
        ensures { field_seen result ≡ shifted by (field_seen self.now) }
    {
        Field {
            bytes: self.bytes,
            place: by + self.place,
        }
    }
}

impl<'a> Reader<'a> {
    /// The row of the line that begins where the reader stands, from its bytes without the newline.
    pub(crate) fn row_of(&self, bytes: &'a [u8]) -> Result<Row<'a>, Fault>
        requires { self.now.byte + length bytes.now < 2 ^ 64 }
        ensures { MatchResult result (λ w. Proper w.values × (bytes.now ≡ row_text w.values) × (row_seen w ≡ found self.now.byte self.now.line w.values)) (λ f. (g : ARowFault) × LineFault bytes.now g × (f ≡ placed g self.now.line self.now.byte)) }
    {
        let Reader { byte, line, .. } = *self;
        let (parts, values) = read_row(bytes).map_err(|fault| fault.on_line(line, byte))?;
        let [tag, parent, couplings, run, drop] = parts.fields;
        Ok(Row {
            line,
            letter: Field {
                bytes: &bytes[..1],
                place: byte,
            },
            // one by one: with `map` of the array what its closure owes stayed unproved
            tag: tag.moved(byte),
            parent: parent.moved(byte),
            couplings: couplings.moved(byte),
            run: run.moved(byte),
            drop: drop.moved(byte),
            values,
        })
    }
}
