// Rows: what one line of a slip says.
ghost use Rattle.std.specs.Prelude.{◌≡◌, MatchResult, ◌≢◌};
ghost use Rattle.slips.specs.declared.faults.Cause.TheVariants.{BadLetter};
ghost use Rattle.slips.specs.declared.rows.Letter.{Letter as ALetter};
ghost use Rattle.slips.specs.Format.{letter_byte, numbers};

use crate::faults::Cause;

/// The letter of a row, by the byte that stands for it in a slip, and what the row asks for.
#[derive(Clone, Copy, PartialEq, Eq, Debug)]
pub enum Letter {
    Growth = b'G' as isize,
    Strike = b'S' as isize,
}

/// What a row says: its letter and its five numbers.
#[derive(Clone, Copy, PartialEq, Eq, Debug)]
pub struct Values {
    pub letter: Letter,
    pub tag: u32,
    pub parent: u32,
    pub couplings: u32,
    pub run: u32,
    pub drop: u32,
}

/// A field of a row: a part of the slip, and the byte of the slip where it begins.
#[derive(Clone, Copy, PartialEq, Eq, Debug)]
pub struct Field<'a> {
    pub bytes: &'a [u8],
    pub place: usize,
}

/// A row of a slip: its line, from 1, its six fields, and its values. (The fields have names and not numbers: a caller asks for
/// one of them, as it does of the values.)
#[derive(Clone, Copy, PartialEq, Eq, Debug)]
pub struct Row<'a> {
    pub line: usize,
    pub letter: Field<'a>,
    pub tag: Field<'a>,
    pub parent: Field<'a>,
    pub couplings: Field<'a>,
    pub run: Field<'a>,
    pub drop: Field<'a>,
    pub values: Values,
}

impl TryFrom<char> for Letter {
    type Error = Cause;

    ghost try_from_gives = { λ c r. MatchResult r (λ l. c ≡ letter_byte l) (λ e. (e ≡ BadLetter) × ((l : ALetter) → c ≢ letter_byte l)) };

    fn try_from(letter: char) -> Result<Letter, Cause> {
        match letter {
            'G' => Ok(Letter::Growth),
            'S' => Ok(Letter::Strike),
            _ => Err(Cause::BadLetter),
        }
    }
}

impl From<Letter> for u8 {
    ghost from_gives = { λ letter byte. byte ≡ letter_byte letter };

    fn from(letter: Letter) -> u8 {
        letter as u8
    }
}

impl From<Letter> for char {
    ghost from_gives = { λ letter sign. sign ≡ letter_byte letter };

    fn from(letter: Letter) -> char {
        char::from(u8::from(letter))
    }
}

impl Values {
    /// The values of a letter and five numbers, in the order of the fields.
    pub(crate) fn new(letter: Letter, five: [u32; 5]) -> Values
        ensures letter { result.letter ≡ letter }
        ensures numbers { numbers result ≡ five }
    {
        let [tag, parent, couplings, run, drop] = five;
        Values {
            letter,
            tag,
            parent,
            couplings,
            run,
            drop,
        }
    }

    /// The five numbers, in the order of the fields.
    pub fn numbers(&self) -> [u32; 5]
        ensures { result ≡ numbers self.now }
    {
        [self.tag, self.parent, self.couplings, self.run, self.drop]
    }
}
