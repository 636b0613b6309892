// Why an edit or a look is refused.
ghost use Rattle.std.specs.Prelude.{◌≡◌};
ghost use Rattle.books.specs.Causes.{refusal_number, refused};

/// Why a book refuses a call.
#[derive(Clone, Copy, PartialEq, Eq, Debug)]
pub enum Refusal {
    OutOfRange = 1,
    BadParent = 2,
    BadRun = 3,
    BadDrop = 4,
    TagStands = 5,
    TagStruck = 6,
    ParentBlank = 7,
    ParentStruck = 8,
    TagBlank = 9,
}

impl Refusal {
    /// The number of this refusal in the table of refusals. (A name says which number it is, and `From` would not.)
    pub fn number(self) -> u8
        ensures { result ≡ refusal_number self }
    {
        self as u8
    }

    /// This refusal with the tag that was to be grown, struck or looked at.
    pub fn of_tag(self, tag: u32) -> Refused
        ensures { result ≡ refused self tag }
    {
        Refused { cause: self, tag }
    }
}

/// A refusal, with the tag that was to be grown, struck or looked at.
#[derive(Clone, Copy, PartialEq, Eq, Debug)]
pub struct Refused {
    pub cause: Refusal,
    pub tag: u32,
}
