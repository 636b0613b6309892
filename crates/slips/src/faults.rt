// Faults: the causes by which a slip is refused, and the three layers through which one rises.
ghost use Rattle.std.specs.Prelude.{◌≡◌, ◌+◌, ◌^◌, ◌<◌};
ghost use Rattle.slips.specs.Causes.{cause_number, write_number, row_fault, slip_fault, placed};

/// Why a slip or a row is refused, by its number in the table of refusals. Of itself a cause knows no place: digits
/// answer it bare.
#[derive(Clone, Copy, PartialEq, Eq, Debug)]
pub enum Cause {
    TooLong = 19,
    NotNames = 20,
    NotSixFields = 21,
    BadLetter = 22,
    BadNumber = 23,
    NotZero = 24,
    Unended = 25,
}

impl Cause {
    /// The number of this cause in the table of refusals. (A method, not a `From`: `fault.cause.number()` says which number it
    /// is, and `u8::from(fault.cause)` does not. `Refusal` of crate `books` has the other numbers of that table; one trait for the
    /// two would need a crate of its own under both, for one line each.)
    pub fn number(self) -> u8
        ensures { result ≡ cause_number self }
    {
        self as u8
    }

    /// This cause with its field, which begins at byte `at` of the line.
    pub(crate) fn in_field(self, field: usize, at: usize) -> RowFault
        ensures { result ≡ row_fault self field at }
    {
        RowFault {
            cause: self,
            field,
            at,
        }
    }
}

/// A cause in a row: the field where it stands, from 1, or 0, and the byte of the line where that field begins.
#[derive(Clone, Copy, PartialEq, Eq, Debug)]
pub(crate) struct RowFault {
    pub cause: Cause,
    pub field: usize,
    pub at: usize,
}

impl RowFault {
    /// This fault with its line, which begins at `byte`.
    pub(crate) fn on_line(self, line: usize, byte: usize) -> Fault
        requires { byte + self.at < 2 ^ 64 }
        ensures { result ≡ placed self line byte }
    {
        Fault {
            cause: self.cause,
            line,
            field: self.field,
            byte: byte + self.at,
        }
    }
}

/// A cause in a slip: the line, from 1, the field, and the byte of the slip where the field or the line begins. (No field, or
/// no line, is 0, as the table of refusals has it; a report prints the line, with the 0 too.)
#[derive(Clone, Copy, PartialEq, Eq, Debug)]
pub struct Fault {
    pub cause: Cause,
    pub line: usize,
    pub field: usize,
    pub byte: usize,
}

impl Fault {
    /// A fault of a whole line, or of no line, with no field.
    pub(crate) fn of_line(cause: Cause, line: usize, byte: usize) -> Fault
        ensures { result ≡ slip_fault cause line 0 byte }
    {
        Fault {
            cause,
            line,
            field: 0,
            byte,
        }
    }
}

/// Why a row is not written: a cause in a field, or a buffer shorter than the line.
#[derive(Clone, Copy, PartialEq, Eq, Debug)]
pub enum WriteFault {
    InField(Cause, usize),
    ShortBuffer,
}

impl WriteFault {
    /// The number of this refusal in the table of refusals.
    pub fn number(self) -> u8
        ensures { result ≡ write_number self }
    {
        // no number can stand beside a variant that carries its cause
        match self {
            WriteFault::InField(cause, _) => cause.number(),
            WriteFault::ShortBuffer => 12,
        }
    }
}
