// Rows that are written, and rows that are refused.
use crate::sample::NAMES_LINE;
use slips::{Cause, WriteFault, read_slip, write_row};
use std::alloc::Global;
use std::process::Abort;
use std::test::Fail;

/// A letter and five numbers that are to be written as a row, with what to say where a check fails.
#[derive(Clone, Copy)]
struct Asked<'a> {
    letter: char,
    numbers: [u32; 5],
    note: &'a str,
}

impl Asked<'_> {
    /// What writing into the first `room` bytes of a buffer of dots answers, and the buffer after it.
    fn over_dots(&self, rt: &impl Abort, room: usize) -> (Result<usize, WriteFault>, [u8; 50]) {
        let note = self.note;
        assert!(rt; room <= 50, "{note}");
        let mut buffer = [b'.'; 50];
        let answer = write_row(self.letter, self.numbers, &mut buffer[0..room]);
        (answer, buffer)
    }

    /// Checks that the row is refused in a buffer of so many bytes, and that nothing is written.
    fn check_refused(&self, rt: &impl Abort, room: usize, fault: WriteFault) {
        let note = self.note;
        let (answer, buffer) = self.over_dots(rt, room);
        assert_eq!(rt; answer.err(), Some(fault), "{note}");
        assert_eq!(rt; buffer, [b'.'; 50], "{note}");
    }

    /// Checks that the row is written as this line in a buffer of so many bytes, and that the bytes after it stay.
    fn check_written(&self, rt: &impl Abort, room: usize, line: &[u8]) {
        let note = self.note;
        let (answer, buffer) = self.over_dots(rt, room);
        assert_eq!(rt; answer.ok(), Some(line.len()), "{note}");
        assert!(rt; buffer.starts_with(line), "{note}");
        for b in buffer.iter().skip(line.len()) {
            assert_eq!(rt; *b, b'.', "{note}");
        }
    }

    /// Checks that the line is read back as this row.
    fn check_read_back(
        &self,
        rt: &(impl Abort + Alloc<A = Global>),
        line: &[u8],
    ) -> Result<(), Fail> {
        let note = self.note;
        let slip = [NAMES_LINE, line].concat(rt.alloc())?;
        let contents = read_slip(rt.alloc(), slip.as_slice())?;
        assert!(rt; contents.fault.is_none(), "{note}");
        assert_eq!(rt; contents.rows.len(), 1, "{note}");
        for row in &contents.rows {
            assert_eq!(rt; char::from(row.values.letter), self.letter, "{note}");
            assert_eq!(rt; row.values.numbers(), self.numbers, "{note}");
        }
        Ok(())
    }

    /// Checks that the row is written as this line where the line has room, and that the line is read back as the row.
    fn check_line(&self, rt: &(impl Abort + Alloc<A = Global>), line: &[u8]) -> Result<(), Fail> {
        let note = self.note;
        let len = line.len();
        assert!(rt; 1 <= len, "{note}");
        self.check_refused(rt, len - 1, WriteFault::ShortBuffer);
        self.check_written(rt, len, line);
        self.check_written(rt, 50, line);
        self.check_read_back(rt, line)
    }
}

const LINES: [(char, [u32; 5], &[u8]); 7] = [
    ('G', [2, 1, 0, 300, 50], b"G,2,1,0,300,50\n"),
    ('G', [0, 0, 0, 0, 0], b"G,0,0,0,0,0\n"),
    ('G', [9, 10, 99, 100, 999], b"G,9,10,99,100,999\n"),
    (
        'G',
        [1000, 9999, 10_000, 99_999, 100_000],
        b"G,1000,9999,10000,99999,100000\n",
    ),
    (
        'G',
        [1_000_000; 5],
        b"G,1000000,1000000,1000000,1000000,1000000\n",
    ),
    ('S', [3, 0, 0, 0, 0], b"S,3,0,0,0,0\n"),
    ('S', [1_000_000, 0, 0, 0, 0], b"S,1000000,0,0,0,0\n"),
];

#[test]
fn a_row_is_written_and_read_back(rt: HostRuntime) -> Result<(), Fail> {
    for (i, (letter, numbers, line)) in LINES.iter().enumerate() {
        let note = format!(in rt.alloc(); "in case {i}")?;
        let asked = Asked {
            letter: *letter,
            numbers: *numbers,
            note: note.as_str(),
        };
        asked.check_line(&rt, *line)?;
    }
    Ok(())
}

const REFUSED: [(char, [u32; 5], Cause, usize); 19] = [
    ('g', [2, 1, 0, 300, 50], Cause::BadLetter, 1),
    ('s', [3, 0, 0, 0, 0], Cause::BadLetter, 1),
    (',', [2, 1, 0, 300, 50], Cause::BadLetter, 1),
    // the low byte of this letter is that of G
    ('\u{147}', [2, 1, 0, 300, 50], Cause::BadLetter, 1),
    ('G', [1_000_001, 1, 0, 300, 50], Cause::BadNumber, 2),
    ('G', [2, 1_000_001, 0, 300, 50], Cause::BadNumber, 3),
    ('G', [2, 1, 1_000_001, 300, 50], Cause::BadNumber, 4),
    ('G', [2, 1, 0, 1_000_001, 50], Cause::BadNumber, 5),
    ('G', [2, 1, 0, 300, 1_000_001], Cause::BadNumber, 6),
    ('G', [2, 1, 0, 300, u32::MAX], Cause::BadNumber, 6),
    ('S', [3, 7, 0, 0, 0], Cause::NotZero, 3),
    ('S', [3, 0, 7, 0, 0], Cause::NotZero, 4),
    ('S', [3, 0, 0, 7, 0], Cause::NotZero, 5),
    ('S', [3, 0, 0, 0, 7], Cause::NotZero, 6),
    // the first field of a cause counts
    ('G', [2, 1_000_001, 0, 1_000_001, 50], Cause::BadNumber, 3),
    ('S', [3, 0, 1, 0, 2], Cause::NotZero, 4),
    // the letter comes before the numbers, and numbers that are too large come before those that are not 0
    ('g', [1_000_001, 1, 0, 300, 50], Cause::BadLetter, 1),
    ('S', [3, 1, 0, 0, 1_000_001], Cause::BadNumber, 6),
    ('S', [1_000_001, 1, 0, 0, 0], Cause::BadNumber, 2),
];

#[test]
fn a_wrong_row_is_not_written(rt: HostRuntime) -> Result<(), Fail> {
    for (i, (letter, numbers, cause, field)) in REFUSED.iter().enumerate() {
        let fault = WriteFault::InField(*cause, *field);
        let note = format!(in rt.alloc(); "in case {i}")?;
        let asked = Asked {
            letter: *letter,
            numbers: *numbers,
            note: note.as_str(),
        };
        asked.check_refused(&rt, 50, fault);
        // that the buffer is too short comes last
        let note = format!(in rt.alloc(); "in case {i}, no room")?;
        let asked = Asked {
            note: note.as_str(),
            ..asked
        };
        asked.check_refused(&rt, 0, fault);
    }
    Ok(())
}

const NUMBERS: [(Cause, u8); 7] = [
    (Cause::TooLong, 19),
    (Cause::NotNames, 20),
    (Cause::NotSixFields, 21),
    (Cause::BadLetter, 22),
    (Cause::BadNumber, 23),
    (Cause::NotZero, 24),
    (Cause::Unended, 25),
];

#[test]
fn a_refusal_has_its_number(rt: HostRuntime) {
    for (cause, number) in &NUMBERS {
        assert_eq!(rt; cause.number(), *number);
        assert_eq!(rt; WriteFault::InField(*cause, 3).number(), *number);
    }
    assert_eq!(rt; WriteFault::ShortBuffer.number(), 12);
}
