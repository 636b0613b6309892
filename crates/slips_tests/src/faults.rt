// Rows that are at fault, each cause at its edges.
use crate::reading::check_read;
use crate::sample::{NAMES_LINE, SAMPLE};
use slips::{Cause, Fault};
use std::alloc::Global;
use std::process::Abort;
use std::test::Fail;

/// What follows the good lines of a slip, and the fault that it is: the cause, the field, and the byte where the field
/// or the line begins, counted from the end of the good lines.
type Case = (&'static [u8], Cause, usize, u8);

/// Checks the fault of a case in two slips: after the names line alone, and after the rows of the sample.
fn check_case(rt: &(impl Abort + Alloc<A = Global>), case: &Case, note: &str) -> Result<(), Fail> {
    let (line, cause, field, at) = *case;
    let first = [NAMES_LINE, line].concat(rt.alloc())?;
    let fault = Fault {
        cause,
        line: 2,
        field,
        byte: NAMES_LINE.len() + usize::from(at),
    };
    check_read(rt, first.as_slice(), 0, Some(fault), note)?;
    let later = [SAMPLE, line].concat(rt.alloc())?;
    let fault = Fault {
        cause,
        line: 9,
        field,
        byte: SAMPLE.len() + usize::from(at),
    };
    check_read(rt, later.as_slice(), 7, Some(fault), note)
}

fn check_cases(rt: &(impl Abort + Alloc<A = Global>), cases: &[Case]) -> Result<(), Fail> {
    for (i, case) in cases.iter().enumerate() {
        let note = format!(in rt.alloc(); "in case {i}")?;
        check_case(rt, case, note.as_str())?;
    }
    Ok(())
}

const WRONG_FIELDS: [Case; 7] = [
    (b"G,2,1,0,300\n", Cause::NotSixFields, 0, 0),
    (b"G,2,1,0,300,50,0\n", Cause::NotSixFields, 0, 0),
    (b"G,2,1,0,300,50,\n", Cause::NotSixFields, 0, 0),
    (b"G\n", Cause::NotSixFields, 0, 0),
    (b"\n", Cause::NotSixFields, 0, 0),
    (b"G;2;1;0;300;50\n", Cause::NotSixFields, 0, 0),
    // the letter is not looked at before the fields are counted
    (b"g,2,1,0,300\n", Cause::NotSixFields, 0, 0),
];

#[test]
fn a_row_has_six_fields(rt: HostRuntime) -> Result<(), Fail> {
    check_cases(&rt, &WRONG_FIELDS)
}

const WRONG_LETTERS: [Case; 8] = [
    (b"g,2,1,0,300,50\n", Cause::BadLetter, 1, 0),
    (b"s,3,0,0,0,0\n", Cause::BadLetter, 1, 0),
    (b",2,1,0,300,50\n", Cause::BadLetter, 1, 0),
    (b"GG,2,1,0,300,50\n", Cause::BadLetter, 1, 0),
    (b" G,2,1,0,300,50\n", Cause::BadLetter, 1, 0),
    (b"G ,2,1,0,300,50\n", Cause::BadLetter, 1, 0),
    (b"\xc7,2,1,0,300,50\n", Cause::BadLetter, 1, 0),
    // no number is looked at before the letter
    (b"g,02,1,0,300,x\n", Cause::BadLetter, 1, 0),
];

#[test]
fn the_letter_is_g_or_s(rt: HostRuntime) -> Result<(), Fail> {
    check_cases(&rt, &WRONG_LETTERS)
}

const WRONG_NUMBERS: [Case; 19] = [
    (b"G,00,1,0,300,50\n", Cause::BadNumber, 2, 2),
    (b"G,01,1,0,300,50\n", Cause::BadNumber, 2, 2),
    (b"G,,1,0,300,50\n", Cause::BadNumber, 2, 2),
    (b"G,1000001,1,0,300,50\n", Cause::BadNumber, 2, 2),
    (b"G,2,-1,0,300,50\n", Cause::BadNumber, 3, 4),
    (b"G,2,+1,0,300,50\n", Cause::BadNumber, 3, 4),
    (
        b"G,2,12345678901234567890,0,300,50\n",
        Cause::BadNumber,
        3,
        4,
    ),
    (b"G,2,1, 1,300,50\n", Cause::BadNumber, 4, 6),
    (b"G,2,1,1 ,300,50\n", Cause::BadNumber, 4, 6),
    (b"G,2,1,01,300,50\n", Cause::BadNumber, 4, 6),
    (b"G,2,1,0,,50\n", Cause::BadNumber, 5, 8),
    (b"G,2,1,0,1000001,50\n", Cause::BadNumber, 5, 8),
    // 2^32, which is 0 in 32 bits
    (b"G,2,1,0,4294967296,50\n", Cause::BadNumber, 5, 8),
    (b"G,2,1,0,300,\n", Cause::BadNumber, 6, 12),
    (
        b"G,2,1,0,300,00000000000000000000\n",
        Cause::BadNumber,
        6,
        12,
    ),
    // the bytes just before and just after the digits
    (b"G,2,1,0,300,5/\n", Cause::BadNumber, 6, 12),
    (b"G,2,1,0,300,5:\n", Cause::BadNumber, 6, 12),
    (b"G,2,1,0,300,50\r\n", Cause::BadNumber, 6, 12),
    // the first wrong field counts
    (b"G,2,1,x,300,01\n", Cause::BadNumber, 4, 6),
];

#[test]
fn a_number_is_written_in_one_way_up_to_a_million(rt: HostRuntime) -> Result<(), Fail> {
    check_cases(&rt, &WRONG_NUMBERS)
}

const WRONG_STRIKES: [Case; 8] = [
    (b"S,3,7,0,0,0\n", Cause::NotZero, 3, 4),
    (b"S,3,0,7,0,0\n", Cause::NotZero, 4, 6),
    (b"S,3,0,0,7,0\n", Cause::NotZero, 5, 8),
    (b"S,3,0,0,0,7\n", Cause::NotZero, 6, 10),
    (b"S,1000000,0,0,0,1000000\n", Cause::NotZero, 6, 16),
    // the first field that is not 0 counts
    (b"S,3,0,1,0,2\n", Cause::NotZero, 4, 6),
    // every number is read before one is held against 0
    (b"S,3,0,1,x,0\n", Cause::BadNumber, 5, 8),
    (b"S,3,1,0,0,1000001\n", Cause::BadNumber, 6, 10),
];

#[test]
fn a_strike_has_zeros_after_its_tag(rt: HostRuntime) -> Result<(), Fail> {
    check_cases(&rt, &WRONG_STRIKES)
}

const UNENDED: [Case; 5] = [
    (b"G,2,1,0,300,50", Cause::Unended, 0, 0),
    (b"G", Cause::Unended, 0, 0),
    // the newline is looked for before anything else
    (b"G,2,1,0,300", Cause::Unended, 0, 0),
    (b"g,02,1,0,300,50", Cause::Unended, 0, 0),
    // and in a later line only once that is reached
    (b"g,2,1,0,300,50\nG,2", Cause::BadLetter, 1, 0),
];

#[test]
fn a_row_ends_with_a_newline(rt: HostRuntime) -> Result<(), Fail> {
    check_cases(&rt, &UNENDED)
}
