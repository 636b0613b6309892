// The reader, one reading after another.
use crate::sample::{NAMES_LINE, SAMPLE};
use slips::{Cause, Fault, Reader};
use std::process::Abort;
use std::test::Fail;

/// Checks that the next reading is the row of this line, and that it begins at this byte.
fn check_row(
    rt: &impl Abort,
    reader: &mut Reader<'_>,
    line: usize,
    byte: usize,
) -> Result<(), Fail> {
    let Ok(Some(row)) = reader.read() else {
        return Err(Fail::new("no row"));
    };
    assert_eq!(rt; row.line, line);
    assert_eq!(rt; row.letter.place, byte);
    Ok(())
}

/// Checks that the next reading is this fault.
fn check_fault(rt: &impl Abort, reader: &mut Reader<'_>, fault: Fault) -> Result<(), Fail> {
    let Err(found) = reader.read() else {
        return Err(Fail::new("no fault"));
    };
    assert_eq!(rt; found, fault);
    Ok(())
}

/// Checks that the next reading is the end.
fn check_end(reader: &mut Reader<'_>) -> Result<(), Fail> {
    let Ok(None) = reader.read() else {
        return Err(Fail::new("no end"));
    };
    Ok(())
}

/// Where each row of the sample begins.
const PLACES: [(usize, usize); 7] = [
    (2, 35),
    (3, 50),
    (4, 64),
    (5, 80),
    (6, 94),
    (7, 106),
    (8, 120),
];

#[test]
fn the_end_comes_after_the_rows_and_stays(rt: HostRuntime) -> Result<(), Fail> {
    let mut reader = Reader::new(SAMPLE);
    for (line, byte) in &PLACES {
        check_row(&rt, &mut reader, *line, *byte)?;
    }
    check_end(&mut reader)?;
    check_end(&mut reader)?;
    let mut reader = Reader::new(NAMES_LINE);
    check_end(&mut reader)?;
    check_end(&mut reader)
}

#[test]
fn a_fault_is_read_again(rt: HostRuntime) -> Result<(), Fail> {
    let slip = b"edit,tag,parent,couplings,run,drop\nG,2,1,0,300,50\nG,3,1,1,020,0\nG,3,1,1,20,0\n";
    let fault = Fault {
        cause: Cause::BadNumber,
        line: 3,
        field: 5,
        byte: 58,
    };
    let mut reader = Reader::new(slip);
    check_row(&rt, &mut reader, 2, 35)?;
    check_fault(&rt, &mut reader, fault)?;
    check_fault(&rt, &mut reader, fault)?;
    check_fault(&rt, &mut reader, fault)
}

#[test]
fn a_fault_in_the_first_row_is_read_again(rt: HostRuntime) -> Result<(), Fail> {
    let slip = b"edit,tag,parent,couplings,run,drop\ng,2,1,0,300,50\n";
    let fault = Fault {
        cause: Cause::BadLetter,
        line: 2,
        field: 1,
        byte: 35,
    };
    let mut reader = Reader::new(slip);
    check_fault(&rt, &mut reader, fault)?;
    check_fault(&rt, &mut reader, fault)
}

#[test]
fn a_fault_of_the_names_is_read_again(rt: HostRuntime) -> Result<(), Fail> {
    let fault = Fault {
        cause: Cause::NotNames,
        line: 1,
        field: 0,
        byte: 0,
    };
    let mut reader = Reader::new(b"");
    check_fault(&rt, &mut reader, fault)?;
    check_fault(&rt, &mut reader, fault)?;
    let mut reader = Reader::new(b"G,2,1,0,300,50\n");
    check_fault(&rt, &mut reader, fault)?;
    check_fault(&rt, &mut reader, fault)
}
