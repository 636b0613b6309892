// The sample slip: seven rows and no fault.
use slips::{Field, Letter, Row, read_slip};
use std::process::Abort;
use std::test::Fail;

/// The names line, with its newline.
pub const NAMES_LINE: &[u8] = b"edit,tag,parent,couplings,run,drop\n";

/// A slip without a fault.
pub const SAMPLE: &[u8] = b"edit,tag,parent,couplings,run,drop\n\
    G,2,1,0,300,50\n\
    G,3,1,1,200,0\n\
    G,4,2,1,400,100\n\
    G,5,2,0,150,0\n\
    S,3,0,0,0,0\n\
    G,3,1,1,200,0\n\
    G,6,3,0,100,0\n";

/// What the rows of the sample say: each with its line.
const SAMPLE_ROWS: [(usize, Letter, [u32; 5]); 7] = [
    (2, Letter::Growth, [2, 1, 0, 300, 50]),
    (3, Letter::Growth, [3, 1, 1, 200, 0]),
    (4, Letter::Growth, [4, 2, 1, 400, 100]),
    (5, Letter::Growth, [5, 2, 0, 150, 0]),
    (6, Letter::Strike, [3, 0, 0, 0, 0]),
    (7, Letter::Growth, [3, 1, 1, 200, 0]),
    (8, Letter::Growth, [6, 3, 0, 100, 0]),
];

#[test]
fn the_sample_has_seven_rows(rt: HostRuntime) -> Result<(), Fail> {
    let contents = read_slip(rt.alloc(), SAMPLE)?;
    assert!(rt; contents.fault.is_none());
    assert_eq!(rt; contents.rows.len(), 7);
    for (row, (line, letter, numbers)) in contents.rows.iter().zip(SAMPLE_ROWS.iter()) {
        assert_eq!(rt; row.line, *line);
        assert_eq!(rt; row.values.letter, *letter);
        assert_eq!(rt; row.values.numbers(), *numbers);
    }
    Ok(())
}

/// A field with these bytes, at this place of the slip.
fn field(bytes: &[u8], place: usize) -> Field<'_> {
    Field { bytes, place }
}

#[test]
fn a_field_is_a_part_of_the_slip(rt: HostRuntime) -> Result<(), Fail> {
    let contents = read_slip(rt.alloc(), SAMPLE)?;
    let row = contents.rows.get(2).copied().ok_or("no third row")?;
    assert_eq!(rt; row.letter, field(b"G", 64));
    assert_eq!(rt; row.tag, field(b"4", 66));
    assert_eq!(rt; row.parent, field(b"2", 68));
    assert_eq!(rt; row.couplings, field(b"1", 70));
    assert_eq!(rt; row.run, field(b"400", 72));
    assert_eq!(rt; row.drop, field(b"100", 76));
    Ok(())
}

/// Writes a row at the end of a slip.
fn append(rt: &impl Abort, slip: &mut Vec<u8>, row: Row<'_>) -> Result<(), Fail> {
    let mut line = [0u8; 42];
    let len = row.write(&mut line)?;
    assert!(rt; len <= 42);
    slip.extend_from_slice(&line[0..len])?;
    Ok(())
}

#[test]
fn rows_that_are_read_and_written_give_the_same_bytes(rt: HostRuntime) -> Result<(), Fail> {
    let contents = read_slip(rt.alloc(), SAMPLE)?;
    let mut slip = NAMES_LINE.to_vec(rt.alloc())?;
    for row in &contents.rows {
        append(&rt, &mut slip, *row)?;
    }
    assert!(rt; slip.as_slice() == SAMPLE);
    Ok(())
}
