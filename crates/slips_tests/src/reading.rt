// Slips that are read whole: what a slip may hold, its names line, and its greatest length.
use crate::sample::NAMES_LINE;
use slips::{Cause, Fault, read_slip};
use std::alloc::{AllocError, Global};
use std::process::Abort;
use std::test::Fail;

/// Checks how many rows a slip has before its end or its first fault, and that fault; the note says where it failed.
pub(crate) fn check_read(
    rt: &(impl Abort + Alloc<A = Global>),
    slip: &[u8],
    rows: usize,
    fault: Option<Fault>,
    note: &str,
) -> Result<(), Fail> {
    let contents = read_slip(rt.alloc(), slip)?;
    assert_eq!(rt; contents.rows.len(), rows, "{note}");
    assert_eq!(rt; contents.fault, fault, "{note}");
    Ok(())
}

/// The least and the greatest number of each field, in a growth and in a strike.
const EDGES: &[u8] = b"edit,tag,parent,couplings,run,drop\n\
    G,0,0,0,0,0\n\
    G,1000000,1000000,1000000,1000000,1000000\n\
    S,0,0,0,0,0\n\
    S,1000000,0,0,0,0\n";

#[test]
fn a_slip_may_hold_any_rows_or_none(rt: HostRuntime) -> Result<(), Fail> {
    check_read(&rt, NAMES_LINE, 0, None, "the names line alone")?;
    check_read(&rt, EDGES, 4, None, "the edges of each field")
}

/// Slips that are at fault before their first row.
const NO_NAMES: [(&[u8], Cause); 10] = [
    (b"", Cause::NotNames),
    (b"\n", Cause::NotNames),
    (b"G,2,1,0,300,50\n", Cause::NotNames),
    (b"Edit,tag,parent,couplings,run,drop\n", Cause::NotNames),
    (b"edit,tag,parent,couplings,run\n", Cause::NotNames),
    (b"edit,tag,parent,couplings,run,drop,\n", Cause::NotNames),
    (b"edit,tag,parent,couplings,run,drop\r\n", Cause::NotNames),
    (b"\nedit,tag,parent,couplings,run,drop\n", Cause::NotNames),
    (b"edit,tag,parent,couplings,run,drop", Cause::Unended),
    (b"G", Cause::Unended),
];

#[test]
fn the_first_line_is_the_names(rt: HostRuntime) -> Result<(), Fail> {
    for (i, (slip, cause)) in NO_NAMES.iter().enumerate() {
        let fault = Fault {
            cause: *cause,
            line: 1,
            field: 0,
            byte: 0,
        };
        let note = format!(in rt.alloc(); "in case {i}")?;
        check_read(&rt, *slip, 0, Some(fault), note.as_str())?;
    }
    Ok(())
}

/// The names line, 5457 rows of 12 bytes, and a last row: 65,519 bytes and that row.
fn long_slip(heap: Global, last: &[u8]) -> Result<Vec<u8>, AllocError> {
    let mut slip = NAMES_LINE.to_vec(heap)?;
    for _ in 0..5457 {
        slip.extend_from_slice(b"G,0,0,0,0,0\n")?;
    }
    slip.extend_from_slice(last)?;
    Ok(slip)
}

#[test]
fn a_slip_has_at_most_65536_bytes(rt: HostRuntime) -> Result<(), Fail> {
    let longest = long_slip(rt.alloc(), b"G,100000,0,0,0,0\n")?;
    assert_eq!(rt; longest.len(), 65_536);
    check_read(&rt, longest.as_slice(), 5458, None, "the longest slip")?;
    let too_long = long_slip(rt.alloc(), b"G,1000000,0,0,0,0\n")?;
    assert_eq!(rt; too_long.len(), 65_537);
    let fault = Fault {
        cause: Cause::TooLong,
        line: 0,
        field: 0,
        byte: 0,
    };
    check_read(
        &rt,
        too_long.as_slice(),
        0,
        Some(fault),
        "one byte too long",
    )?;
    // the length comes before every other cause
    let unended = vec![in rt.alloc(); b'g'; 65_537]?;
    check_read(
        &rt,
        unended.as_slice(),
        0,
        Some(fault),
        "too long with no line",
    )
}
