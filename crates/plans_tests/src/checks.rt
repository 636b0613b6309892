// What measures and plans are refused with, and what each call leaves of the memory.
use crate::asked::{mm, plant};
use books::Book;
use lengths::KindM;
use plans::{Denial, distance, hub, length, reach, spine, sum, trunk};
use std::process::Abort;
use tables::{Row, TableBook};

/// Grows the points 2, 3 and 4 in a book of five tags, and strikes 4; tag 5 stays blank.
fn prepare<B: Book<Kind = KindM>>(rt: &impl Abort, book: &mut B) {
    plant(rt, book, &[(2, 1, 3, 0), (3, 2, 4, 0), (4, 2, 5, 0)]);
    assert!(rt; book.strike(4).is_ok());
}

// two tags, and the number and the tag of the refusal, as docs/refusals.md has them
const REFUSED: [(u32, u32, u8, u32); 9] = [
    (0, 300, 1, 0),
    (6, 1, 1, 6),
    (1, 300, 1, 300),
    (5, 0, 9, 5),
    (1, 5, 9, 5),
    (4, 5, 6, 4),
    (2, 4, 6, 4),
    (5, 4, 9, 5),
    (3, u32::MAX, 1, u32::MAX),
];

/// Checks that a denial has this number and this tag.
fn check_denial(rt: &impl Abort, denial: Option<Denial>, number: u8, tag: u32) {
    let is = denial.is_some_and(|denial| denial.number() == number && denial.tag() == tag);
    assert!(rt; is);
}

#[test]
fn measures_are_refused_by_the_first_cause_and_leave_the_memory(rt: HostRuntime) {
    let mut rows = [Row::<KindM>::blank(); 4];
    let mut book = TableBook::open(&mut rows);
    prepare(&rt, &mut book);
    let mut memory = [mm(8); 6];
    for (first, last, number, tag) in REFUSED {
        check_denial(
            &rt,
            distance(&book, first, last, &mut memory).err(),
            number,
            tag,
        );
        check_denial(
            &rt,
            length(&book, first, last, &mut memory).err(),
            number,
            tag,
        );
        check_denial(
            &rt,
            reach(&book, first, last, &mut memory).err(),
            number,
            tag,
        );
        check_denial(&rt, sum(&book, first, last, &mut memory).err(), number, tag);
    }
    assert!(rt; memory == [mm(8); 6]);
}

#[test]
fn memory_shorter_than_the_size_is_refused_first(rt: HostRuntime) {
    let mut rows = [Row::<KindM>::blank(); 4];
    let mut book = TableBook::open(&mut rows);
    prepare(&rt, &mut book);
    let mut memory = [mm(8); 4];
    check_denial(&rt, distance(&book, 0, 300, &mut memory).err(), 10, 0);
    check_denial(&rt, length(&book, 1, 1, &mut memory).err(), 10, 0);
    check_denial(&rt, reach(&book, 4, 5, &mut memory).err(), 10, 0);
    check_denial(&rt, sum(&book, 1, 2, &mut memory).err(), 10, 0);
    check_denial(&rt, hub(&book, &mut memory).err(), 10, 0);
    check_denial(&rt, spine(&book, &mut memory).err(), 10, 0);
    check_denial(&rt, trunk(&book, mm(5), &mut memory).err(), 10, 0);
    assert!(rt; memory == [mm(8); 4]);
}

/// Checks that of eight figures the first five are zero and the others as they were, and makes all of them 8 again.
fn check_left(rt: &impl Abort, memory: &mut [KindM; 8]) {
    let zero = mm(0);
    let old = mm(8);
    assert!(rt; *memory == [zero, zero, zero, zero, zero, old, old, old]);
    *memory = [old; 8];
}

#[test]
fn an_accepted_call_clears_what_it_used_of_the_memory(rt: HostRuntime) {
    let mut rows = [Row::<KindM>::blank(); 4];
    let mut book = TableBook::open(&mut rows);
    prepare(&rt, &mut book);
    let mut memory = [mm(8); 8];
    assert!(rt; distance(&book, 1, 3, &mut memory) == Ok(mm(7)));
    check_left(&rt, &mut memory);
    assert!(rt; length(&book, 3, 2, &mut memory) == Ok(mm(4)));
    check_left(&rt, &mut memory);
    assert!(rt; reach(&book, 3, 3, &mut memory) == Ok(mm(7)));
    check_left(&rt, &mut memory);
    assert!(rt; sum(&book, 1, 2, &mut memory) == Ok(mm(4)));
    check_left(&rt, &mut memory);
    assert!(rt; hub(&book, &mut memory).is_ok());
    check_left(&rt, &mut memory);
    assert!(rt; spine(&book, &mut memory).is_ok());
    check_left(&rt, &mut memory);
    assert!(rt; trunk(&book, mm(0), &mut memory).is_ok());
    check_left(&rt, &mut memory);
}
