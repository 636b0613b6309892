// What the tests of plans share: looms of kind M in a table book, and what is asked of them.
use books::{Book, Spur};
use lengths::{KindM, Length, Millimetres};
use plans::{Denial, Plan, hub, spine, trunk};
use std::process::Abort;

/// A point of a loom: its tag, its parent, and its run and drop in millimetres.
pub(crate) type Point = (u32, u32, u64, u64);

/// Millimetres.
pub(crate) fn mm(value: u64) -> KindM {
    Millimetres { value }
}

/// Grows these points in a book.
pub(crate) fn plant<B: Book<Kind = KindM>>(rt: &impl Abort, book: &mut B, points: &[Point]) {
    for (tag, parent, run, drop) in points {
        let spur = Spur {
            parent: *parent,
            run: mm(*run),
            drop: mm(*drop),
        };
        assert!(rt; book.grow(*tag, &spur).is_ok());
    }
}

/// A plan with these ends and this figure.
pub(crate) fn plan<K: Length>(first: u32, last: u32, figure: K) -> Result<Plan<K>, Denial> {
    Ok(Plan {
        first,
        last,
        figure,
    })
}

/// Checks the hub and the spine of a book of at most 256 tags: first, last and reach of each.
pub(crate) fn check_centers<B: Book<Kind = KindM>>(
    rt: &impl Abort,
    book: &B,
    the_hub: (u32, u32, u64),
    the_spine: (u32, u32, u64),
) {
    let mut memory = [mm(7); 256];
    let (first, last, reach) = the_hub;
    assert!(rt; hub(book, &mut memory) == plan(first, last, mm(reach)));
    let (first, last, reach) = the_spine;
    assert!(rt; spine(book, &mut memory) == plan(first, last, mm(reach)));
}

/// Checks the trunk of a book of at most 256 tags for a limit: first, last and sum.
pub(crate) fn check_trunk<B: Book<Kind = KindM>>(
    rt: &impl Abort,
    book: &B,
    limit: u64,
    the_trunk: (u32, u32, u64),
) {
    let mut memory = [mm(7); 256];
    let (first, last, sum) = the_trunk;
    assert!(rt; trunk(book, mm(limit), &mut memory) == plan(first, last, mm(sum)));
}
