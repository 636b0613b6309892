// Looms that are edited, released, planned and opened again, on both books.
use books::{Book, Edit, Refusal, Spur, State};
use lengths::{KindM, Millimetres};
use logs::LogBook;
use looms::Loom;
use plans::{Denial, Plan};
use std::process::Abort;
use tables::{Row, TableBook};

/// Millimetres.
pub(crate) fn mm(value: u64) -> KindM {
    Millimetres { value }
}

/// A spur on this parent.
pub(crate) fn spur(parent: u32, run: u64, drop: u64) -> Spur<KindM> {
    Spur {
        parent,
        run: mm(run),
        drop: mm(drop),
    }
}

/// A plan with these ends and this figure.
pub(crate) fn plan(first: u32, last: u32, figure: u64) -> Result<Plan<KindM>, Denial> {
    Ok(Plan {
        first,
        last,
        figure: mm(figure),
    })
}

/// Checks the loom of docs/looms.md on a new book of four tags, and gives the book back.
fn check_loom<B: Book<Kind = KindM>>(rt: &impl Abort, book: B) -> B {
    let mut memory = [mm(9); 4];
    let mut loom = Loom::open(book);
    assert!(rt; loom.size() == 4 && loom.count() == 0);
    assert!(rt; loom.grow(2, &spur(1, 300, 50)).is_ok());
    assert!(rt; loom.grow(4, &spur(2, 400, 0)).is_ok());
    assert!(rt; loom.count() == 2);
    let loom = loom.release();
    assert!(rt; loom.hub(&mut memory) == plan(2, 2, 400));
    assert!(rt; loom.distance(1, 4, &mut memory) == Ok(mm(700)));
    assert!(rt; loom.length(4, 1, &mut memory) == Ok(mm(700)));
    assert!(rt; loom.reach(1, 2, &mut memory) == Ok(mm(400)));
    assert!(rt; loom.sum(1, 1, &mut memory) == Ok(mm(1_000)));
    assert!(rt; loom.spine(&mut memory) == plan(1, 4, 50));
    assert!(rt; loom.trunk(mm(300), &mut memory) == plan(1, 2, 400));
    let mut loom = loom.reopen();
    assert!(rt; loom.count() == 2);
    assert!(rt; loom.strike(2).is_ok());
    let refused = loom.grow(4, &spur(1, 400, 0));
    assert!(rt; refused.is_err_and(|refused| refused == Refusal::TagStruck.of_tag(4)));
    assert!(rt; loom.count() == 3);
    let loom = loom.release();
    assert!(rt; loom.look(4) == Ok(State::Struck));
    assert!(rt; loom.look(5).is_err());
    assert!(rt; loom.hub(&mut memory) == plan(1, 1, 0));
    assert!(rt; loom.count() == 3 && loom.size() == 4);
    loom.reopen().close()
}

#[test]
fn a_loom_over_a_table_keeps_its_book_and_its_count(rt: HostRuntime) {
    let mut rows = [Row::<KindM>::blank(); 3];
    let book = check_loom(&rt, TableBook::open(&mut rows));
    assert!(rt; book.look(2) == Ok(State::Struck));
    // a loom over a book that was used before counts from 0
    let loom = Loom::open(book);
    assert!(rt; loom.count() == 0 && loom.look(2) == Ok(State::Struck));
}

#[test]
fn a_loom_over_a_log_keeps_its_book_and_its_count(rt: HostRuntime) {
    // an edit fills memory that holds none yet: a log opens on any content
    let mut entries = [Edit::<KindM>::Strike { tag: 2 }; 6];
    let book = check_loom(&rt, LogBook::open(&mut entries));
    assert!(rt; book.look(2) == Ok(State::Struck));
}
