// A full book of 256 points in one chain, in both kinds and both books.
use crate::asked::{mm, plan};
use books::{Book, Edit, Spur};
use lengths::{KindC, KindM, Length, kind_c};
use logs::LogBook;
use plans::{distance, hub, length, reach, spine, sum, trunk};
use std::process::Abort;
use tables::{Row, TableBook};

/// Grows each tag on the one before it, by one run and with no drop.
fn chain<B: Book>(rt: &impl Abort, book: &mut B, run: B::Kind) {
    for tag in 2..=256u32 {
        let spur = Spur {
            parent: tag - 1,
            run,
            drop: B::Kind::zero(),
        };
        assert!(rt; book.grow(tag, &spur).is_ok());
    }
}

/// Grows a chain of 256 points in a book, and checks its measures and plans: 128 runs to the farther end from the middle, 16,256 runs
/// from all points to a trunk of one run, and 255 runs in all.
fn check_chain<B: Book>(rt: &impl Abort, book: &mut B, memory: &mut [B::Kind], many: [B::Kind; 4])
where
    B::Kind: Eq,
{
    let [run, middle, near, all] = many;
    chain(rt, book, run);
    assert!(rt; hub(book, memory) == plan(128, 129, middle));
    assert!(rt; spine(book, memory) == plan(1, 256, B::Kind::zero()));
    assert!(rt; trunk(book, run, memory) == plan(128, 129, near));
    assert!(rt; distance(book, 256, 1, memory) == Ok(all));
    assert!(rt; length(book, 1, 256, memory) == Ok(all));
    assert!(rt; reach(book, 1, 1, memory) == Ok(all));
    assert!(rt; sum(book, 128, 129, memory) == Ok(near));
}

/// One millimetre, and 128, 16,256 and 255 of them.
fn in_m() -> [KindM; 4] {
    [mm(1), mm(128), mm(16_256), mm(255)]
}

/// One coupling, and 128, 16,256 and 255 of them.
fn in_c() -> [KindC; 4] {
    [
        kind_c(1, 0),
        kind_c(128, 0),
        kind_c(16_256, 0),
        kind_c(255, 0),
    ]
}

#[test]
fn a_full_table_of_kind_m_has_its_plans(rt: HostRuntime) {
    let mut rows = [Row::<KindM>::blank(); 255];
    let mut book = TableBook::open(&mut rows);
    let mut memory = [mm(0); 256];
    check_chain(&rt, &mut book, &mut memory, in_m());
}

#[test]
fn a_full_log_of_kind_m_has_its_plans(rt: HostRuntime) {
    // here and below an edit fills memory that holds none yet: a log opens on any content
    let mut entries = [Edit::<KindM>::Strike { tag: 2 }; 510];
    let mut book = LogBook::open(&mut entries);
    let mut memory = [mm(0); 256];
    check_chain(&rt, &mut book, &mut memory, in_m());
}

#[test]
fn a_full_table_of_kind_c_has_its_plans(rt: HostRuntime) {
    let mut rows = [Row::<KindC>::blank(); 255];
    let mut book = TableBook::open(&mut rows);
    let mut memory = [kind_c(0, 0); 256];
    check_chain(&rt, &mut book, &mut memory, in_c());
}

#[test]
fn a_full_log_of_kind_c_has_its_plans(rt: HostRuntime) {
    let mut entries = [Edit::<KindC>::Strike { tag: 2 }; 510];
    let mut book = LogBook::open(&mut entries);
    let mut memory = [kind_c(0, 0); 256];
    check_chain(&rt, &mut book, &mut memory, in_c());
}
