// The size of each book by the memory lent to it, and where each refusal of a growth begins.
use books::{Book, Edit, Spur, answer_number};
use lengths::{KindM, Millimetres};
use logs::LogBook;
use std::process::Abort;
use std::test::Fail;
use tables::{Row, TableBook};

/// Whether a book has this size and no tag beyond it.
fn ends_at<B: Book>(book: &B, size: u32) -> bool {
    book.size() == size && book.look(size).is_ok() && book.look(size + 1).is_err()
}

const SIZES: [(usize, u32); 5] = [(0, 1), (1, 2), (254, 255), (255, 256), (300, 256)];

#[test]
fn a_table_has_one_tag_more_than_rows_up_to_256(rt: HostRuntime) -> Result<(), Fail> {
    for (rows, size) in SIZES {
        let mut rows = vec![in rt.alloc(); Row::<KindM>::blank(); rows]?;
        let book = TableBook::open(rows.as_mut_slice());
        assert!(rt; ends_at(&book, size));
    }
    Ok(())
}

const ENTRIES: [(usize, u32); 7] = [
    (0, 1),
    (1, 1),
    (2, 2),
    (508, 255),
    (509, 255),
    (510, 256),
    (600, 256),
];

#[test]
fn a_log_has_one_tag_more_than_pairs_of_entries_up_to_256(rt: HostRuntime) -> Result<(), Fail> {
    for (entries, size) in ENTRIES {
        // here and below an edit fills memory that holds none yet: a log opens on any content
        let mut entries = vec![in rt.alloc(); Edit::<KindM>::Strike { tag: 2 }; entries]?;
        let book = LogBook::open(entries.as_mut_slice());
        assert!(rt; ends_at(&book, size));
    }
    Ok(())
}

// tag, parent, run and drop of growths on a new book of five tags, each with its answer: 0, or its number in docs/refusals.md, as
// whoever reads a report finds it
const GROWTHS: [(u32, u32, u64, u64, u8); 12] = [
    (2, 1, 1_000_000, 0, 0),
    (3, 1, 1, 1_000_000, 0),
    (4, 1, 0, 0, 3),
    (4, 1, 1_000_001, 0, 3),
    (4, 1, 1, 1_000_001, 4),
    (4, 4, 0, 0, 2),
    (4, 0, 0, 0, 2),
    (6, 1, 1, 0, 1),
    (1, 0, 0, 0, 1),
    (0, 0, 0, 0, 1),
    (2, 1, 1, 0, 5),
    (5, 4, 1, 0, 7),
];

/// Checks that a new book of five tags answers the growths so.
fn check_growths<B: Book<Kind = KindM>>(rt: &impl Abort, book: &mut B) {
    for (tag, parent, run, drop, answer) in GROWTHS {
        let run = Millimetres { value: run };
        let drop = Millimetres { value: drop };
        let given = Some(book.grow(tag, &Spur { parent, run, drop }));
        assert!(rt; answer_number(given) == answer);
    }
}

#[test]
fn growths_are_refused_by_the_first_cause(rt: HostRuntime) {
    let mut rows = [Row::<KindM>::blank(); 4];
    let mut book = TableBook::open(&mut rows);
    check_growths(&rt, &mut book);
}

#[test]
fn growths_are_refused_by_the_first_cause_in_a_log(rt: HostRuntime) {
    let spur = Spur {
        parent: 1,
        run: Millimetres { value: 7 },
        drop: Millimetres { value: 0 },
    };
    let mut entries = [Edit::Growth { tag: 2, spur }; 9];
    let mut book = LogBook::open(&mut entries);
    check_growths(&rt, &mut book);
}
