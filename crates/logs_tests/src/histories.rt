// Lists of edits on each book, with what each is answered.
use books::{Book, Edit, Entry, Spur, answer_number, apply, attempt};
use lengths::{KindC, KindM, Length, Millimetres, kind_c};
use logs::LogBook;
use std::process::Abort;
use tables::{Row, TableBook};
use worked::worked_cases;

/// The growth of a tag with no drop, or where there is no parent its strike. (Crate `worked` makes its growths itself: a contract
/// says which edits they are.)
pub(crate) fn edit<K: Length>(tag: u32, parent: Option<u32>, run: K) -> Edit<K> {
    let Some(parent) = parent else {
        return Edit::Strike { tag };
    };
    let spur = Spur {
        parent,
        run,
        drop: K::zero(),
    };
    Edit::Growth { tag, spur }
}

/// The number that a book answers an edit with.
fn number<B: Book>(book: &mut B, edit: Edit<B::Kind>) -> u8 {
    answer_number(Some(attempt(book, edit)))
}

// tag and parent of edits on a new book of six tags, a strike where there is no parent, each with its answer (0, or its number in
// docs/refusals.md, as whoever reads a report finds it): a branch is struck with all that hangs from it, and stays struck
const HISTORY: [(u32, Option<u32>, u8); 10] = [
    (2, Some(1), 0),
    (4, Some(2), 0),
    (5, Some(4), 0),
    (3, None, 9),
    (2, None, 0),
    (4, None, 6),
    (4, Some(1), 6),
    (6, Some(5), 8),
    (3, Some(1), 0),
    (1, None, 1),
];

/// Whether a new book answers the history so.
fn answers<B: Book>(rt: &impl Abort, book: &mut B, run: B::Kind) {
    for (tag, parent, answer) in HISTORY {
        assert!(rt; number(book, edit(tag, parent, run)) == answer);
    }
}

#[test]
fn what_was_struck_stays_struck_in_a_table(rt: HostRuntime) {
    let mut rows = [Row::<KindM>::blank(); 5];
    let mut book = TableBook::open(&mut rows);
    answers(&rt, &mut book, Millimetres { value: 5 });
}

#[test]
fn what_was_struck_stays_struck_in_a_log(rt: HostRuntime) {
    // here and below an edit fills memory that holds none yet: a log opens on any content
    let mut entries = [Edit::<KindC>::Strike { tag: 2 }; 10];
    let mut book = LogBook::open(&mut entries);
    answers(&rt, &mut book, kind_c(1, 5));
}

/// Checks that a new book of 256 tags answers the worked cases as they say.
fn check_worked_cases<B: Book<Kind = KindM>>(rt: &impl Abort, book: &mut B) {
    for case in worked_cases() {
        assert!(rt; number(book, case.edit) == case.number);
    }
}

#[test]
fn worked_cases_come_out_in_a_table(rt: HostRuntime) {
    let mut rows = [Row::<KindM>::blank(); 255];
    let mut book = TableBook::open(&mut rows);
    check_worked_cases(&rt, &mut book);
}

#[test]
fn worked_cases_come_out_in_a_log(rt: HostRuntime) {
    let mut entries = [Edit::<KindM>::Strike { tag: 9 }; 510];
    let mut book = LogBook::open(&mut entries);
    check_worked_cases(&rt, &mut book);
}

/// An edit that has no answer yet, in kind M with a run of 5.
fn waiting(tag: u32, parent: Option<u32>) -> Entry<KindM> {
    Entry {
        edit: edit(tag, parent, Millimetres { value: 5 }),
        answer: None,
    }
}

#[test]
fn what_was_struck_with_its_branch_stays_struck(rt: HostRuntime) {
    let mut rows = [Row::<KindM>::blank(); 5];
    let mut book = TableBook::open(&mut rows);
    let mut noted = HISTORY.map(|(tag, parent, _)| waiting(tag, parent));
    apply(&mut book, &mut noted);
    for (noted, (_, _, answer)) in noted.iter().zip(HISTORY.iter()) {
        assert!(rt; answer_number(noted.answer) == *answer);
    }
}

#[test]
fn a_list_of_edits_is_answered_one_after_another(rt: HostRuntime) {
    let mut noted = [
        waiting(2, Some(1)),
        waiting(4, Some(2)),
        waiting(2, None),
        waiting(4, None),
        waiting(4, Some(1)),
        waiting(5, Some(4)),
    ];
    let mut entries = [Edit::Strike { tag: 2 }; 8];
    let mut book = LogBook::open(&mut entries);
    apply(&mut book, &mut noted);
    // 0, or the number of a refusal, as in the history above
    let answers = [0, 0, 0, 6, 6, 8];
    for (noted, answer) in noted.iter().zip(answers.iter()) {
        assert!(rt; answer_number(noted.answer) == *answer);
    }
}

#[test]
fn a_log_takes_every_edit_that_a_book_can_accept(rt: HostRuntime) {
    let mut entries = [Edit::<KindM>::Strike { tag: 0 }; 510];
    let mut book = LogBook::open(&mut entries);
    for tag in 2..=256u32 {
        let spur = Spur {
            parent: tag - 1,
            run: Millimetres { value: 1 },
            drop: Millimetres { value: 0 },
        };
        assert!(rt; book.grow(tag, &spur).is_ok());
    }
    for tag in (2..=256u32).rev() {
        assert!(rt; book.strike(tag).is_ok());
    }
    assert!(rt; book.strike(2).is_err());
}
