// What each book finds in memory that was used before, and what a log leaves of it.
use crate::histories::edit;
use books::{Book, Edit, Spur, State};
use lengths::{KindM, Millimetres};
use logs::LogBook;
use tables::{Row, TableBook};

/// Whether every tag but the root is blank in a book of three tags.
fn is_new<B: Book>(book: &B) -> bool {
    matches!(book.look(2), Ok(State::Blank)) && matches!(book.look(3), Ok(State::Blank))
}

/// A spur on the root with this run and no drop.
fn on_the_root(run: u64) -> Spur<KindM> {
    Spur {
        parent: 1,
        run: Millimetres { value: run },
        drop: Millimetres { value: 0 },
    }
}

/// The growth of a tag on the root.
fn growth(tag: u32) -> Edit<KindM> {
    edit(tag, Some(1), Millimetres { value: 7 })
}

/// Whether an edit is the growth of this tag.
fn grows(edit: Edit<KindM>, at: u32) -> bool {
    matches!(edit, Edit::Growth { tag, .. } if tag == at)
}

#[test]
fn a_log_opened_on_old_entries_is_new_and_leaves_those_it_does_not_use(rt: HostRuntime) {
    let mut entries = [growth(2), growth(3), growth(2), growth(3)];
    let mut book = LogBook::open(&mut entries);
    assert!(rt; is_new(&book));
    assert!(rt; book.strike(2).is_err());
    assert!(rt; book.grow(3, &on_the_root(5)).is_ok());
    drop(book);
    assert!(rt; grows(entries[0], 3));
    assert!(rt; grows(entries[1], 3) && grows(entries[2], 2) && grows(entries[3], 3));
}

#[test]
fn a_table_opened_on_old_rows_is_new(rt: HostRuntime) {
    let mut rows = [Row::<KindM>::blank(); 2];
    let mut book = TableBook::open(&mut rows);
    assert!(rt; book.grow(2, &on_the_root(5)).is_ok());
    drop(book);
    let book = TableBook::open(&mut rows);
    assert!(rt; is_new(&book));
}
