// Lists of calls on one loom.
use crate::stages::{mm, plan, spur};
use books::{Book, Edit, Refusal, State};
use lengths::KindM;
use logs::LogBook;
use looms::{Answer, AnyLoom, Call, Noted, run};
use plans::Denial;
use std::process::Abort;
use tables::{Row, TableBook};

/// A call that has no answer yet.
fn waiting(call: Call<KindM>) -> Noted<KindM> {
    Noted { call, answer: None }
}

/// The growth of a tag.
fn grow(tag: u32, parent: u32, run: u64, drop: u64) -> Call<KindM> {
    Call::Edit(Edit::Growth {
        tag,
        spur: spur(parent, run, drop),
    })
}

/// A strike.
fn strike(tag: u32) -> Call<KindM> {
    Call::Edit(Edit::Strike { tag })
}

/// The list of docs/looms.md for a new book of four tags, with more calls in it, each with its answer.
fn listed() -> [(Call<KindM>, Answer<KindM>); 15] {
    let struck = Refusal::TagStruck.of_tag(4);
    [
        (grow(2, 1, 300, 50), Answer::Edited(Ok(()))),
        (grow(4, 2, 400, 0), Answer::Edited(Ok(()))),
        (Call::Hub, Answer::NotAllowed),
        (Call::Reopen, Answer::NotAllowed),
        (strike(2), Answer::Edited(Ok(()))),
        (grow(4, 1, 400, 0), Answer::Edited(Err(struck))),
        (Call::Count, Answer::Number(3)),
        (Call::Release, Answer::Done),
        (strike(3), Answer::NotAllowed),
        (Call::Release, Answer::NotAllowed),
        (Call::Size, Answer::Number(4)),
        (Call::Look { tag: 4 }, Answer::Looked(Ok(State::Struck))),
        (
            Call::Distance { first: 1, last: 4 },
            Answer::Measured(Err(Denial::NoPoint(struck))),
        ),
        (Call::Hub, Answer::Planned(plan(1, 1, 0))),
        (
            Call::Trunk { limit: mm(600) },
            Answer::Planned(plan(1, 1, 0)),
        ),
    ]
}

/// Checks the list on a new book of four tags, and the loom that it leaves.
fn check_list<B: Book<Kind = KindM> + Drop>(rt: &impl Abort, book: B) {
    let listed = listed();
    let mut notes = listed.map(|(call, _)| waiting(call));
    let mut memory = [mm(9); 5];
    let loom = run(book, &mut notes, &mut memory);
    for (note, (_, answer)) in notes.iter().zip(listed.iter()) {
        assert!(rt; note.answer == Some(*answer));
    }
    assert!(rt; memory == [mm(0), mm(0), mm(0), mm(0), mm(9)]);
    match loom {
        AnyLoom::Open(_) => assert!(rt; false),
        AnyLoom::Released(loom) => {
            assert!(rt; loom.count() == 3 && loom.look(2) == Ok(State::Struck));
        }
    }
}

#[test]
fn a_list_of_calls_is_answered_on_a_table(rt: HostRuntime) {
    let mut rows = [Row::<KindM>::blank(); 3];
    check_list(&rt, TableBook::open(&mut rows));
}

#[test]
fn a_list_of_calls_is_answered_on_a_log(rt: HostRuntime) {
    // an edit fills memory that holds none yet: a log opens on any content
    let mut entries = [Edit::<KindM>::Strike { tag: 2 }; 6];
    check_list(&rt, LogBook::open(&mut entries));
}

#[test]
fn memory_too_short_is_left_alone_and_an_empty_list_does_nothing(rt: HostRuntime) {
    let mut rows = [Row::<KindM>::blank(); 3];
    let mut notes = [waiting(Call::Release), waiting(Call::Spine)];
    let mut memory = [mm(9); 3];
    let loom = run(TableBook::open(&mut rows), &mut notes, &mut memory);
    drop(loom);
    assert!(rt; notes[0].answer == Some(Answer::Done));
    assert!(rt; notes[1].answer == Some(Answer::Planned(Err(Denial::ShortMemory))));
    assert!(rt; memory == [mm(9); 3]);
    let mut none: [Noted<KindM>; 0] = [];
    match run(TableBook::open(&mut rows), &mut none, &mut memory) {
        AnyLoom::Open(loom) => assert!(rt; loom.count() == 0 && loom.look(2) == Ok(State::Blank)),
        AnyLoom::Released(_) => assert!(rt; false),
    }
}
