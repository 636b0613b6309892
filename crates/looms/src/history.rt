// Doing a list of calls on one loom.
ghost use Rattle.std.specs.Prelude.{◌≡◌, ℕ, ◌+◌, ◌-◌, ◌≤◌, length, map, not, true, false};
ghost use Rattle.books.specs.Edits.{Course, Wrote};
ghost use Rattle.books.specs.States.{New, lefts};
ghost use Rattle.looms.specs.Histories.{edits_of, releases, released_after, count_of, LedTo};
ghost use Rattle.looms.specs.Lists.{released_in, book_in, count_in, is_figure, any_figure, Stepped, MemoryLeft, AllRight};

use crate::calls::{Answer, Call, Noted};
use crate::loom::{Loom, Open, Released};
use books::Book;

/// A loom in either state, as a list of calls leaves it; a match gives the loom, and that serves what its state allows.
#[derive(Drop)]
pub enum AnyLoom<B> {
    Open(Loom<B, Open>),
    Released(Loom<B, Released>),
}

impl<B: Book> Loom<B, Open> {
    /// Does a call, if an open loom allows it.
    fn step(self, call: Call<B::Kind>) -> (AnyLoom<B>, Answer<B::Kind>)
        ensures figures { is_figure result.1 ≡ false }
        ensures does { (room : ℕ) → Stepped B.Kind.Length.figures B.Book.extent B.Book.state B.Book.writes B.Book.leaves room false self.book self.count (released_in result.0) (book_in result.0) (count_in result.0) call result.1 }
    {
        match call {
            Call::Edit(edit) => {
                let mut loom = self;
                let answer = loom.edit(edit);
                (AnyLoom::Open(loom), Answer::Edited(answer))
            }
            Call::Release => (AnyLoom::Released(self.release()), Answer::Done),
            Call::Size => {
                let size = self.size();
                (AnyLoom::Open(self), Answer::Number(size))
            }
            Call::Count => {
                let count = self.count();
                (AnyLoom::Open(self), Answer::Number(count))
            }
            Call::Look { tag } => {
                let state = self.look(tag);
                (AnyLoom::Open(self), Answer::Looked(state))
            }
            Call::Reopen
            | Call::Distance { .. }
            | Call::Length { .. }
            | Call::Reach { .. }
            | Call::Sum { .. }
            | Call::Hub
            | Call::Spine
            | Call::Trunk { .. } => (AnyLoom::Open(self), Answer::NotAllowed),
        }
    }
}

/// Whether a released loom is open after this call.
fn reopens<K: Copy>(call: Call<K>) -> bool
    ensures { result ≡ not (releases true call) }
{
    matches!(call, Call::Reopen)
}

impl<B: Book> Loom<B, Released> {
    /// What a call is answered. (`Reopen` is answered here, and `step` then opens the loom.)
    fn answer(&self, call: Call<B::Kind>, memory: &mut [B::Kind]) -> Answer<B::Kind>
        ensures does { Stepped B.Kind.Length.figures B.Book.extent B.Book.state B.Book.writes B.Book.leaves (length memory.old) true self.now.book self.now.count (releases true call) self.now.book self.now.count call result }
        ensures memory { MemoryLeft B.Kind.Length.figures (B.Book.extent self.now.book) (is_figure result) memory.old memory.new }
    {
        match call {
            Call::Reopen => Answer::Done,
            Call::Edit(_) | Call::Release => Answer::NotAllowed,
            Call::Size => Answer::Number(self.size()),
            Call::Count => Answer::Number(self.count()),
            Call::Look { tag } => Answer::Looked(self.look(tag)),
            Call::Distance { first, last } => Answer::Measured(self.distance(first, last, memory)),
            Call::Length { first, last } => Answer::Measured(self.length(first, last, memory)),
            Call::Reach { first, last } => Answer::Measured(self.reach(first, last, memory)),
            Call::Sum { first, last } => Answer::Measured(self.sum(first, last, memory)),
            Call::Hub => Answer::Planned(self.hub(memory)),
            Call::Spine => Answer::Planned(self.spine(memory)),
            Call::Trunk { limit } => Answer::Planned(self.trunk(limit, memory)),
        }
    }

    /// Does a call, if a released loom allows it.
    fn step(self, call: Call<B::Kind>, memory: &mut [B::Kind]) -> (AnyLoom<B>, Answer<B::Kind>)
        ensures does { Stepped B.Kind.Length.figures B.Book.extent B.Book.state B.Book.writes B.Book.leaves (length memory.old) true self.book self.count (released_in result.0) (book_in result.0) (count_in result.0) call result.1 }
        ensures memory { MemoryLeft B.Kind.Length.figures (B.Book.extent self.book) (is_figure result.1) memory.old memory.new }
    {
        let answer = self.answer(call, memory);
        if reopens(call) {
            return (AnyLoom::Open(self.reopen()), answer);
        }
        (AnyLoom::Released(self), answer)
    }
}

impl<B: Book> AnyLoom<B> {
    /// Does a call, if the loom allows it in its state.
    fn step(self, call: Call<B::Kind>, memory: &mut [B::Kind]) -> (AnyLoom<B>, Answer<B::Kind>)
        ensures does { Stepped B.Kind.Length.figures B.Book.extent B.Book.state B.Book.writes B.Book.leaves (length memory.old) (released_in self) (book_in self) (count_in self) (released_in result.0) (book_in result.0) (count_in result.0) call result.1 }
        ensures memory { MemoryLeft B.Kind.Length.figures (B.Book.extent (book_in self)) (is_figure result.1) memory.old memory.new }
    {
        match self {
            AnyLoom::Open(loom) => loom.step(call),
            AnyLoom::Released(loom) => loom.step(call, memory),
        }
    }
}

/// Does a list of calls, one after another, on one loom over a book, and notes with each what it was answered; it gives back the
/// loom. The working memory serves every measure and every plan. Where the book was new, the list tells what stands on the loom: a
/// tag other than the root exactly when its growth was accepted and no accepted strike named it or a tag that it hangs from. On that
/// loom each call answers what it says of the states of the tags (`Loom`), as each answer in the list did at its place.
pub fn run<B: Book>(book: B, notes: &mut [Noted<B::Kind>], memory: &mut [B::Kind]) -> AnyLoom<B>
    ensures calls { map (λ n. n.call) notes.new ≡ map (λ n. n.call) notes.old }
    ensures size { B.Book.extent (book_in result) ≡ B.Book.extent book }
    ensures stage { released_in result ≡ released_after false notes.new }
    ensures course { Course B.Kind.Length.figures (B.Book.extent book) (edits_of notes.new) (B.Book.state book) (B.Book.state (book_in result)) }
    ensures wrote { Wrote B.Book.writes book (edits_of notes.new) (book_in result) }
    ensures leaves { (a : B) → B.Book.leaves a book → B.Book.leaves a (book_in result) }
    ensures count { (count_in result ≡ count_of notes.new) × (count_in result + lefts (B.Book.state (book_in result)) (B.Book.extent book - 1) ≤ 510) }
    ensures right { AllRight B.Kind.Length.figures (B.Book.extent book) (length memory.old) (B.Book.state book) notes.new }
    ensures led { New B.Kind.Length.figures (B.Book.state book) → LedTo B.Kind.Length.figures (B.Book.extent book) notes.new (released_in result) (B.Book.state (book_in result)) (count_in result) }
    ensures memory { MemoryLeft B.Kind.Length.figures (B.Book.extent book) (any_figure notes.new) memory.old memory.new }
{
    let mut loom = AnyLoom::Open(Loom::open(book));
    for note in notes.iter_mut() {
        let (next, answer) = loom.step(note.call, memory);
        loom = next;
        note.answer = Some(answer);
    }
    loom
}
