// Doing edits on any book.
ghost use Rattle.std.specs.Prelude.{◌≡◌, ℕ, ◌+◌, ◌-◌, ◌*◌, ◌≤◌, List, [], ◌∷◌, ◌++◌, map, OnOk, OnErr};
ghost use Rattle.books.specs.declared.edits.Entry.{Entry as AnEntry};
ghost use Rattle.books.specs.declared.states.State.{State};
ghost use Rattle.books.specs.States.{New, Same, lefts};
ghost use Rattle.books.specs.Edits.{Led, Answered, CalledFor, Course, Done, accepted_in, verdict, Wrote};

use crate::causes::Refused;
use crate::edits::{Edit, Entry};
use crate::interface::Book;

/// Does one edit on a book, and says what it was answered. If a list of edits led to the book, then that list with this edit
/// and its answer leads to the book that it leaves.
pub fn attempt<B: Book>(book: &mut B, edit: Edit<B::Kind>) -> Result<(), Refused>
    ensures answer { result ≡ verdict B.Kind.Length.figures (B.Book.extent book.old) (B.Book.state book.old) edit }
    ensures size { B.Book.extent book.new ≡ B.Book.extent book.old }
    ensures done { Done edit result (B.Book.state book.old) (B.Book.state book.new) }
    ensures writes { OnOk result (B.Book.writes book.old edit book.new) }
    ensures refused { OnErr result (book.new ≡ book.old) }
    ensures leaves { (a : B) → B.Book.leaves a book.old → B.Book.leaves a book.new }
    ensures led { (h : List (AnEntry B.Kind)) → Led B.Kind.Length.figures h (B.Book.state book.old) → Led B.Kind.Length.figures (h ++ record { edit = edit; answer = Some result } ∷ []) (B.Book.state book.new) }
{
    match edit {
        Edit::Growth { tag, spur } => book.grow(tag, &spur),
        Edit::Strike { tag } => book.strike(tag),
    }
}

/// Does edits on a book, one after another, and notes with each what it was answered. On a new book the list explains what
/// stands: a tag other than the root stands exactly when its growth was accepted and no accepted strike named it or a tag that
/// it hangs from, by that growth's spur. On any other book, if an earlier list led to it, the two lists
/// together explain it. Any other book of this kind, size and states answers these edits alike and ends with the same states.
/// Each accepted edit takes one from what may still be accepted, which is at most two for each tag but the root. Each writes
/// what the book says that it writes, and every other edit changes nothing.
pub fn apply<B: Book>(book: &mut B, entries: &mut [Entry<B::Kind>])
    ensures edits { map (λ e. e.edit) entries.new ≡ map (λ e. e.edit) entries.old }
    ensures size { B.Book.extent book.new ≡ B.Book.extent book.old }
    ensures led { (h : List (AnEntry B.Kind)) → Led B.Kind.Length.figures h (B.Book.state book.old) → Led B.Kind.Length.figures (h ++ entries.new) (B.Book.state book.new) }
    ensures answers { (h : List (AnEntry B.Kind)) → Led B.Kind.Length.figures h (B.Book.state book.old) → Answered B.Kind.Length.figures (B.Book.extent book.old) h entries.new }
    ensures new { New B.Kind.Length.figures (B.Book.state book.old) → Led B.Kind.Length.figures entries.new (B.Book.state book.new) × Answered B.Kind.Length.figures (B.Book.extent book.old) [] entries.new }
    ensures called { (h : List (AnEntry B.Kind)) → Led B.Kind.Length.figures h (B.Book.state book.old) → CalledFor B.Kind.Length.figures (B.Book.extent book.old) h entries.new }
    ensures course { Course B.Kind.Length.figures (B.Book.extent book.old) entries.new (B.Book.state book.old) (B.Book.state book.new) }
    ensures leaves { (a : B) → B.Book.leaves a book.old → B.Book.leaves a book.new }
    ensures wrote { Wrote B.Book.writes book.old entries.new book.new }
    ensures spent { accepted_in entries.new + lefts (B.Book.state book.new) (B.Book.extent book.old - 1) ≤ lefts (B.Book.state book.old) (B.Book.extent book.old - 1) }
    ensures few { accepted_in entries.new ≤ 2 * (B.Book.extent book.old - 1) }
    ensures agree { (ns : List (AnEntry B.Kind)) (s t : ℕ → State B.Kind) → map (λ e. e.edit) ns ≡ map (λ e. e.edit) entries.new → Same (B.Book.state book.old) s → Course B.Kind.Length.figures (B.Book.extent book.old) ns s t → (ns ≡ entries.new) × Same (B.Book.state book.new) t }
{
    for entry in entries.iter_mut() {
        let answer = attempt(book, entry.edit);
        entry.answer = Some(answer);
    }
}
