// The interface of a book.
ghost use Rattle.std.specs.Prelude.{◌≡◌, ℕ, ⊤, MatchResult, OnErr, OnOk};
ghost use Rattle.books.specs.declared.edits.Edit.{Edit as AnEdit};
ghost use Rattle.books.specs.declared.edits.Edit.TheVariants.{Growth, Strike};
ghost use Rattle.books.specs.declared.states.State.{State as AState};
ghost use Rattle.books.specs.declared.states.State.TheVariants.{Standing};
ghost use Rattle.books.specs.Causes.{answered, first_cause, look_causes};
ghost use Rattle.books.specs.Edits.{verdict};
ghost use Rattle.books.specs.States.{Lawful, Grown, StruckOut, Same};

use crate::causes::Refused;
use crate::states::{Spur, State};
use lengths::Length;

/// A book: it keeps the tree of a loom, in one kind of length.
pub trait Book {
    /// The kind of length that the book keeps.
    type Kind: Length;

    // The size: the greatest tag.
    ghost extent: { Self → ℕ };

    // The state of each tag.
    ghost state: { Self → ℕ → AState Self.Kind };

    // What is left alone from an earlier book to a later one, as the book itself says it: of the memory lent to it at least what
    // it does not use. A book need not say it.
    ghost leaves: { Self → Self → Type 0 } = { λ _ _. ⊤ };

    // What an accepted edit writes, from the book before it to the book after it. A book need not say it.
    ghost writes: { Self → AnEdit Self.Kind → Self → Type 0 } = { λ _ _ _. ⊤ };

    /// The size. Every book is lawful, and where nothing was done, all that it leaves alone was left alone; it says so here.
    fn size(&self) -> u32
        ensures answer { result ≡ extent self.now }
        ensures lawful { Lawful Self.Kind.Length.figures (extent self.now) (state self.now) }
        ensures alone { leaves self.now self.now };

    /// The state of a tag.
    fn look(&self, tag: u32) -> Result<State<Self::Kind>, Refused>
        ensures { result ≡ answered tag (state self.now tag) (first_cause (look_causes (extent self.now) tag)) };

    // What growing and striking say of the size and of what is left alone is a short line each; one word for both would hide it.

    /// Grows a tag: it stands by this spur. Refused, it changes nothing, the memory lent to it included. The spur is lent: a method
    /// that takes a struct of figures by value has to repeat these clauses in every book.
    fn grow(&mut self, tag: u32, spur: &Spur<Self::Kind>) -> Result<(), Refused>
        ensures answer { result ≡ verdict Self.Kind.Length.figures (extent self.old) (state self.old) (Growth tag spur.now) }
        ensures size { extent self.new ≡ extent self.old }
        ensures states { MatchResult result (λ _. Grown (state self.old) (state self.new) tag (Standing spur.now)) (λ _. Same (state self.old) (state self.new)) }
        ensures writes { OnOk result (writes self.old (Growth tag spur.now) self.new) }
        ensures refused { OnErr result (self.new ≡ self.old) }
        ensures leaves { (a : Self) → leaves a self.old → leaves a self.new };

    /// Strikes a tag, with every tag that hangs from it. Refused, it changes nothing, the memory lent to it included.
    fn strike(&mut self, tag: u32) -> Result<(), Refused>
        ensures answer { result ≡ verdict Self.Kind.Length.figures (extent self.old) (state self.old) (Strike tag) }
        ensures size { extent self.new ≡ extent self.old }
        ensures states { MatchResult result (λ _. StruckOut (state self.old) (state self.new) tag) (λ _. Same (state self.old) (state self.new)) }
        ensures writes { OnOk result (writes self.old (Strike tag) self.new) }
        ensures refused { OnErr result (self.new ≡ self.old) }
        ensures leaves { (a : Self) → leaves a self.old → leaves a self.new };
}
