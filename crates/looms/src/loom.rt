// A loom, open or released.
ghost use Rattle.std.specs.Prelude.{◌≡◌, ◌+◌, ◌-◌, ◌≤◌, min, Bool, List, [], length, true, false, OnOk, OnErr};
ghost use Rattle.books.specs.declared.edits.Edit.TheVariants.{Growth, Strike};
ghost use Rattle.books.specs.Causes.{answered, first_cause, look_causes};
ghost use Rattle.books.specs.States.{New, lefts};
ghost use Rattle.plans.specs.Measures.{Distance, Reach, Total};
ghost use Rattle.plans.specs.Plans.{Hub, Spine, Trunk};
ghost use Rattle.plans.specs.Checks.{Answers, Leaves, measure_causes, plan_causes};
ghost use Rattle.looms.specs.declared.calls.Call.TheVariants as calls;
ghost use Rattle.looms.specs.declared.calls.Answer.TheVariants as answers;
ghost use Rattle.looms.specs.declared.calls.Noted.{Noted as ANoted};
ghost use Rattle.looms.specs.Histories.{LedTo, Edited, with_call};

use books::{Book, Edit, Refused, Spur, State, attempt};
use plans::{Denial, Plan};
use std::marker::PhantomData;

/// The state of a loom that may be edited.
pub struct Open;

/// The state of a loom that may be measured and planned.
pub struct Released;

/// A loom: a book, how many edits were accepted since it was opened, and in its type whether it is open or released.
#[derive(Drop)]
pub struct Loom<B, S> {
    book: B,
    count: u32,
    stage: PhantomData<S>,
}

impl<B: Book, S> Loom<B, S> {
    /// The greatest tag.
    pub fn size(&self) -> u32
        ensures answer { result ≡ B.Book.extent self.now.book }
        ensures goes_on { (h : List (ANoted B.Kind)) (released : Bool) → LedTo B.Kind.Length.figures (B.Book.extent self.now.book) h released (B.Book.state self.now.book) self.now.count → LedTo B.Kind.Length.figures (B.Book.extent self.now.book) (with_call h calls.Size (answers.Number result)) released (B.Book.state self.now.book) self.now.count }
    {
        self.book.size()
    }

    /// How many edits were accepted since the loom was opened.
    pub fn count(&self) -> u32
        ensures answer { result ≡ self.now.count }
        ensures goes_on { (h : List (ANoted B.Kind)) (released : Bool) → LedTo B.Kind.Length.figures (B.Book.extent self.now.book) h released (B.Book.state self.now.book) self.now.count → LedTo B.Kind.Length.figures (B.Book.extent self.now.book) (with_call h calls.Count (answers.Number result)) released (B.Book.state self.now.book) self.now.count }
    {
        self.count
    }

    /// The state of a tag, as its book says it.
    pub fn look(&self, tag: u32) -> Result<State<B::Kind>, Refused>
        ensures answer { result ≡ answered tag (B.Book.state self.now.book tag) (first_cause (look_causes (B.Book.extent self.now.book) tag)) }
        ensures goes_on { (h : List (ANoted B.Kind)) (released : Bool) → LedTo B.Kind.Length.figures (B.Book.extent self.now.book) h released (B.Book.state self.now.book) self.now.count → LedTo B.Kind.Length.figures (B.Book.extent self.now.book) (with_call h (calls.Look tag) (answers.Looked result)) released (B.Book.state self.now.book) self.now.count }
    {
        self.book.look(tag)
    }

    /// The same loom, in another state.
    fn turn<T>(self) -> Loom<B, T>
        ensures book { result.book ≡ self.book }
        ensures count { result.count ≡ self.count }
    {
        let Loom { count, book, .. } = self;
        Loom {
            book,
            count,
            stage: PhantomData,
        }
    }
}

/// The count after an edit that was answered so. (It stops at the greatest number of 32 bits, which no count comes to.)
fn count_with(count: u32, answer: Result<(), Refused>) -> u32
    ensures accepted { OnOk answer (result ≡ min (count + 1) 4294967295) }
    ensures refused { OnErr answer (result ≡ count) }
{
    match answer {
        Ok(()) => count.saturating_add(1),
        Err(_) => count,
    }
}

impl<B: Book> Loom<B, Open> {
    /// Opens a loom over a book in any state.
    pub fn open(book: B) -> Loom<B, Open>
        ensures book { result.book ≡ book }
        ensures count { result.count ≡ 0 }
        ensures few { lefts (B.Book.state book) (B.Book.extent book - 1) ≤ 510 }
        ensures led { New B.Kind.Length.figures (B.Book.state book) → LedTo B.Kind.Length.figures (B.Book.extent book) [] false (B.Book.state result.book) result.count }
    {
        // the call is there for its promise: a size is at most 256, so that no more than 510 edits come to be accepted
        book.size();
        Loom {
            book,
            count: 0,
            stage: PhantomData,
        }
    }

    /// Does an edit on the book, and counts it if it is accepted.
    pub(crate) fn edit(&mut self, edit: Edit<B::Kind>) -> Result<(), Refused>
        ensures { Edited B.Kind.Length.figures B.Book.extent B.Book.state B.Book.writes B.Book.leaves edit self.old.book self.old.count self.new.book self.new.count result }
    {
        let Loom { book, count, .. } = self;
        let answer = attempt(book, edit);
        *count = count_with(*count, answer);
        answer
    }

    /// Grows a tag by a spur.
    pub fn grow(&mut self, tag: u32, spur: &Spur<B::Kind>) -> Result<(), Refused>
        ensures { Edited B.Kind.Length.figures B.Book.extent B.Book.state B.Book.writes B.Book.leaves (Growth tag spur.now) self.old.book self.old.count self.new.book self.new.count result }
    {
        self.edit(Edit::Growth { tag, spur: *spur })
    }

    /// Strikes a tag.
    pub fn strike(&mut self, tag: u32) -> Result<(), Refused>
        ensures { Edited B.Kind.Length.figures B.Book.extent B.Book.state B.Book.writes B.Book.leaves (Strike tag) self.old.book self.old.count self.new.book self.new.count result }
    {
        self.edit(Edit::Strike { tag })
    }

    /// Releases the loom.
    pub fn release(self) -> Loom<B, Released>
        ensures book { result.book ≡ self.book }
        ensures count { result.count ≡ self.count }
        ensures goes_on { (h : List (ANoted B.Kind)) → LedTo B.Kind.Length.figures (B.Book.extent self.book) h false (B.Book.state self.book) self.count → LedTo B.Kind.Length.figures (B.Book.extent result.book) (with_call h calls.Release answers.Done) true (B.Book.state result.book) result.count }
    {
        self.turn()
    }

    /// Closes the loom, and gives back its book.
    pub fn close(self) -> B
        ensures { result ≡ self.book }
    {
        let Loom { book, .. } = self;
        book
    }
}

impl<B: Book> Loom<B, Released> {
    /// Opens the loom again, for edits.
    pub fn reopen(self) -> Loom<B, Open>
        ensures book { result.book ≡ self.book }
        ensures count { result.count ≡ self.count }
        ensures goes_on { (h : List (ANoted B.Kind)) → LedTo B.Kind.Length.figures (B.Book.extent self.book) h true (B.Book.state self.book) self.count → LedTo B.Kind.Length.figures (B.Book.extent result.book) (with_call h calls.Reopen answers.Done) false (B.Book.state result.book) result.count }
    {
        self.turn()
    }

    /// The distance of two points, refused and answered as by `plans::distance`, which leaves the memory so too.
    pub fn distance(&self, first: u32, last: u32, memory: &mut [B::Kind]) -> Result<B::Kind, Denial>
        ensures answer { Answers (measure_causes (B.Book.extent self.now.book) (length memory.old) (B.Book.state self.now.book) first last) (λ d. Distance B.Kind.Length.figures (B.Book.state self.now.book) first last d) result }
        ensures memory { Leaves B.Kind.Length.figures (B.Book.extent self.now.book) memory.old memory.new result }
        ensures goes_on { (h : List (ANoted B.Kind)) → LedTo B.Kind.Length.figures (B.Book.extent self.now.book) h true (B.Book.state self.now.book) self.now.count → LedTo B.Kind.Length.figures (B.Book.extent self.now.book) (with_call h (calls.Distance first last) (answers.Measured result)) true (B.Book.state self.now.book) self.now.count }
    {
        plans::distance(&self.book, first, last, memory)
    }

    /// The length of the path with these ends, as `plans::length` has it.
    pub fn length(&self, first: u32, last: u32, memory: &mut [B::Kind]) -> Result<B::Kind, Denial>
        ensures answer { Answers (measure_causes (B.Book.extent self.now.book) (length memory.old) (B.Book.state self.now.book) first last) (λ d. Distance B.Kind.Length.figures (B.Book.state self.now.book) first last d) result }
        ensures memory { Leaves B.Kind.Length.figures (B.Book.extent self.now.book) memory.old memory.new result }
        ensures goes_on { (h : List (ANoted B.Kind)) → LedTo B.Kind.Length.figures (B.Book.extent self.now.book) h true (B.Book.state self.now.book) self.now.count → LedTo B.Kind.Length.figures (B.Book.extent self.now.book) (with_call h (calls.Length first last) (answers.Measured result)) true (B.Book.state self.now.book) self.now.count }
    {
        plans::length(&self.book, first, last, memory)
    }

    /// The reach of the path with these ends, as `plans::reach` has it.
    pub fn reach(&self, first: u32, last: u32, memory: &mut [B::Kind]) -> Result<B::Kind, Denial>
        ensures answer { Answers (measure_causes (B.Book.extent self.now.book) (length memory.old) (B.Book.state self.now.book) first last) (λ r. Reach B.Kind.Length.figures (B.Book.state self.now.book) first last r) result }
        ensures memory { Leaves B.Kind.Length.figures (B.Book.extent self.now.book) memory.old memory.new result }
        ensures goes_on { (h : List (ANoted B.Kind)) → LedTo B.Kind.Length.figures (B.Book.extent self.now.book) h true (B.Book.state self.now.book) self.now.count → LedTo B.Kind.Length.figures (B.Book.extent self.now.book) (with_call h (calls.Reach first last) (answers.Measured result)) true (B.Book.state self.now.book) self.now.count }
    {
        plans::reach(&self.book, first, last, memory)
    }

    /// The sum of the path with these ends, as `plans::sum` has it.
    pub fn sum(&self, first: u32, last: u32, memory: &mut [B::Kind]) -> Result<B::Kind, Denial>
        ensures answer { Answers (measure_causes (B.Book.extent self.now.book) (length memory.old) (B.Book.state self.now.book) first last) (λ s. Total B.Kind.Length.figures (B.Book.state self.now.book) first last (B.Book.extent self.now.book) s) result }
        ensures memory { Leaves B.Kind.Length.figures (B.Book.extent self.now.book) memory.old memory.new result }
        ensures goes_on { (h : List (ANoted B.Kind)) → LedTo B.Kind.Length.figures (B.Book.extent self.now.book) h true (B.Book.state self.now.book) self.now.count → LedTo B.Kind.Length.figures (B.Book.extent self.now.book) (with_call h (calls.Sum first last) (answers.Measured result)) true (B.Book.state self.now.book) self.now.count }
    {
        plans::sum(&self.book, first, last, memory)
    }

    /// The hub, as `plans::hub` has it.
    pub fn hub(&self, memory: &mut [B::Kind]) -> Result<Plan<B::Kind>, Denial>
        ensures answer { Answers (plan_causes (B.Book.extent self.now.book) (length memory.old)) (λ p. Hub B.Kind.Length.figures (B.Book.state self.now.book) p.first p.last p.figure) result }
        ensures memory { Leaves B.Kind.Length.figures (B.Book.extent self.now.book) memory.old memory.new result }
        ensures goes_on { (h : List (ANoted B.Kind)) → LedTo B.Kind.Length.figures (B.Book.extent self.now.book) h true (B.Book.state self.now.book) self.now.count → LedTo B.Kind.Length.figures (B.Book.extent self.now.book) (with_call h calls.Hub (answers.Planned result)) true (B.Book.state self.now.book) self.now.count }
    {
        plans::hub(&self.book, memory)
    }

    /// The spine, as `plans::spine` has it.
    pub fn spine(&self, memory: &mut [B::Kind]) -> Result<Plan<B::Kind>, Denial>
        ensures answer { Answers (plan_causes (B.Book.extent self.now.book) (length memory.old)) (λ p. Spine B.Kind.Length.figures (B.Book.state self.now.book) p.first p.last p.figure) result }
        ensures memory { Leaves B.Kind.Length.figures (B.Book.extent self.now.book) memory.old memory.new result }
        ensures goes_on { (h : List (ANoted B.Kind)) → LedTo B.Kind.Length.figures (B.Book.extent self.now.book) h true (B.Book.state self.now.book) self.now.count → LedTo B.Kind.Length.figures (B.Book.extent self.now.book) (with_call h calls.Spine (answers.Planned result)) true (B.Book.state self.now.book) self.now.count }
    {
        plans::spine(&self.book, memory)
    }

    /// The trunk for a limit, as `plans::trunk` has it.
    pub fn trunk(&self, limit: B::Kind, memory: &mut [B::Kind]) -> Result<Plan<B::Kind>, Denial>
        ensures answer { Answers (plan_causes (B.Book.extent self.now.book) (length memory.old)) (λ p. Trunk B.Kind.Length.figures (B.Book.extent self.now.book) (B.Book.state self.now.book) limit p.first p.last p.figure) result }
        ensures memory { Leaves B.Kind.Length.figures (B.Book.extent self.now.book) memory.old memory.new result }
        ensures goes_on { (h : List (ANoted B.Kind)) → LedTo B.Kind.Length.figures (B.Book.extent self.now.book) h true (B.Book.state self.now.book) self.now.count → LedTo B.Kind.Length.figures (B.Book.extent self.now.book) (with_call h (calls.Trunk limit) (answers.Planned result)) true (B.Book.state self.now.book) self.now.count }
    {
        plans::trunk(&self.book, limit, memory)
    }
}
