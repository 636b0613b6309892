// What a measure or a plan checks before it begins, and how it leaves the memory.
ghost use Rattle.std.specs.Prelude.{◌≡◌, ◌++◌, ◌<◌, ◌≤◌, length, drop as after, replicate, None, Some, MatchResult};
ghost use Rattle.books.specs.Causes.{first_cause};
ghost use Rattle.plans.specs.declared.denials.Denial.TheVariants.{ShortMemory};
ghost use Rattle.plans.specs.Checks.{point_causes};
ghost use Rattle.plans.specs.Drawn.{Reads, drawn};

use crate::denials::Denial;
use crate::drawing::Drawing;
use books::{Book, Refusal, State};
use lengths::Length;

/// Makes every figure zero. (`fill` asks of a type that cloning it cannot fail, and a kind need not say so.)
fn clear<K: Length>(figures: &mut [K])
    ensures { figures.new ≡ replicate (length figures.old) K.figures.zero }
{
    for figure in figures.iter_mut() {
        *figure = K::zero();
    }
}

impl<K: Length> Drawing<K> {
    /// The tree of the loom that a book keeps, if so much memory is enough for it.
    pub(crate) fn fitting<B: Book<Kind = K>>(book: &B, room: usize) -> Result<Drawing<K>, Denial>
        ensures { MatchResult result (λ d. (d.size ≡ B.Book.extent book.now) × (B.Book.extent book.now ≤ room) × Reads K.figures d.size (B.Book.state book.now) (drawn d.states)) (λ e. (e ≡ ShortMemory) × (room < B.Book.extent book.now)) }
    {
        if room < book.size() as usize {
            return Err(Denial::ShortMemory);
        }
        Ok(Drawing::of(book))
    }

    /// A tag, if it is a point.
    pub(crate) fn point(&self, tag: u32) -> Result<usize, Denial>
        ensures { MatchResult result (λ t. (t ≡ tag) × (first_cause (point_causes self.now.size (drawn self.now.states tag) tag) ≡ None)) (λ e. first_cause (point_causes self.now.size (drawn self.now.states tag) tag) ≡ Some e) }
    {
        let at = tag as usize;
        if !(1..=self.size).contains(&at) {
            return Err(Denial::NoPoint(Refusal::OutOfRange.of_tag(tag)));
        }
        match self.state_of(at) {
            State::Blank => Err(Denial::NoPoint(Refusal::TagBlank.of_tag(tag))),
            State::Struck => Err(Denial::NoPoint(Refusal::TagStruck.of_tag(tag))),
            State::Standing(_) => Ok(at),
        }
    }

    /// Puts zero into the place of each tag. What lies after them stays.
    pub(crate) fn clear(&self, memory: &mut [K])
        requires { self.now.size ≤ length memory.old }
        ensures { memory.new ≡ replicate self.now.size K.figures.zero ++ after self.now.size memory.old }
    {
        clear(&mut memory[..self.size]);
    }
}
