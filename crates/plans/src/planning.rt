// The plans: hub, spine and trunk of a book.
ghost use Rattle.std.specs.Prelude.{◌≡◌, ℕ, ◌+◌, ◌≤◌, length, drop as after, IfOk};
ghost use Rattle.lengths.specs.Figures.{Sum};
ghost use Rattle.books.specs.declared.states.State.{State as AState};
ghost use Rattle.plans.specs.Plans.{Hub, Spine, Trunk};
ghost use Rattle.plans.specs.Drawn.{Reads, drawn};
ghost use Rattle.plans.specs.Checks.{Answers, Leaves, plan_causes};
ghost use Rattle.plans.specs.Searching.{Central};

use crate::answers::Plan;
use crate::denials::Denial;
use crate::drawing::Drawing;
use crate::searching::Found;
use crate::weighing::{Measure, Reaches, Sums};
use books::Book;
use lengths::Length;

impl<K: Length> Drawing<K> {
    /// The points of least reach so far, with one more tag.
    fn center_with(&self, best: Plan<K>, tag: usize, memory: &mut [K]) -> Plan<K>
        requires { (2 ≤ tag) × (tag ≤ self.now.size) × (self.now.size ≤ length memory.old) }
        ensures central { (state : ℕ → AState K) → Reads K.figures self.now.size state (drawn self.now.states) → Central K.figures state tag best → Central K.figures state (tag + 1) result }
        ensures long { length memory.new ≡ length memory.old }
        ensures rest { after self.now.size memory.new ≡ after self.now.size memory.old }
    {
        if !self.is_point(tag) {
            return best;
        }
        let figure = Reaches::of(self, tag, tag, memory);
        let point = tag as u32;
        if figure.less(&best.figure) {
            return Plan {
                first: point,
                last: point,
                figure,
            };
        }
        if best.figure.less(&figure) {
            return best;
        }
        Plan {
            last: point,
            ..best
        }
    }

    /// The points of least reach: the first and the last of them, with that reach.
    fn center(&self, memory: &mut [K]) -> Plan<K>
        requires { self.now.size ≤ length memory.old }
        ensures central { (state : ℕ → AState K) → Reads K.figures self.now.size state (drawn self.now.states) → Central K.figures state (self.now.size + 1) result }
        ensures long { length memory.new ≡ length memory.old }
        ensures rest { after self.now.size memory.new ≡ after self.now.size memory.old }
    {
        let mut best = Plan {
            first: 1,
            last: 1,
            figure: Reaches::of(self, 1, 1, memory),
        };
        for tag in 2..=self.size {
            best = self.center_with(best, tag, memory);
        }
        best
    }
}

/// The hub (the weighted center): the points of least reach, which are one point, given twice, or two joined by a run; with that
/// reach, a sum of at most 256 entries. A refused call leaves the memory as it was; an accepted one leaves zeros, as many as the
/// size, and the rest as it was.
pub fn hub<B: Book>(book: &B, memory: &mut [B::Kind]) -> Result<Plan<B::Kind>, Denial>
    ensures answer { Answers (plan_causes (B.Book.extent book.now) (length memory.old)) (λ p. Hub B.Kind.Length.figures (B.Book.state book.now) p.first p.last p.figure) result }
    ensures only { IfOk result (λ p. (first last : ℕ) (figure : B.Kind) → Hub B.Kind.Length.figures (B.Book.state book.now) first last figure → (first ≡ p.first) × (last ≡ p.last) × (figure ≡ p.figure)) }
    ensures bound { IfOk result (λ p. Sum B.Kind.Length.figures 256 p.figure) }
    ensures memory { Leaves B.Kind.Length.figures (B.Book.extent book.now) memory.old memory.new result }
{
    let drawing = Drawing::fitting(book, memory.len())?;
    let hub = drawing.center(memory);
    drawing.clear(memory);
    Ok(hub)
}

/// The spine (the path center): the path of least reach of which no smaller part has the same reach; with that reach. The memory
/// is left as by `hub`.
pub fn spine<B: Book>(book: &B, memory: &mut [B::Kind]) -> Result<Plan<B::Kind>, Denial>
    ensures answer { Answers (plan_causes (B.Book.extent book.now) (length memory.old)) (λ p. Spine B.Kind.Length.figures (B.Book.state book.now) p.first p.last p.figure) result }
    ensures only { IfOk result (λ p. (first last : ℕ) (figure : B.Kind) → Spine B.Kind.Length.figures (B.Book.state book.now) first last figure → (first ≡ p.first) × (last ≡ p.last) × (figure ≡ p.figure)) }
    ensures bound { IfOk result (λ p. Sum B.Kind.Length.figures 256 p.figure) }
    ensures memory { Leaves B.Kind.Length.figures (B.Book.extent book.now) memory.old memory.new result }
{
    let drawing = Drawing::fitting(book, memory.len())?;
    let spine = drawing.search::<Reaches>(None, memory);
    drawing.clear(memory);
    Ok(spine.plan())
}

/// The trunk for a limit (the core of limited length): the path of least sum among those whose length is at most the limit, and by
/// the ties the first of them; with that sum. The memory is left as by `hub`.
pub fn trunk<B: Book>(
    book: &B,
    limit: B::Kind,
    memory: &mut [B::Kind],
) -> Result<Plan<B::Kind>, Denial>
    ensures answer { Answers (plan_causes (B.Book.extent book.now) (length memory.old)) (λ p. Trunk B.Kind.Length.figures (B.Book.extent book.now) (B.Book.state book.now) limit p.first p.last p.figure) result }
    ensures only { IfOk result (λ p. (first last : ℕ) (figure : B.Kind) → Trunk B.Kind.Length.figures (B.Book.extent book.now) (B.Book.state book.now) limit first last figure → (first ≡ p.first) × (last ≡ p.last) × (figure ≡ p.figure)) }
    ensures bound { IfOk result (λ p. Sum B.Kind.Length.figures 65280 p.figure) }
    ensures memory { Leaves B.Kind.Length.figures (B.Book.extent book.now) memory.old memory.new result }
{
    let drawing = Drawing::fitting(book, memory.len())?;
    let trunk = drawing.search::<Sums>(Some(limit), memory);
    drawing.clear(memory);
    Ok(trunk.plan())
}
