// The measures: of the path between two points of a book.
ghost use Rattle.std.specs.Prelude.{◌≡◌, ℕ, List, length, IfOk};
ghost use Rattle.plans.specs.Checks.{Answers, Ends, Leaves, measure_causes};
ghost use Rattle.lengths.specs.Figures.{Sum};
ghost use Rattle.plans.specs.Ways.{Way};
ghost use Rattle.plans.specs.Measures.{Distance, Reach, Total};

use crate::denials::Denial;
use crate::drawing::Drawing;
use crate::weighing::{Lengths, Measure, Reaches, Sums};
use books::Book;

/// A measure of the path between two tags.
fn measure<B: Book, M: Measure<B::Kind>>(
    book: &B,
    first: u32,
    last: u32,
    memory: &mut [B::Kind],
) -> Result<B::Kind, Denial>
    ensures answer { Answers (measure_causes (B.Book.extent book.now) (length memory.old) (B.Book.state book.now) first last) (λ f. M.Measure.is (B.Book.extent book.now) (B.Book.state book.now) first last f) result }
    ensures ends { IfOk result (λ _. Ends B.Kind.Length.figures (B.Book.extent book.now) (B.Book.state book.now) first last) }
    ensures memory { Leaves B.Kind.Length.figures (B.Book.extent book.now) memory.old memory.new result }
{
    let drawing = Drawing::fitting(book, memory.len())?;
    let first = drawing.point(first)?;
    let last = drawing.point(last)?;
    let figure = M::of(&drawing, first, last, memory);
    drawing.clear(memory);
    Ok(figure)
}

/// The distance of two points: the sum of the runs on the way between them, which is at most 255 entries. There is such a way, and
/// no other, and it is as long from the other end. A refused call leaves the memory as it was; an accepted one leaves zeros, as many
/// as the size, and the rest as it was.
pub fn distance<B: Book>(
    book: &B,
    first: u32,
    last: u32,
    memory: &mut [B::Kind],
) -> Result<B::Kind, Denial>
    ensures answer { Answers (measure_causes (B.Book.extent book.now) (length memory.old) (B.Book.state book.now) first last) (λ d. Distance B.Kind.Length.figures (B.Book.state book.now) first last d) result }
    ensures way { IfOk result (λ d. (points : List ℕ) × (Way B.Kind.Length.figures (B.Book.state book.now) last first points d × ((others : List ℕ) (e : B.Kind) → Way B.Kind.Length.figures (B.Book.state book.now) last first others e → (others ≡ points) × (e ≡ d)))) }
    ensures turned { IfOk result (λ d. Distance B.Kind.Length.figures (B.Book.state book.now) last first d) }
    ensures bound { IfOk result (λ d. Sum B.Kind.Length.figures 255 d) }
    ensures memory { Leaves B.Kind.Length.figures (B.Book.extent book.now) memory.old memory.new result }
{
    measure::<B, Lengths>(book, first, last, memory)
}

/// The length of the path with these ends, in either order: the sum of its runs, which is the distance of its ends. The memory is
/// left as by `distance`.
pub fn length<B: Book>(
    book: &B,
    first: u32,
    last: u32,
    memory: &mut [B::Kind],
) -> Result<B::Kind, Denial>
    ensures answer { Answers (measure_causes (B.Book.extent book.now) (length memory.old) (B.Book.state book.now) first last) (λ d. Distance B.Kind.Length.figures (B.Book.state book.now) first last d) result }
    ensures turned { IfOk result (λ d. Distance B.Kind.Length.figures (B.Book.state book.now) last first d) }
    ensures bound { IfOk result (λ d. Sum B.Kind.Length.figures 255 d) }
    ensures memory { Leaves B.Kind.Length.figures (B.Book.extent book.now) memory.old memory.new result }
{
    distance(book, first, last, memory)
}

/// The reach of the path with these ends, in either order (its weighted eccentricity): the greatest, over all points, of drop plus
/// distance to the path; a sum of at most 256 entries. The memory is left as by `distance`.
pub fn reach<B: Book>(
    book: &B,
    first: u32,
    last: u32,
    memory: &mut [B::Kind],
) -> Result<B::Kind, Denial>
    ensures answer { Answers (measure_causes (B.Book.extent book.now) (length memory.old) (B.Book.state book.now) first last) (λ r. Reach B.Kind.Length.figures (B.Book.state book.now) first last r) result }
    ensures turned { IfOk result (λ r. Reach B.Kind.Length.figures (B.Book.state book.now) last first r) }
    ensures bound { IfOk result (λ r. Sum B.Kind.Length.figures 256 r) }
    ensures memory { Leaves B.Kind.Length.figures (B.Book.extent book.now) memory.old memory.new result }
{
    measure::<B, Reaches>(book, first, last, memory)
}

/// The sum of the path with these ends, in either order: the total, over all points, of the distance to the path, which is at most
/// 65,280 entries. The memory is left as by `distance`.
pub fn sum<B: Book>(
    book: &B,
    first: u32,
    last: u32,
    memory: &mut [B::Kind],
) -> Result<B::Kind, Denial>
    ensures answer { Answers (measure_causes (B.Book.extent book.now) (length memory.old) (B.Book.state book.now) first last) (λ s. Total B.Kind.Length.figures (B.Book.state book.now) first last (B.Book.extent book.now) s) result }
    ensures turned { IfOk result (λ s. Total B.Kind.Length.figures (B.Book.state book.now) last first (B.Book.extent book.now) s) }
    ensures bound { IfOk result (λ s. Sum B.Kind.Length.figures 65280 s) }
    ensures memory { Leaves B.Kind.Length.figures (B.Book.extent book.now) memory.old memory.new result }
{
    measure::<B, Sums>(book, first, last, memory)
}
