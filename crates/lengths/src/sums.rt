// Sums and comparisons in any kind, from the laws alone.
ghost use Rattle.std.specs.Prelude.{◌≡◌, ◌≤◌, true, length, if◌then◌else◌};
ghost use Rattle.std.specs.List.{AllByRecursion};
ghost use Rattle.lengths.specs.Figures.{AtMost, Sum, added, total, most_entries};

use crate::interface::Length;

/// What figures come to, added one after another. Of entries within the bound the order does not matter: added from
/// the last one backwards they come to the same, and that is a sum of as many entries as there are.
pub fn sum_of<L: Length>(xs: &[L]) -> L
    ensures value { result ≡ added L.figures L.figures.zero xs.now }
    ensures backwards { AllByRecursion (λ x. L.figures.entry x ≡ true) xs.now → length xs.now ≤ most_entries → result ≡ total L.figures xs.now }
    ensures entries { AllByRecursion (λ x. L.figures.entry x ≡ true) xs.now → Sum L.figures (length xs.now) result }
{
    let mut all = L::zero();
    // no `fold`: the three clauses stayed open with it
    for x in xs {
        all = all.plus(*x);
    }
    all
}

/// The larger of two figures: one of them, and neither is more.
pub fn larger<L: Length>(a: L, b: L) -> L
    ensures value { result ≡ (if L.figures.less a b then b else a) }
    ensures most { AtMost L.figures a result × AtMost L.figures b result }
{
    if a.less(&b) { b } else { a }
}
