// The first-then kind, made from any two kinds, and the two kinds that the shop uses.
ghost use Rattle.std.specs.Prelude.{◌≡◌, true};
ghost use Rattle.lengths.specs.Figures.{Less};
ghost use Rattle.lengths.specs.Pairs.{first_then, kind_c_figures, figure_c};
ghost use Rattle.lengths.specs.PairLaws.{pair_laws, pair_ordered};

use crate::count::{Couplings, Millimetres};
use crate::interface::{Length, Ordered};

/// A figure in two parts: the first decides, and the second where the first parts are equal.
#[derive(Clone, Copy, PartialEq, Eq, PartialOrd, Ord, Debug)]
pub struct FirstThen<A, B> {
    pub first: A,
    pub second: B,
}

impl<A: Length, B: Length> Length for FirstThen<A, B> {
    ghost figures = { first_then A.Length.figures B.Length.figures };

    ghost laws = { pair_laws A.Length.laws B.Length.laws };

    fn zero() -> FirstThen<A, B> {
        FirstThen {
            first: A::zero(),
            second: B::zero(),
        }
    }

    fn plus(self, other: FirstThen<A, B>) -> FirstThen<A, B> {
        FirstThen {
            first: self.first.plus(other.first),
            second: self.second.plus(other.second),
        }
    }

    fn less(&self, other: &FirstThen<A, B>) -> bool {
        if self.first.less(&other.first) {
            return true;
        }
        if other.first.less(&self.first) {
            return false;
        }
        self.second.less(&other.second)
    }

    fn is_entry(&self) -> bool {
        self.first.is_entry() && self.second.is_entry()
    }
}

impl<A: Ordered, B: Ordered> Ordered for FirstThen<A, B> {
    ghost ordered = { pair_ordered A.Length.figures B.Length.figures A.Ord.cmp B.Ord.cmp A.Ord.total A.Ordered.ordered B.Ordered.ordered };
}

/// Kind M: millimetres alone.
pub type KindM = Millimetres;

/// Kind C: couplings first, then millimetres.
pub type KindC = FirstThen<Couplings, Millimetres>;

/// The figure of kind C with so many couplings and millimetres.
pub fn kind_c(couplings: u64, millimetres: u64) -> KindC
    ensures { result ≡ figure_c couplings millimetres }
{
    FirstThen {
        first: Couplings { value: couplings },
        second: Millimetres { value: millimetres },
    }
}

/// In kind C one coupling is more than the longest entry without one: a worked case, proved.
pub fn one_coupling_is_more() -> bool
    ensures answer { result ≡ true }
    ensures more { Less kind_c_figures (figure_c 0 1000000) (figure_c 1 0) }
{
    kind_c(0, 1_000_000) < kind_c(1, 0)
}
