// Kinds whose figures are whole numbers: one type, by the greatest entry.
ghost use Rattle.lengths.specs.Whole.{counts};
ghost use Rattle.std.specs.Prelude.{refl};
ghost use Rattle.std.proofs.Common.{rules, arith};
ghost use Rattle.lengths.specs.WholeLaws.{whole_laws, whole_exact};

use crate::interface::{Length, Ordered, Whole};

/// A whole number of units, of which a single run or drop has at most `MOST`. A sum too large for 64 bits is the greatest number
/// that they hold.
#[derive(Clone, Copy, PartialEq, Eq, PartialOrd, Ord, Debug)]
pub struct Count<const MOST: u32> {
    pub value: u64,
}

/// Millimetres. An entry is at most 1,000,000.
pub type Millimetres = Count<1_000_000>;

/// Couplings: the joints on a run. An entry is at most 9.
pub type Couplings = Count<9>;

impl<const MOST: u32> Length for Count<MOST> {
    ghost figures = { counts MOST };

    ghost laws = { whole_laws (λ n. record { value = n }) (λ x. x.value) (λ x. refl) (λ n. refl) MOST (omega arith) };

    fn zero() -> Count<MOST> {
        Count { value: 0 }
    }

    fn plus(self, other: Count<MOST>) -> Count<MOST> {
        Count {
            value: self.value.saturating_add(other.value),
        }
    }

    fn less(&self, other: &Count<MOST>) -> bool {
        self.value < other.value
    }

    fn is_entry(&self) -> bool {
        self.value <= u64::from(MOST)
    }
}

impl<const MOST: u32> Ordered for Count<MOST> {
    ghost ordered = { Prim.search rules };
}

impl<const MOST: u32> Whole for Count<MOST> {
    ghost number = { λ x. x.value };

    ghost exact = { whole_exact (λ n. record { value = n }) (λ x. x.value) (λ x. refl) (λ n. refl) MOST (omega arith) };

    fn value(&self) -> u64 {
        self.value
    }
}
