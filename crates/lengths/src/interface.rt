// The interface of a kind of length, and of one whose figures are whole numbers.
ghost use Rattle.std.specs.Prelude.{◌≡◌, ℕ, Decides};
ghost use Rattle.std.specs.Ordering.{is_lt};
ghost use Rattle.lengths.specs.Figures.{Figures, Laws, Exact};

/// A kind of length. A value of the type is a figure; an entry is a figure that may be a single run or drop.
pub trait Length: Copy {
    // What the kind says of its figures.
    ghost figures: { Figures Self };

    /// The figure that adds nothing.
    fn zero() -> Self
        ensures { result ≡ figures.zero };

    /// What two figures come to.
    fn plus(self, other: Self) -> Self
        ensures { result ≡ figures.sum self other };

    /// Whether this figure is less than the other.
    fn less(&self, other: &Self) -> bool
        ensures { result ≡ figures.less self.now other.now };

    /// Whether the two are the same figure.
    fn same(&self, other: &Self) -> bool
        ensures { Decides result (self.now ≡ other.now) }
    {
        !self.less(other) && !other.less(self)
    }

    /// Whether this figure may be an entry.
    fn is_entry(&self) -> bool
        ensures { result ≡ figures.entry self.now };

    // The laws, which each kind shows and generic code cites.
    ghost laws: { Laws figures };
}

/// A kind whose type is ordered as its figures are: `<` of two figures says what `less` does.
pub trait Ordered: Length + Ord {
    /// Whether this figure is before the other in the order of the type: what `<` says, in the words of the kind.
    fn before(&self, other: &Self) -> bool
        ensures { result ≡ Self.Length.figures.less self.now other.now }
    {
        self < other
    }

    // The order of the type is that of the figures.
    ghost ordered: { (x y : Self) → is_lt (Self.Ord.cmp x y) ≡ Self.Length.figures.less x y };
}

/// A kind whose figures are whole numbers.
pub trait Whole: Length {
    // The whole number that a figure is.
    ghost number: { Self → ℕ };

    /// The whole number that this figure is.
    fn value(&self) -> u64
        ensures { result ≡ number self.now };

    // Figures compare by their numbers, and a sum within the bound on entries is the sum of the whole numbers.
    ghost exact: { Exact Self.Length.figures number };
}
