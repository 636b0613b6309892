// The state of a tag.
ghost use Rattle.std.specs.Prelude.{◌≡◌};
ghost use Rattle.books.specs.States.{stands};

/// A spur says how a point hangs on the loom: from which parent, by which run, and with which drop.
#[derive(Clone, Copy, PartialEq, Eq, Debug)]
pub struct Spur<K> {
    pub parent: u32,
    pub run: K,
    pub drop: K,
}

/// What a book says of a tag: never grown, taken out for good, or standing by the spur of its growth.
#[derive(Clone, Copy, PartialEq, Eq, Debug)]
pub enum State<K> {
    Blank,
    Struck,
    Standing(Spur<K>),
}

impl<K: Copy> State<K> {
    /// Whether the tag stands.
    pub fn is_standing(self) -> bool
        ensures { result ≡ stands self }
    {
        matches!(self, State::Standing(_))
    }
}
