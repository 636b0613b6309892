// The tree of a loom, as it was read out of its book.
ghost use Rattle.std.specs.Prelude.{◌≡◌, ℕ, ◌<◌, ◌≤◌, false, slice_index_or};
ghost use Rattle.books.specs.States.{stands};
ghost use Rattle.plans.specs.Drawn.{Climbed, spur_of, parent_of, run_of, drop_of, drawn, Shows, Reads, Falling};

use books::{Book, Spur, State};
use cells::Column;
use lengths::Length;

/// The tree of a loom: the state of each tag, as it was read out of the book. Tag 1 has the first place. Sizes go from 1 to 256,
/// and every parent is smaller than its tag. (The size stands beside the column, which always has 256 places: the passes go over the
/// tags of the loom alone.)
#[derive(Drop)]
pub(crate) struct Drawing<K> {
    pub(crate) size: usize,
    states: Column<State<K>>,
    ghost fits: { (1 ≤ size) × (size ≤ 256) },
    ghost falling: { Falling (drawn states) },
}

/// Reads every tag of a book, once. Beyond the size they are blank.
fn states_of<B: Book>(book: &B) -> Column<State<B::Kind>>
    ensures { Shows (B.Book.state book.now) (drawn result) }
{
    let size = book.size();
    let mut states = Column::filled(State::Blank);
    for tag in 1..=size {
        let state = book.look(tag).unwrap_or(State::Blank);
        states.put(tag as usize - 1, state);
    }
    states
}

impl<K: Length> Drawing<K> {
    /// The tree of the loom that a book keeps.
    pub(crate) fn of<B: Book<Kind = K>>(book: &B) -> Drawing<K>
        ensures size { result.size ≡ B.Book.extent book.now }
        ensures reads { Reads K.figures result.size (B.Book.state book.now) (drawn result.states) }
    {
        let size = book.size() as usize;
        let states = states_of(book);
        Drawing { size, states }
    }

    // Tags are plain numbers from 1 on, as in a book; a type for them would be taken apart at each use.

    /// The state of a tag.
    pub(crate) fn state_of(&self, tag: usize) -> &State<K>
        requires { 1 ≤ tag }
        ensures { result.now ≡ drawn self.now.states tag }
    {
        self.states.get(tag - 1)
    }

    /// The spur of a tag, where it stands.
    fn spur_of(&self, tag: usize) -> Option<Spur<K>>
        requires { 1 ≤ tag }
        ensures { result ≡ spur_of (drawn self.now.states tag) }
    {
        match self.state_of(tag) {
            State::Standing(spur) => Some(*spur),
            State::Struck | State::Blank => None,
        }
    }

    /// Whether a tag stands.
    pub(crate) fn is_point(&self, tag: usize) -> bool
        requires { 1 ≤ tag }
        ensures { result ≡ stands (drawn self.now.states tag) }
    {
        self.state_of(tag).is_standing()
    }

    // Three readings of a spur, each one line over `spur_of`: what they share is in there, and one function for any part of a spur
    // would be `map_or` again.

    /// The parent of a tag; 0 where it does not stand. (No Option: the states themselves give the root the parent 0.)
    pub(crate) fn parent_of(&self, tag: usize) -> usize
        requires { 1 ≤ tag }
        ensures { result ≡ parent_of (drawn self.now.states tag) }
    {
        self.spur_of(tag).map_or(0, |spur| spur.parent as usize)
    }

    /// The run of a tag; zero where it does not stand. (No Option: the states themselves give the root the run zero.)
    pub(crate) fn run_of(&self, tag: usize) -> K
        requires { 1 ≤ tag }
        ensures { result ≡ run_of K.figures (drawn self.now.states tag) }
    {
        self.spur_of(tag).map_or(K::zero(), |spur| spur.run)
    }

    /// The drop of a tag; zero where it does not stand. (No Option: the states themselves give the root the drop zero.)
    pub(crate) fn drop_of(&self, tag: usize) -> K
        requires { 1 ≤ tag }
        ensures { result ≡ drop_of K.figures (drawn self.now.states tag) }
    {
        self.spur_of(tag).map_or(K::zero(), |spur| spur.drop)
    }

    /// The tags that are met on going up from a tag: it, and all that it hangs from.
    pub(crate) fn chain(&self, from: usize) -> [bool; 257]
        requires { from ≤ 256 }
        ensures { Climbed (drawn self.now.states) from result }
    {
        let mut met = [false; 257];
        let mut at = from;
        while at > 0 {
            met[at] = true;
            at = self.parent_of(at);
        }
        met
    }
}
