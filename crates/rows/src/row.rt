// A row.
ghost use Rattle.std.specs.Prelude.{◌≡◌};
ghost use Rattle.books.specs.declared.states.State.TheVariants.{Blank};
ghost use Rattle.rows.specs.Rows.{row_of};

use books::State;

/// What was last written of one tag. What a row says of a standing tag counts only while its parent stands: so a strike writes
/// one row, and every tag that hangs from the struck one is struck with it.
#[derive(Clone, Copy, PartialEq, Eq, Debug)]
pub struct Row<K> {
    pub state: State<K>,
}

impl<K> Row<K> {
    /// A row of a tag that was never grown: what memory for rows is made of.
    pub fn blank() -> Row<K>
        ensures { result ≡ row_of Blank }
    {
        Row {
            state: State::Blank,
        }
    }
}
