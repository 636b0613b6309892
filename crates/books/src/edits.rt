// Edits, and what each was answered.
ghost use Rattle.std.specs.Prelude.{◌≡◌};
ghost use Rattle.books.specs.Edits.{answer_number, tag_of, written};

use crate::causes::Refused;
use crate::states::{Spur, State};

/// An edit: the growth of a tag by a spur, or the strike of one.
#[derive(Clone, Copy, PartialEq, Eq, Debug)]
pub enum Edit<K> {
    Growth { tag: u32, spur: Spur<K> },
    Strike { tag: u32 },
}

impl<K: Copy> Edit<K> {
    /// The tag that this edit names.
    pub fn tag(self) -> u32
        ensures { result ≡ tag_of self }
    {
        match self {
            Edit::Growth { tag, .. } | Edit::Strike { tag } => tag,
        }
    }

    /// The state that this edit says of its tag.
    pub fn written(self) -> State<K>
        ensures { result ≡ written self }
    {
        match self {
            Edit::Growth { spur, .. } => State::Standing(spur),
            Edit::Strike { .. } => State::Struck,
        }
    }
}

/// What an edit was answered: nothing yet, or accepted, or a refusal.
pub type Answer = Option<Result<(), Refused>>;

/// An edit with what it was answered.
#[derive(Clone, Copy, PartialEq, Eq, Debug)]
pub struct Entry<K> {
    pub edit: Edit<K>,
    pub answer: Answer,
}

/// The number of an answer: 0 for accepted, else the number of the refusal. (Numbers, since reports and tables are written in them.
/// An entry that has no answer yet has none there: 255, which is no number of a refusal, says so, and no report comes to print it.)
pub fn answer_number(answer: Answer) -> u8
    ensures { result ≡ answer_number answer }
{
    match answer {
        None => 255,
        Some(Ok(())) => 0,
        Some(Err(refused)) => refused.cause.number(),
    }
}
