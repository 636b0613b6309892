// The calls of a loom, and what each is answered.
use books::{Edit, Refused, State};
use plans::{Denial, Plan};

/// A call of a loom, as it stands in a list.
#[derive(Clone, Copy, PartialEq, Eq, Debug)]
pub enum Call<K> {
    Edit(Edit<K>),
    Release,
    Reopen,
    Size,
    Count,
    Look { tag: u32 },
    Distance { first: u32, last: u32 },
    Length { first: u32, last: u32 },
    Reach { first: u32, last: u32 },
    Sum { first: u32, last: u32 },
    Hub,
    Spine,
    Trunk { limit: K },
}

/// What a call was answered. A call that the state of the loom does not allow is not done, and is no refusal.
#[derive(Clone, Copy, PartialEq, Eq, Debug)]
pub enum Answer<K> {
    NotAllowed,
    Done,
    Edited(Result<(), Refused>),
    Number(u32),
    Looked(Result<State<K>, Refused>),
    Measured(Result<K, Denial>),
    Planned(Result<Plan<K>, Denial>),
}

/// A call, with what it was answered: nothing yet, or an answer.
#[derive(Clone, Copy, PartialEq, Eq, Debug)]
pub struct Noted<K> {
    pub call: Call<K>,
    pub answer: Option<Answer<K>>,
}
