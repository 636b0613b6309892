// The causes, checked in one place for every book: each answers the first cause that holds as its error.
ghost use Rattle.std.specs.Prelude.{◌≡◌, not, ◌||◌};
ghost use Rattle.books.specs.Causes.{checked, first_cause, spur_causes, growth_causes, strike_causes, look_causes};

use crate::causes::Refusal;
use crate::states::{Spur, State};
use lengths::Length;

/// The first cause against a spur of a tag, whatever states the tag and the parent have.
pub fn spur_cause<K: Length>(tag: u32, spur: &Spur<K>) -> Result<(), Refusal>
    ensures { result ≡ checked (first_cause (spur_causes K.figures tag spur.now)) }
{
    if !(1..tag).contains(&spur.parent) {
        return Err(Refusal::BadParent);
    }
    if !K::zero().less(&spur.run) || !spur.run.is_entry() {
        return Err(Refusal::BadRun);
    }
    if !spur.drop.is_entry() {
        return Err(Refusal::BadDrop);
    }
    Ok(())
}

/// The first cause against a growth, where the tag has the state `at` and its parent the state `up`.
pub fn growth_cause<K: Length>(
    size: u32,
    tag: u32,
    spur: &Spur<K>,
    at: State<K>,
    up: State<K>,
) -> Result<(), Refusal>
    ensures { result ≡ checked (first_cause (growth_causes K.figures size at up tag spur.now)) }
{
    if !(2..=size).contains(&tag) {
        return Err(Refusal::OutOfRange);
    }
    spur_cause(tag, spur)?;
    match (at, up) {
        (State::Standing(_), _) => Err(Refusal::TagStands),
        (State::Struck, _) => Err(Refusal::TagStruck),
        (State::Blank, State::Blank) => Err(Refusal::ParentBlank),
        (State::Blank, State::Struck) => Err(Refusal::ParentStruck),
        (State::Blank, State::Standing(_)) => Ok(()),
    }
}

/// The first cause against a strike, where the tag has the state `at`.
pub fn strike_cause<K: Length>(size: u32, tag: u32, at: State<K>) -> Result<(), Refusal>
    ensures { result ≡ checked (first_cause (strike_causes size at tag)) }
{
    if !(2..=size).contains(&tag) {
        return Err(Refusal::OutOfRange);
    }
    match at {
        State::Blank => Err(Refusal::TagBlank),
        State::Struck => Err(Refusal::TagStruck),
        State::Standing(_) => Ok(()),
    }
}

/// The cause against a look.
pub fn look_cause(size: u32, tag: u32) -> Result<(), Refusal>
    ensures { result ≡ checked (first_cause (look_causes size tag)) }
{
    if !(1..=size).contains(&tag) {
        return Err(Refusal::OutOfRange);
    }
    Ok(())
}
