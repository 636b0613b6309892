// Judging the calls of a book whose states are read from rows. (Each clause names the size and the states that the rows say: a word
// for the two would only hide them.)
ghost use Rattle.std.specs.Prelude.{◌≡◌};
ghost use Rattle.books.specs.declared.edits.Edit.TheVariants.{Growth, Strike};
ghost use Rattle.books.specs.Causes.{answered, first_cause, look_causes};
ghost use Rattle.books.specs.Edits.{verdict};
ghost use Rattle.rows.specs.Rows.{extent_of, state_of};

use crate::interface::Rows;
use crate::reading::state_at;
use books::{Refused, Spur, State, growth_cause, look_cause, strike_cause};

/// What a look at a tag is answered.
pub fn judge_look<R: Rows>(rows: &R, tag: u32) -> Result<State<R::Kind>, Refused>
    ensures { result ≡ answered tag (state_of R.Kind.Length.figures (R.Rows.rows rows.now) tag) (first_cause (look_causes (extent_of (R.Rows.rows rows.now)) tag)) }
{
    look_cause(rows.extent(), tag).map_err(|cause| cause.of_tag(tag))?;
    Ok(state_at(rows, tag))
}

/// What a growth is answered, before anything is written.
pub fn judge_growth<R: Rows>(rows: &R, tag: u32, spur: &Spur<R::Kind>) -> Result<(), Refused>
    ensures { result ≡ verdict R.Kind.Length.figures (extent_of (R.Rows.rows rows.now)) (state_of R.Kind.Length.figures (R.Rows.rows rows.now)) (Growth tag spur.now) }
{
    let at = state_at(rows, tag);
    let up = state_at(rows, spur.parent);
    growth_cause(rows.extent(), tag, spur, at, up).map_err(|cause| cause.of_tag(tag))
}

/// What a strike is answered, before anything is written.
pub fn judge_strike<R: Rows>(rows: &R, tag: u32) -> Result<(), Refused>
    ensures { result ≡ verdict R.Kind.Length.figures (extent_of (R.Rows.rows rows.now)) (state_of R.Kind.Length.figures (R.Rows.rows rows.now)) (Strike tag) }
{
    let at = state_at(rows, tag);
    strike_cause(rows.extent(), tag, at).map_err(|cause| cause.of_tag(tag))
}
