// What the rows say of a tag.
ghost use Rattle.std.specs.Prelude.{◌≡◌, ◌+◌, min};
ghost use Rattle.rows.specs.Rows.{row_at, fit, state_of};

use crate::interface::Rows;
use crate::row::Row;
use books::{Spur, State, spur_cause};
use lengths::Length;

/// The size of a book with this number of rows: one for each tag from 2 upward, of which a book uses 255.
pub fn size_for(rows: usize) -> u32
    ensures { result ≡ 1 + min 255 rows }
{
    1 + rows.min(255) as u32
}

/// What the row at this index says, and blank past the last row.
pub fn row_at<K: Copy>(rows: &[Row<K>], index: usize) -> State<K>
    ensures { result ≡ row_at rows.now index }
{
    rows.get(index).map_or(State::Blank, |row| row.state)
}

/// Whether a tag may stand by a spur, leaving aside whether the parent stands.
fn fits<K: Length>(tag: u32, spur: &Spur<K>) -> bool
    ensures { result ≡ fit K.figures tag spur.now }
{
    spur_cause(tag, spur).is_ok()
}

/// The state of a tag: what its row says, where the tag has one; a tag stands only while its parent stands. It goes up from
/// the tag to the root, one row at a time.
pub fn state_at<R: Rows>(rows: &R, tag: u32) -> State<R::Kind>
    ensures { result ≡ state_of R.Kind.Length.figures (R.Rows.rows rows.now) tag }
{
    if tag == 1 {
        return State::Standing(Spur {
            parent: 0,
            run: R::Kind::zero(),
            drop: R::Kind::zero(),
        });
    }
    if !(2..=rows.extent()).contains(&tag) {
        return State::Blank;
    }
    match rows.row(tag as usize - 2) {
        State::Blank => State::Blank,
        State::Struck => State::Struck,
        State::Standing(spur) => {
            if fits(tag, &spur) && state_at(rows, spur.parent).is_standing() {
                State::Standing(spur)
            } else {
                State::Struck
            }
        }
    }
}
