//! Worked cases: edits with the numbers that they are answered with, as anyone can work them out by hand.
#![tactic(auto)]

ghost use Rattle.std.specs.Prelude.{◌≡◌};
ghost use Rattle.books.specs.declared.edits.Edit.TheVariants.{Strike};
ghost use Rattle.worked.specs.Worked.{growth_of, case, cases, WorkedOut};

use books::{Edit, Spur};
use lengths::{KindM, Millimetres};

/// An edit, and the number of its answer. (A number, as whoever works the cases out by hand finds it in the table of refusals.)
#[derive(Clone, Copy, PartialEq, Eq, Debug)]
pub struct Case {
    pub edit: Edit<KindM>,
    pub number: u8,
}

/// The growth of a tag in kind M, without a drop. (Crate `logs_tests` makes its own, in any kind.)
fn growth(tag: u32, parent: u32, run: u64) -> Edit<KindM>
    ensures { result ≡ growth_of tag parent run }
{
    let spur = Spur {
        parent,
        run: Millimetres { value: run },
        drop: Millimetres { value: 0 },
    };
    Edit::Growth { tag, spur }
}

/// An edit with the number of its answer.
fn worked(edit: Edit<KindM>, number: u8) -> Case
    ensures { result ≡ case edit number }
{
    Case { edit, number }
}

/// The strike of a tag in kind M.
fn strike(tag: u32) -> Edit<KindM>
    ensures { result ≡ Strike tag }
{
    Edit::Strike { tag }
}

/// Edits in kind M, with the numbers that they are answered with when they are done one after another on a new book of 256
/// tags, whatever book it is.
pub fn worked_cases() -> [Case; 13]
    ensures table { result ≡ cases }
    ensures answers { WorkedOut result }
{
    [
        // the parent is judged before the run
        worked(growth(3, 3, 0), 2),
        // a run is more than zero and at most 1,000,000
        worked(growth(2, 1, 0), 3),
        worked(growth(2, 1, 1_000_001), 3),
        // the greatest tag is 256
        worked(growth(257, 1, 1), 1),
        // a growth wants a parent that stands
        worked(growth(4, 2, 1), 7),
        worked(growth(2, 1, 1_000_000), 0),
        worked(growth(2, 1, 1), 5),
        // 4 hangs from 2 and is struck with it
        worked(growth(4, 2, 1), 0),
        worked(strike(5), 9),
        worked(strike(2), 0),
        worked(strike(4), 6),
        worked(growth(4, 1, 1), 6),
        worked(growth(5, 4, 1), 8),
    ]
}
