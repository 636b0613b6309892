// The edits that rows ask for, in each kind.
ghost use Rattle.std.specs.Prelude.{◌≡◌, map, IfOk};
ghost use Rattle.slips.specs.declared.rows.Values.{Values as TheValues};
ghost use Rattle.lengths.specs.Whole.{millimetres};
ghost use Rattle.lengths.specs.Pairs.{figure_c};
ghost use Rattle.report.specs.Asked.{edit_of, unanswered};

use books::{Edit, Entry, Spur};
use lengths::{KindC, Length, Millimetres, kind_c};
use slips::{Letter, Row, Values};
use std::alloc::{AllocError, Global};

/// A kind in which rows of a slip ask for edits: it says which run and which drop the values of a row give.
pub(crate) trait Asked: Length {
    // The run, and the drop.
    ghost run: { TheValues → Self };

    ghost drop: { TheValues → Self };

    /// The run that the values of a row give.
    fn run_of(values: Values) -> Self
        ensures { result ≡ run values };

    /// The drop that the values of a row give.
    fn drop_of(values: Values) -> Self
        ensures { result ≡ drop values };
}

impl Asked for Millimetres {
    ghost run = { λ v. millimetres v.run };

    ghost drop = { λ v. millimetres v.drop };

    fn run_of(values: Values) -> Millimetres {
        Millimetres {
            value: u64::from(values.run),
        }
    }

    fn drop_of(values: Values) -> Millimetres {
        Millimetres {
            value: u64::from(values.drop),
        }
    }
}

impl Asked for KindC {
    ghost run = { λ v. figure_c v.couplings v.run };

    ghost drop = { λ v. figure_c 0 v.drop };

    fn run_of(values: Values) -> KindC {
        kind_c(u64::from(values.couplings), u64::from(values.run))
    }

    fn drop_of(values: Values) -> KindC {
        kind_c(0, u64::from(values.drop))
    }
}

/// The edit that the values of a row ask for.
fn edit_of<K: Asked>(values: Values) -> Edit<K>
    ensures { result ≡ edit_of values (K.Asked.run values) (K.Asked.drop values) }
{
    let tag = values.tag;
    match values.letter {
        Letter::Growth => Edit::Growth {
            tag,
            spur: Spur {
                parent: values.parent,
                run: K::run_of(values),
                drop: K::drop_of(values),
            },
        },
        Letter::Strike => Edit::Strike { tag },
    }
}

/// The edits that rows ask for, without answers yet.
pub(crate) fn waiting<K: Asked>(heap: Global, rows: &[Row<'_>]) -> Result<Vec<Entry<K>>, AllocError>
    ensures { IfOk result (λ v. v.items ≡ map (λ w. unanswered (edit_of w.values (K.Asked.run w.values) (K.Asked.drop w.values))) rows.now) }
{
    // an entry by its two fields, which say what a constructor's name would
    rows.iter()
        .map(|row| Entry {
            edit: edit_of(row.values),
            answer: None,
        })
        .collect(heap)
}
