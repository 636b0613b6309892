//! The report: what the program prints of a slip, as text. Every row of the slip is done in two books, in kind M and in kind C, and
//! the text tells what each answered. The program itself only reads its input and prints this.
#![tactic(auto)]

ghost use Rattle.std.specs.Prelude.{◌≡◌, ℕ, List, take, IfOk, string_bytes};
ghost use Rattle.report.specs.Reports.{Reported};

use crate::asking::waiting;
use crate::lines::{put_fault, put_rows};
use crate::trying::{try_in_log, try_in_table};
use lengths::{KindC, KindM};
use slips::{Contents, read_slip};
use std::alloc::{AllocError, Global};

mod asking;
mod lines;
mod trying;

/// The report of a slip: a heading; each row's line with the number of its answer in kind M and in kind C; and where the slip
/// has a fault, its line, with its number for both. Or an error where memory runs out, of which nothing more is promised.
pub fn slip_report(heap: Global, slip: &[u8]) -> Result<String, AllocError>
    ensures answer { IfOk result (λ t. Reported slip.now (string_bytes t)) }
    ensures only { IfOk result (λ t. (other : List ℕ) → Reported slip.now other → other ≡ string_bytes t) }
{
    let Contents { rows, fault } = read_slip(heap, slip)?;
    // two lists and not one of pairs: `apply` takes the entries of one kind
    let mut in_m = waiting::<KindM>(heap, rows.as_slice())?;
    let mut in_c = waiting::<KindC>(heap, rows.as_slice())?;
    try_in_table(in_m.as_mut_slice());
    try_in_log(in_c.as_mut_slice());
    let mut text = String::from_str(heap, "line,M,C\n")?;
    put_rows(&mut text, in_m.as_slice(), in_c.as_slice())?;
    put_fault(&mut text, fault)?;
    Ok(text)
}

/// How many bytes of an input are enough for its report: of a longer input they are reported as all of it would be.
pub fn enough() -> u64
    ensures bytes { result ≡ 65537 }
    ensures enough { (input text : List ℕ) → Reported (take result input) text → Reported input text }
{
    65_537
}
