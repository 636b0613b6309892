// The lines of a report.
ghost use Rattle.std.specs.Prelude.{◌≡◌, ◌++◌, string_bytes, OnOk};
ghost use Rattle.report.specs.Lines.{line_text, rows_text, fault_text};

use books::{Entry, answer_number};
use lengths::{KindC, KindM};
use slips::Fault;
use std::alloc::AllocError;

/// Adds one line: a line of the slip, and its number in kind M and in kind C. (Functions over the text that is lent: a struct
/// around the one String would say no more.)
fn put_line(text: &mut String, line: usize, in_m: u8, in_c: u8) -> Result<(), AllocError>
    ensures { OnOk result (string_bytes text.new ≡ string_bytes text.old ++ line_text line in_m in_c) }
{
    write!(text, "{line},{in_m},{in_c}\n")
}

/// Adds a line for each row, the first of which is on line 2, with the numbers of its answers.
pub(crate) fn put_rows(
    text: &mut String,
    in_m: &[Entry<KindM>],
    in_c: &[Entry<KindC>],
) -> Result<(), AllocError>
    ensures { OnOk result (string_bytes text.new ≡ string_bytes text.old ++ rows_text 2 in_m.now in_c.now) }
{
    // no `try_for_each`: nothing is known of a text that a closure wrote to
    for (i, (m, c)) in in_m.iter().zip(in_c).enumerate() {
        put_line(
            text,
            i + 2,
            answer_number(m.answer),
            answer_number(c.answer),
        )?;
    }
    Ok(())
}

/// Adds a line for the fault, with its number for both kinds, where there is one.
pub(crate) fn put_fault(text: &mut String, fault: Option<Fault>) -> Result<(), AllocError>
    ensures { OnOk result (string_bytes text.new ≡ string_bytes text.old ++ fault_text fault) }
{
    let Some(fault) = fault else {
        return Ok(());
    };
    let number = fault.cause.number();
    put_line(text, fault.line, number, number)
}
