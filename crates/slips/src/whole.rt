// Reading a whole slip.
ghost use Rattle.std.specs.Prelude.{◌≡◌, ℕ, ◌<◌, List, map, length, IfOk, Option as AnOption, OnErr};
ghost use Rattle.slips.specs.declared.faults.Fault.{Fault as AFault};
ghost use Rattle.slips.specs.declared.rows.Values.{Values as TheValues};
ghost use Rattle.slips.specs.Format.{names_line};
ghost use Rattle.slips.specs.Rules.{Holds, Read};
ghost use Rattle.slips.specs.Seen.{row_seen, found_from, values_in};

use crate::cursor::Reader;
use crate::faults::Fault;
use crate::rows::Row;
use std::alloc::{AllocError, Global};

/// What a slip holds: its rows up to its end or its first fault, and that fault.
#[derive(Drop)]
pub struct Contents<'a> {
    pub rows: Vec<Row<'a>>,
    pub fault: Option<Fault>,
}

/// Reads a slip to its end or to its first fault. Memory is wanted only for rows: want of it comes after a row was read.
pub fn read_slip<'a>(heap: Global, slip: &'a [u8]) -> Result<Contents<'a>, AllocError>
    ensures holds { IfOk result (λ c. Holds slip.now (values_in c.rows.items) c.fault) }
    ensures only { IfOk result (λ c. (vs : List TheValues) (o : AnOption AFault) → Holds slip.now vs o → (vs ≡ values_in c.rows.items) × (o ≡ c.fault)) }
    ensures rows { IfOk result (λ c. map row_seen c.rows.items ≡ found_from (length names_line) 2 (values_in c.rows.items)) }
    ensures memory { OnErr result ((vs : List TheValues) × ((b : ℕ) × ((l : ℕ) × ((0 < length vs) × Read slip.now vs b l)))) }
{
    let mut reader = Reader::new(slip);
    let mut rows = Vec::new(heap);
    // no `collect`: the rows before a fault are kept, and with them the fault
    let fault = loop {
        match reader.read() {
            Ok(Some(row)) => rows.push(row)?,
            Ok(None) => break None,
            Err(fault) => break Some(fault),
        }
    };
    Ok(Contents { rows, fault })
}
