// Numbers in decimal.
ghost use Rattle.std.specs.Prelude.{◌≡◌, length, MatchOption, MatchResult, ◌≢◌, slice_index};
ghost use Rattle.slips.specs.declared.faults.Cause.TheVariants.{BadNumber};
ghost use Rattle.slips.specs.Rules.{Number, IsNumber};

use crate::faults::Cause;
use std::str;

/// The greatest number of a row.
pub(crate) const MOST: u32 = 1_000_000;

/// The number that a field writes. No sign may stand in front of it, and no 0 before other digits, since `parse` would take both.
fn parsed(field: &[u8]) -> Option<u32>
    requires sign { slice_index field.now 0 ≢ 43 }
    requires zero { slice_index field.now 0 ≡ 48 → length field.now ≡ 1 }
    ensures { MatchOption result (IsNumber field.now → ⊥) (λ n. Number field.now n) }
{
    let text = str::from_utf8(field).ok()?;
    let n = text.parse().ok()?;
    (n <= MOST).then_some(n)
}

/// The number that a field writes: in decimal, with no leading zero, and at most `MOST`.
#[tactic(auto, using(crate::proofs::Decimal::leads))]
pub(crate) fn number(field: &[u8]) -> Result<u32, Cause>
    ensures { MatchResult result (λ n. Number field.now n) (λ e. (e ≡ BadNumber) × (IsNumber field.now → ⊥)) }
{
    match field {
        [b'+', ..] => Err(Cause::BadNumber),
        [b'0', _, ..] => Err(Cause::BadNumber),
        // eight bytes or more: no number of a row has so many, whatever they are
        [_, _, _, _, _, _, _, _, ..] => Err(Cause::BadNumber),
        _ => parsed(field).ok_or(Cause::BadNumber),
    }
}
