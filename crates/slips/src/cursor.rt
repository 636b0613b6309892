// The reader of a slip: where it stands.
ghost use Rattle.std.specs.Prelude.{◌+◌, ◌≤◌};

/// A reader over a slip. It stands where the next line to read begins. (That no row was read yet is told by the line, which is
/// 1 then and never again: no flag stands beside it. Until then each reading checks the names.)
#[derive(Clone, Copy)]
pub struct Reader<'a> {
    pub(crate) slip: &'a [u8],
    pub(crate) byte: usize,
    pub(crate) line: usize,
    // each line before this one has a byte at least
    ghost counted: { line ≤ byte + 1 },
}
