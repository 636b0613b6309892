// Cutting bytes at a mark: a line at its newline, a field at its comma.
ghost use Rattle.std.specs.Prelude.{◌≡◌, ◌≤◌, ◌∷◌, ◌++◌, length, MatchOption};
ghost use Rattle.slips.specs.Rules.{Free};
ghost use Rattle.slips.specs.Inner.{count};

/// What stands before the first `mark` of `s`, and what stands after it; nothing where there is no mark. (The library cuts text
/// so, by `split_once`; of bytes it has `splitn`, an iterator whose two parts would be asked for one by one.)
pub(crate) fn cut(s: &[u8], mark: u8) -> Option<(&[u8], &[u8])>
    ensures { MatchOption result (Free mark s.now) (λ p. (s.now ≡ p.0.now ++ mark ∷ p.1.now) × Free mark p.0.now) }
{
    let at = s.iter().position(|b| *b == mark)?;
    Some((&s[..at], &s[at + 1..]))
}

/// How often `mark` stands in `s`.
pub(crate) fn count_of(s: &[u8], mark: u8) -> usize
    ensures value { result ≡ count mark s.now }
    ensures bound { result ≤ length s.now }
{
    s.iter().filter(|b| **b == mark).count()
}
