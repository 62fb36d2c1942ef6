//! Where a line ends.

ghost use Rattle.std.specs.Prelude.{◌≡◌, ◌≢◌, ◌++◌, MatchOption};
ghost use Rattle.std.specs.List.{AllByRecursion};
ghost use Rattle.recent_lines.specs.Lines.{IsLine};

/// The first line of a text, with the LF at its end, and what is behind it; none where the text has
/// no LF.
pub(crate) fn first_line(text: &[u8]) -> Option<(&[u8], &[u8])>
    ensures { MatchOption result (AllByRecursion (λ b. b ≢ 10) text.now)
        (λ cut. IsLine cut.0.now × (text.now ≡ cut.0.now ++ cut.1.now)) }
{
    for (at, byte) in text.iter().enumerate() {
        if *byte == b'\n' {
            return Some(text.split_at(at + 1));
        }
    }
    None
}
