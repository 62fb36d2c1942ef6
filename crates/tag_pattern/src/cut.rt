//! Texts cut at marks: what stands before the first, and the pieces between separators.

ghost use Rattle.std.specs.Prelude.{◌≡◌, ◌+◌, ◌<◌, ◌==◌, [], ◌∷◌, length, IfSome, slice_index_or};
ghost use Rattle.std.specs.List.{list_any, slice_split};
ghost use Rattle.std.specs.Option.{option_copied};
ghost use Rattle.tag_pattern.specs.Cuts.{is_among, is_nil, pieces_behind, IsCut};

/// The text in front of the first of these marks, and the text from that mark on.
pub(crate) fn cut<'a>(text: &'a [u8], marks: &[u8]) -> (&'a [u8], &'a [u8])
    ensures { IsCut (is_among marks.now) text.now result.0.now result.1.now }
{
    for (at, b) in text.iter().enumerate() {
        if marks.contains(b) {
            return text.split_at(at);
        }
    }
    text.split_at(text.len())
}

/// The first of the pieces that the separator parts, and the text behind it, where there are more.
pub(crate) fn first_piece(text: &[u8], separator: u8) -> (&[u8], Option<&[u8]>)
    ensures pieces { slice_split (λ b. b == separator) text.now
        ≡ result.0.now ∷ pieces_behind separator (option_copied result.1) }
    ensures shorter { IfSome result.1 (λ rest. length rest.now < length text.now) }
{
    let (front, back) = cut(text, &[separator]);
    match back.split_first() {
        Some((_, rest)) => (front, Some(rest)),
        None => (front, None),
    }
}

/// How many pieces the separator parts.
pub(crate) fn piece_count(text: &[u8], separator: u8) -> usize
    ensures { result ≡ length (slice_split (λ b. b == separator) text.now) }
{
    text.iter().filter(|b| **b == separator).count() + 1
}

/// Whether one of the pieces is empty.
pub(crate) fn has_empty_piece(text: &[u8], separator: u8) -> bool
    ensures { result ≡ list_any is_nil (slice_split (λ b. b == separator) text.now) }
{
    let mut rest = Some(text);
    while let Some(text) = rest {
        let (piece, behind) = first_piece(text, separator);
        if piece.is_empty() {
            return true;
        }
        rest = behind;
    }
    false
}

/// The piece of this number, from 0.
pub(crate) fn nth_piece(text: &[u8], separator: u8, number: usize) -> &[u8]
    requires { number < length (slice_split (λ b. b == separator) text.now) }
    ensures { result.now ≡ slice_index_or (slice_split (λ b. b == separator) text.now) number [] }
{
    let mut rest = text;
    for _ in 0..number {
        let (_, behind) = first_piece(rest, separator);
        match behind {
            Some(text) => rest = text,
            None => unreachable!(),
        }
    }
    first_piece(rest, separator).0
}
