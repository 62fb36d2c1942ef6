//! The byte order mark that some editors put in front of a text.

ghost use Rattle.std.specs.Prelude.{◌≡◌};
ghost use Rattle.conf_listing.specs.Adapting.{behind_mark as behind_mark_of};

/// The text behind its byte order mark; the text itself where it has none.
pub(crate) fn behind_mark(text: &[u8]) -> &[u8]
    ensures { result.now ≡ behind_mark_of text.now }
{
    match text {
        [0xef, 0xbb, 0xbf, rest @ ..] => rest,
        _ => text,
    }
}
