//! Whether two texts are the same.

ghost use Rattle.std.specs.Prelude.{◌≡◌, ◌↔◌, IsTrue};

/// Whether the texts are the same, byte by byte.
pub(crate) fn is_same_text(one: &[u8], two: &[u8]) -> bool
    ensures { IsTrue result ↔ (one.now ≡ two.now) }
{
    one == two
}
