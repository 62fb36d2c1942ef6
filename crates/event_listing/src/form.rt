//! How events are spelled in bytes.

/// How events are spelled, one after another.
#[derive(Clone, Copy)]
pub(crate) enum Form<'a> {
    /// Each as an item of a sink.
    Items,
    /// Each as its stored entry alone, as in a chunk that has this tag.
    Under(&'a [u8]),
}
