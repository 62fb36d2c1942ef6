//! What a connection is secured by.

/// A host name of this end, and the key that both ends share. Neither is kept longer than the
/// session.
#[derive(Clone, Copy)]
pub struct Security<'a> {
    /// At most 1,024 bytes.
    pub self_hostname: &'a [u8],
    pub shared_key: &'a [u8],
}
