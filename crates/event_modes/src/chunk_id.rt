//! The names of chunks.

ghost use Rattle.std.specs.Prelude.{◌≡◌, ◌++◌, ℕ, List, IfSome, Some};
ghost use Rattle.event_modes.specs.declared.chunk_id.ChunkId.{ChunkId};
ghost use Rattle.event_modes.specs.ChunkIds.{HasSizes, chunk_bytes, chunk_text};

use base64::engine::general_purpose::STANDARD;

/// The name that a chunk is sent under (Forward Protocol Specification v1, "Option", chunk).
#[derive(Clone, Copy, Debug, PartialEq, Eq)]
pub struct ChunkId {
    pub relay: u32,
    pub buffer: u32,
    pub serial: u64,
}

impl ChunkId {
    /// The 16 bytes of relay, buffer and serial, the highest byte first, in padded base64.
    pub fn text(&self) -> [u8; 24]
        ensures { result ≡ chunk_text self.now }
    {
        let mut text = [0; 24];
        let _ = STANDARD.encode_slice(&self.bytes(), &mut text);
        text
    }

    /// Reads such a text, and no other.
    pub fn read(text: &[u8]) -> Option<ChunkId>
        ensures found { IfSome result (λ id. text.now ≡ chunk_text id) }
        ensures only { (id : ChunkId) → HasSizes id → text.now ≡ chunk_text id → result ≡ Some id }
    {
        let mut bytes = [0; 18];
        STANDARD.decode_slice(text, &mut bytes).ok()?;
        let id = ChunkId::from_bytes(&bytes);
        (id.text().as_slice() == text).then_some(id)
    }

    fn bytes(&self) -> [u8; 16]
        ensures { result ≡ chunk_bytes self.now }
    {
        let [a, b, c, d] = self.relay.to_be_bytes();
        let [e, f, g, h] = self.buffer.to_be_bytes();
        let [i, j, k, l, m, n, o, p] = self.serial.to_be_bytes();
        [a, b, c, d, e, f, g, h, i, j, k, l, m, n, o, p]
    }

    // Of the bytes that decoding has room for, the last two are spare.
    fn from_bytes(bytes: &[u8; 18]) -> ChunkId
        ensures { (id : ChunkId) (spare : List ℕ) → HasSizes id
            → bytes.now ≡ chunk_bytes id ++ spare → result ≡ id }
    {
        let [a, b, c, d, e, f, g, h, i, j, k, l, m, n, o, p, _, _] = *bytes;
        ChunkId {
            relay: u32::from_be_bytes([a, b, c, d]),
            buffer: u32::from_be_bytes([e, f, g, h]),
            serial: u64::from_be_bytes([i, j, k, l, m, n, o, p]),
        }
    }
}
