//! Bytes as hex digits.

ghost use Rattle.std.specs.Prelude.{◌≡◌, ◌++◌, OnOk, OnErr};
ghost use Rattle.hex.specs.Hex.{encode_lower};

use std::alloc::{AllocError, Allocator};

/// Adds the bytes in hex. An `Err` adds none.
pub fn put_hex<A: Allocator>(lines: &mut Vec<u8, A>, bytes: &[u8]) -> Result<(), AllocError>
    ensures ok { OnOk result (lines.new.items ≡ lines.old.items ++ encode_lower bytes.now) }
    ensures err { OnErr result (lines.new.items ≡ lines.old.items) }
{
    let start = lines.len();
    let end = bytes
        .len()
        .checked_mul(2)
        .and_then(|digits| digits.checked_add(start))
        .ok_or(AllocError)?;
    lines.resize(end, 0)?;
    let _ = hex::encode_to_slice(bytes, &mut lines[start..]);
    Ok(())
}
