//! Numbers in bytes, the highest byte first.

ghost use Rattle.std.specs.Prelude.{◌≡◌, ◌+◌, ◌*◌, ◌^◌, ◌<◌, ◌≤◌, length, drop, slice_index};
ghost use Rattle.msgpack_bytes.specs.Format.{big_endian};
ghost use Rattle.msgpack_bytes.specs.Kinds.{twos_complement};
ghost use Rattle.msgpack_bytes.specs.Run.{number};

/// The byte at `at`, and 0 where there is none.
#[inline(always)]
pub fn byte(bytes: &[u8], at: usize) -> u32
    ensures value { result ≡ slice_index bytes.now at }
    ensures small { result < 256 }
{
    match bytes.get(at) {
        Some(byte) => u32::from(*byte),
        None => 0,
    }
}

/// The number of `width` bytes at `at`, of which those that are missing count as 0.
#[inline(always)]
pub fn number_at(bytes: &[u8], at: usize, width: usize) -> u32
    requires start { at ≤ length bytes.now }
    requires width { width ≤ 4 }
    ensures { result ≡ number width (drop at bytes.now) }
{
    let mut value = 0;
    for k in 0..width {
        value = value * 256 + byte(bytes, at + k);
    }
    value
}

/// The number that these bytes mean, of which there are at most eight.
pub fn unsigned(bytes: &[u8]) -> u64
    requires { length bytes.now ≤ 8 }
    ensures value { result ≡ big_endian bytes.now }
{
    let mut value = 0;
    for byte in bytes {
        value = value * 256 + u64::from(*byte);
    }
    value
}

/// The number that these bytes mean in two's complement, of which there are at most eight.
pub fn signed(bytes: &[u8]) -> i128
    requires { length bytes.now ≤ 8 }
    ensures { result ≡ twos_complement bytes.now }
{
    let value = unsigned(bytes);
    let span = 1u128 << (8 * bytes.len());
    if 2 * u128::from(value) < span {
        i128::from(value)
    } else {
        i128::from(value) - span as i128
    }
}
