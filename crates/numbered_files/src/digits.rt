//! Numbers as ten decimal digits.

ghost use Rattle.std.specs.Prelude.{◌≡◌, ◌≢◌, ℕ, ◌+◌, ◌<◌, ◌^◌, Some, MatchOption};
ghost use Rattle.numbered_files.specs.Names.{digit, ten_digits};

// The digit that counts this power of ten.
fn digit_of(number: u32, power: u32) -> u8
    requires { 0 < power }
    ensures { result ≡ digit number power }
{
    b'0' + (number / power % 10) as u8
}

/// The number in ten digits, with zeros in front.
#[tactic(auto, unfolding(crate::specs::Names::ten_digits))]
pub(crate) fn ten_digits(number: u32) -> [u8; 10]
    ensures { result ≡ ten_digits number }
{
    [
        digit_of(number, 1_000_000_000),
        digit_of(number, 100_000_000),
        digit_of(number, 10_000_000),
        digit_of(number, 1_000_000),
        digit_of(number, 100_000),
        digit_of(number, 10_000),
        digit_of(number, 1_000),
        digit_of(number, 100),
        digit_of(number, 10),
        digit_of(number, 1),
    ]
}

// What a byte counts as a digit, where it is one.
fn count_of(byte: u8) -> u64
    ensures digit { (n : ℕ) → byte ≡ 48 + n → n < 10 → result ≡ n }
    ensures small { result < 256 }
{
    u64::from(byte.wrapping_sub(b'0'))
}

// What ten digits count, where they are such.
fn counted(text: &[u8]) -> Option<u32>
    ensures { (n : ℕ) → n < 2 ^ 32 → text.now ≡ ten_digits n → result ≡ Some n }
{
    let [a, b, c, d, e, f, g, h, i, j] = text else {
        return None;
    };
    let high = count_of(*a) * 1_000_000_000
        + count_of(*b) * 100_000_000
        + count_of(*c) * 10_000_000
        + count_of(*d) * 1_000_000
        + count_of(*e) * 100_000;
    let low = count_of(*f) * 10_000
        + count_of(*g) * 1_000
        + count_of(*h) * 100
        + count_of(*i) * 10
        + count_of(*j);
    let number = high + low;
    if number > u64::from(u32::MAX) {
        return None;
    }
    Some(number as u32)
}

/// The number that these ten digits spell, if they spell one of 32 bits.
pub(crate) fn number_of(text: &[u8]) -> Option<u32>
    ensures { MatchOption result ((n : ℕ) → n < 2 ^ 32 → text.now ≢ ten_digits n)
        (λ n. text.now ≡ ten_digits n) }
{
    let number = counted(text)?;
    if ten_digits(number).as_slice() == text {
        Some(number)
    } else {
        None
    }
}
