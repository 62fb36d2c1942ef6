//! Numbers as they are printed.

ghost use Rattle.std.specs.Prelude.{◌≡◌, ◌≢◌, ◌^◌, ◌<◌, ℕ, IfSome, IfNone, Some, decimal};
ghost use Rattle.label_plan.specs.Reading.{can_begin};

/// The number whose decimal digits these are, as it is printed: without a sign, and without zeros
/// in front.
pub(crate) fn numeral(text: &str) -> Option<u64>
    ensures digits { IfSome result (λ n. decimal n ≡ text.now) }
    ensures none { IfNone result ((n : ℕ) → n < 2 ^ 64 → decimal n ≢ text.now) }
{
    if !can_begin(text.as_bytes()) {
        return None;
    }
    match text.parse::<u64>() {
        Ok(number) => Some(number),
        Err(_) => None,
    }
}

// Whether a number's digits may begin like this: with no sign, and with a zero only where nothing
// stands behind it.
fn can_begin(text: &[u8]) -> bool
    ensures { result ≡ can_begin text.now }
{
    match text {
        [] => false,
        [first] => *first != b'+',
        [first, ..] => *first != b'+' && *first != b'0',
    }
}
