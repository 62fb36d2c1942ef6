//! Whole numbers, and the ports among them.

ghost use Rattle.std.specs.Prelude.{◌≡◌};
ghost use Rattle.conf_values.specs.Numbers.{number_of, port_of};

/// The value of one or more decimal digits. `None`: the text is not that, or the value is past
/// 18,446,744,073,709,551,615.
pub fn whole_number(text: &[u8]) -> Option<u64>
    ensures { result ≡ number_of text.now }
{
    let mut value: u64 = 0;
    for digit in text {
        if !digit.is_ascii_digit() {
            return None;
        }
        value = value
            .checked_mul(10)?
            .checked_add(u64::from(*digit - b'0'))?;
    }
    if text.is_empty() { None } else { Some(value) }
}

/// The port of a whole number from 1 to 65,535. `None`: the text is no such number.
#[tactic(auto, unfolding(crate::specs::Numbers::port_of))]
pub fn port(text: &[u8]) -> Option<u16>
    ensures { result ≡ port_of text.now }
{
    match whole_number(text) {
        Some(number @ 1..=65_535) => Some(number as u16),
        _ => None,
    }
}
