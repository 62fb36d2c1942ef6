//! Numbers with a unit's letter behind them.

ghost use Rattle.std.specs.Prelude.{◌≡◌};
ghost use Rattle.conf_values.specs.Amounts.{factor_of, amount_of, size_of, seconds_of};

use crate::number::whole_number;

/// The letters that may stand behind digits.
#[derive(Clone, Copy)]
pub(crate) enum Units {
    /// Those of a size in bytes, in either case.
    Sizes,
    /// Those of a time in seconds, in lower case.
    Times,
}

impl Units {
    // What the letter multiplies the digits by.
    #[tactic(auto, unfolding(crate::specs::Amounts::size_factor, crate::specs::Amounts::time_factor))]
    fn factor(self, letter: u8) -> Option<u64>
        ensures { result ≡ factor_of self letter }
    {
        match (self, letter) {
            (Units::Sizes, b'k' | b'K') => Some(1 << 10),
            (Units::Sizes, b'm' | b'M') => Some(1 << 20),
            (Units::Sizes, b'g' | b'G') => Some(1 << 30),
            (Units::Sizes, b't' | b'T') => Some(1 << 40),
            (Units::Times, b's') => Some(1),
            (Units::Times, b'm') => Some(60),
            (Units::Times, b'h') => Some(3_600),
            (Units::Times, b'd') => Some(86_400),
            _ => None,
        }
    }
}

/// The bytes of a size: a whole number, in bytes or with one letter behind it, k, m, g or t in
/// either case, for the powers of 1,024. `None`: the text is not that, or the size is past
/// 18,446,744,073,709,551,615.
pub fn size(text: &[u8]) -> Option<u64>
    ensures { result ≡ size_of text.now }
{
    amount(text, Units::Sizes)
}

/// The seconds of a time: a whole number, in seconds or with one letter behind it, s, m, h or d in
/// lower case, for seconds, minutes, hours or days. `None`: the text is not that, or the time is
/// past 18,446,744,073,709,551,615 seconds.
pub fn seconds(text: &[u8]) -> Option<u64>
    ensures { result ≡ seconds_of text.now }
{
    amount(text, Units::Times)
}

// The value of digits, or of digits and one of these letters.
#[tactic(auto, unfolding(crate::specs::Amounts::amount_of))]
fn amount(text: &[u8], units: Units) -> Option<u64>
    ensures { result ≡ amount_of (factor_of units) text.now }
{
    let (letter, digits) = text.split_last()?;
    match units.factor(*letter) {
        Some(factor) => whole_number(digits)?.checked_mul(factor),
        None => whole_number(text),
    }
}
