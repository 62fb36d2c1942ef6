//! What a size and a time stand for, in other words.

ghost use Rattle.conf_values.specs.Laws.{HasAmount};
ghost use Rattle.conf_values.specs.Amounts.{size_factor, time_factor};

/// A text is a size or a time exactly where it is decimal digits, with or without one letter of the
/// unit behind them, and the digits' value times the letter's factor is below 2 to the 64th.
pub fn values_are_digits_times_units()
    ensures sizes { HasAmount size_factor }
    ensures times { HasAmount time_factor }
{}
