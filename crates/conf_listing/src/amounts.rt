//! Sizes, times and numbers with fractions or long units.

use crate::rules::is_among;
use std::alloc::{AllocError, Allocator};

/// What is counted.
#[derive(Clone, Copy)]
pub(crate) enum Unit {
    Bytes,
    Seconds,
    /// A number alone.
    One,
}

// A number with a fraction: digits, behind a point further digits, and the name of a unit.
#[derive(Clone, Copy)]
struct Spelled<'a> {
    whole: &'a [u8],
    fraction: &'a [u8],
    unit: &'a [u8],
}

/// The amount that a text spells with a fraction, or with a unit's long name, in the profile's
/// form: sizes in bytes or with their unit's letter, times in seconds; a part of a byte is dropped,
/// a part of a second or of a number counts whole. `None`: it spells none.
pub(crate) fn amount<A: Allocator + Copy>(
    alloc: A,
    text: &[u8],
    unit: Unit,
) -> Result<Option<Vec<u8, A>>, AllocError> {
    let Some(found) = value_of(text, unit) else {
        return Ok(None);
    };
    let behind = match unit {
        Unit::Seconds => "s",
        Unit::Bytes | Unit::One => "",
    };
    let (number, letter) = shortened(found, unit);
    let text = format!(in alloc; "{number}{letter}{behind}")?;
    Ok(Some(text.into_bytes()))
}

// The number and the letter of the greatest unit of which a size is a multiple.
fn shortened(value: u64, unit: Unit) -> (u64, &'static str) {
    if !matches!(unit, Unit::Bytes) || value == 0 {
        return (value, "");
    }
    if value % (1 << 30) == 0 {
        return (value / (1 << 30), "g");
    }
    if value % (1 << 20) == 0 {
        return (value / (1 << 20), "m");
    }
    if value % (1 << 10) == 0 {
        return (value / (1 << 10), "k");
    }
    (value, "")
}

// The parts of a text.
fn parts(text: &[u8]) -> Option<Spelled<'_>> {
    let (whole, rest) = split_digits(text);
    let (fraction, rest) = match rest {
        [b'.', behind @ ..] => split_digits(behind),
        _ => (&text[..0], rest),
    };
    if whole.is_empty() || whole.len() > 18 || fraction.len() > 9 {
        return None;
    }
    Some(Spelled {
        whole,
        fraction,
        unit: skip_blanks(rest),
    })
}

// The digits at the front, and what is behind them.
fn split_digits(text: &[u8]) -> (&[u8], &[u8]) {
    for at in 0..text.len() {
        if !text[at].is_ascii_digit() {
            return text.split_at(at);
        }
    }
    text.split_at(text.len())
}

fn skip_blanks(text: &[u8]) -> &[u8] {
    for at in 0..text.len() {
        if text[at] != b' ' {
            return text.split_at(at).1;
        }
    }
    b""
}

// The bytes, the seconds or the number that a text spells.
fn value_of(text: &[u8], unit: Unit) -> Option<u64> {
    let spelled = parts(text)?;
    let factor = factor_of(spelled.unit, unit)?;
    let part = number(spelled.fraction, factor)?;
    let scale = scale_of(spelled.fraction)?;
    number(spelled.whole, factor)?.checked_add(divided(part, scale, unit))
}

// A part in whole units: a part of a byte is dropped, any other counts whole.
fn divided(part: u64, scale: u64, unit: Unit) -> u64 {
    if scale == 0 {
        return 0;
    }
    match unit {
        Unit::Bytes => part / scale,
        Unit::Seconds | Unit::One => part.div_ceil(scale),
    }
}

// Ten, to the number of these digits.
fn scale_of(digits: &[u8]) -> Option<u64> {
    let mut scale = 1u64;
    for _ in digits {
        scale = scale.checked_mul(10)?;
    }
    Some(scale)
}

// The value of digits, so many times; none is 0.
fn number(digits: &[u8], factor: u64) -> Option<u64> {
    if digits.is_empty() {
        return Some(0);
    }
    conf_values::whole_number(digits)?.checked_mul(factor)
}

// What a unit's name multiplies by.
fn factor_of(name: &[u8], unit: Unit) -> Option<u64> {
    for factor in factors_of(unit) {
        if is_among(factor.names, name) {
            return Some(factor.times);
        }
    }
    None
}

// The units in which something is spelled.
fn factors_of(unit: Unit) -> &'static [Factor] {
    match unit {
        Unit::Bytes => &BYTES,
        Unit::Seconds => &SECONDS,
        Unit::One => &NUMBERS,
    }
}

// The names of a unit, and what they multiply by.
struct Factor {
    names: &'static [&'static str],
    times: u64,
}

static BYTES: [Factor; 5] = [
    Factor {
        names: &["", "b", "B"],
        times: 1,
    },
    Factor {
        names: &["k", "K", "kb", "kB", "KB", "Kb", "KiB"],
        times: 1_024,
    },
    Factor {
        names: &["m", "M", "mb", "mB", "MB", "Mb", "MiB"],
        times: 1_048_576,
    },
    Factor {
        names: &["g", "G", "gb", "gB", "GB", "Gb", "GiB"],
        times: 1_073_741_824,
    },
    Factor {
        names: &["t", "T", "tb", "tB", "TB", "Tb", "TiB"],
        times: 1_099_511_627_776,
    },
];

static SECONDS: [Factor; 4] = [
    Factor {
        names: &["", "s", "sec"],
        times: 1,
    },
    Factor {
        names: &["m", "min"],
        times: 60,
    },
    Factor {
        names: &["h"],
        times: 3_600,
    },
    Factor {
        names: &["d"],
        times: 86_400,
    },
];

static NUMBERS: [Factor; 1] = [Factor {
    names: &[""],
    times: 1,
}];
