//! Times in texts.

ghost use Rattle.std.specs.Prelude.{◌≡◌, ◌++◌, ◌<◌, false, string_bytes, IfOk, OnOk, Some};
ghost use Rattle.jiff_fmt.specs.Text.{datetime_text, zulu_text};
ghost use Rattle.json.specs.Print.{IsNumber};
ghost use Rattle.folder_counts.specs.Times.{instant_text, nine_digits, seconds_text, size_text};
ghost use Rattle.std.specs.Fmt.{sign_text};
ghost use Rattle.std.specs.Int.{is_negative};

use crate::instant::Instant;
use jiff_core::civil::DateTime;
use jiff_fmt::temporal::DateTimePrinter;
use std::alloc::{AllocError, Allocator};

// So many nanoseconds are a second.
const SECOND: u128 = 1_000_000_000;

/// Adds an instant to a line as RFC 3339 writes it, in UTC and with nanoseconds; in seconds since
/// the beginning of 1970 where it is outside of the years that this writes.
pub(crate) fn put_instant<A: Allocator + Copy>(
    alloc: A,
    line: &mut Vec<u8, A>,
    instant: Instant,
) -> Result<(), AllocError>
    ensures { OnOk result (line.new.items ≡ line.old.items ++ instant_text instant) }
{
    match instant.shown {
        Some(shown) => put_shown(line, shown),
        None => put_seconds(alloc, line, instant.nanos),
    }
}

// Adds what a clock in UTC shows, with nanoseconds.
fn put_shown<A: Allocator>(line: &mut Vec<u8, A>, shown: DateTime) -> Result<(), AllocError>
    ensures { OnOk result (line.new.items
        ≡ line.old.items ++ (datetime_text false 84 (Some 9) shown ++ zulu_text false)) }
{
    let printer = DateTimePrinter::new().precision(Some(9));
    let text = printer.datetime_text(shown);
    line.extend_from_slice(text.as_str().as_bytes())?;
    line.extend_from_slice(b"Z")
}

/// Adds nanoseconds as seconds, with nine places behind the point.
pub(crate) fn put_seconds<A: Allocator + Copy>(
    alloc: A,
    line: &mut Vec<u8, A>,
    nanos: i128,
) -> Result<(), AllocError>
    ensures { OnOk result (line.new.items ≡ line.old.items ++ seconds_text nanos) }
{
    let text = seconds_text(alloc, nanos)?;
    line.extend_from_slice(text.as_bytes())
}

/// Nanoseconds as seconds, with nine places behind the point, which is a number of JSON (RFC 8259,
/// section 6). The error is want of memory.
pub(crate) fn seconds_text<A: Allocator + Copy>(
    alloc: A,
    nanos: i128,
) -> Result<String<A>, AllocError>
    ensures text { IfOk result (λ text. string_bytes text ≡ seconds_text nanos) }
    ensures number { IfOk result (λ text. IsNumber (string_bytes text)) }
{
    let size = nanos.unsigned_abs();
    let sign = sign_of(nanos);
    signed_text(alloc, sign, size)
}

// A sign, and behind it so many nanoseconds as seconds.
fn signed_text<A: Allocator + Copy>(
    alloc: A,
    sign: &str,
    nanos: u128,
) -> Result<String<A>, AllocError>
    ensures { IfOk result (λ text. string_bytes text ≡ sign.now ++ size_text nanos) }
{
    let whole = nanos / SECOND;
    let part = nine_digits(alloc, nanos % SECOND)?;
    format!(in alloc; "{sign}{whole}.{part}")
}

// A minus in front of what is below zero.
fn sign_of(nanos: i128) -> &'static str
    ensures { result.now ≡ sign_text (is_negative nanos) }
{
    if nanos < 0 { "-" } else { "" }
}

// A number below 10^9 in nine digits, with zeros in front.
fn nine_digits<A: Allocator>(alloc: A, number: u128) -> Result<String<A>, AllocError>
    ensures { IfOk result (λ text. string_bytes text ≡ nine_digits number) }
{
    let a = number / 100_000_000 % 10;
    let b = number / 10_000_000 % 10;
    let c = number / 1_000_000 % 10;
    let d = number / 100_000 % 10;
    let e = number / 10_000 % 10;
    let f = number / 1_000 % 10;
    let g = number / 100 % 10;
    let h = number / 10 % 10;
    let i = number % 10;
    format!(in alloc; "{a}{b}{c}{d}{e}{f}{g}{h}{i}")
}
