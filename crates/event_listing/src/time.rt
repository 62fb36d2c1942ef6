//! Times, as RFC 3339 writes them.

ghost use Rattle.std.specs.Prelude.{◌≡◌, ◌≢◌, ◌++◌, ◌*ℤ◌, ℕ, pos, List, length, OnOk, MatchOption};
ghost use Rattle.msgpack_bytes.specs.Item.{IsItemWithin};
ghost use Rattle.msgpack_bytes.specs.Kinds.{IsInteger};
ghost use Rattle.event_modes.specs.Entry.{IsEventTime, IsTime};
ghost use Rattle.event_listing.specs.Events.{event_nanos, second, IsEventTimeJson, IsInstant, IsNanoseconds, IsSecondsJson, IsTimeJson};
ghost use Rattle.event_listing.specs.Walking.{Adds, IsStringOf, IsTimeIn};

use crate::numbers::{number_of, put_integer};
use crate::text::put_ext;
use jiff::Timestamp;
use jiff::fmt::temporal::DateTimePrinter;
use json::Writer;
use msgpack_bytes::{Head, head};
use std::alloc::{AllocError, Allocator};

// The first and the last second, since 1970, that is written as a date: 0000-01-01T00:00:00Z and
// 9999-12-30T21:59:59Z.
const FIRST: i128 = -62_167_219_200;

const LAST: i128 = 253_402_207_199;

// So many nanoseconds are a second.
const SECOND: u32 = 1_000_000_000;

// What a time is.
#[derive(Clone, Copy)]
enum Time<'a> {
    // Seconds since the beginning of 1970.
    Seconds(i128),
    // The content of an EventTime.
    Event(&'a [u8]),
}

/// Writes a time: an integer without a fraction, and an EventTime with nine places of one.
pub(crate) fn put_time<A: Allocator + Copy>(
    alloc: A,
    writer: &mut Writer<A>,
    time: &[u8],
) -> Result<(), AllocError>
    requires item { IsItemWithin time.now }
    requires time { IsTime time.now }
    ensures { OnOk result (Adds (IsTimeJson time.now) writer.old writer.new) }
{
    match time_in(time) {
        Time::Seconds(seconds) => put_seconds(writer, time, seconds),
        Time::Event(content) => put_event_time(alloc, writer, content),
    }
}

/// The nanoseconds since the beginning of 1970 that a time says.
pub(crate) fn nanoseconds_of(time: &[u8]) -> i128
    requires item { IsItemWithin time.now }
    requires time { IsTime time.now }
    ensures { IsNanoseconds time.now result }
{
    match time_in(time) {
        Time::Seconds(seconds) => whole_nanoseconds(time, seconds),
        Time::Event(content) => event_nanoseconds(content),
    }
}

// What a time is.
fn time_in(time: &[u8]) -> Time<'_>
    requires item { IsItemWithin time.now }
    requires time { IsTime time.now }
    ensures { IsTimeIn time.now result }
{
    if let Some(content) = event_time(time) {
        return Time::Event(content);
    }
    let Some(found) = head(time, 0) else {
        unreachable!();
    };
    match found {
        Head::Int(seconds) => Time::Seconds(seconds),
        _ => unreachable!(),
    }
}

// The nanoseconds of the seconds that an item is.
fn whole_nanoseconds(time: &[u8], seconds: i128) -> i128
    requires { IsInteger time.now seconds }
    ensures { result ≡ seconds *ℤ pos second }
{
    seconds * 1_000_000_000
}

// The nanoseconds of the content of an EventTime.
fn event_nanoseconds(content: &[u8]) -> i128
    requires { length content.now ≡ 8 }
    ensures { result ≡ event_nanos content.now }
{
    let parts = content.split_at(4);
    i128::from(number_of(parts.0)) * i128::from(SECOND) + i128::from(number_of(parts.1))
}

// The content of an EventTime.
fn event_time(time: &[u8]) -> Option<&[u8]>
    ensures { MatchOption result (IsEventTime time.now → ⊥)
        (λ content. (is : IsEventTime time.now) × (is.content ≡ content.now)) }
{
    match eight_behind(time, &[0xd7, 0]) {
        Some(content) => Some(content),
        None => eight_behind(time, &[0xc7, 8, 0]),
    }
}

// What is behind these bytes, with which others begin, where it has eight bytes.
fn eight_behind<'a>(bytes: &'a [u8], front: &[u8]) -> Option<&'a [u8]>
    ensures { MatchOption result
        ((content : List ℕ) → length content ≡ 8 → bytes.now ≢ front.now ++ content)
        (λ content. (length content.now ≡ 8) × (bytes.now ≡ front.now ++ content.now)) }
{
    match bytes.strip_prefix(front) {
        Some(content) if content.len() == 8 => Some(content),
        _ => None,
    }
}

// Writes the seconds since 1970 that an item is.
fn put_seconds<A: Allocator>(
    writer: &mut Writer<A>,
    time: &[u8],
    seconds: i128,
) -> Result<(), AllocError>
    requires { IsInteger time.now seconds }
    ensures { OnOk result (Adds (IsSecondsJson seconds) writer.old writer.new) }
{
    if seconds < FIRST || seconds > LAST {
        return put_integer(writer, time, seconds);
    }
    match Timestamp::from_second(seconds as i64) {
        Ok(instant) => put_instant(writer, instant, 0),
        Err(_) => unreachable!(),
    }
}

// Writes the content of an EventTime; as an extension where its nanoseconds are a second or more.
fn put_event_time<A: Allocator + Copy>(
    alloc: A,
    writer: &mut Writer<A>,
    content: &[u8],
) -> Result<(), AllocError>
    requires { length content.now ≡ 8 }
    ensures { OnOk result (Adds (IsEventTimeJson content.now) writer.old writer.new) }
{
    let parts = content.split_at(4);
    let seconds = number_of(parts.0);
    let nanoseconds = number_of(parts.1);
    if nanoseconds >= SECOND {
        return put_ext(alloc, writer, 0, content);
    }
    match Timestamp::new(i64::from(seconds), nanoseconds as i32) {
        Ok(instant) => put_instant(writer, instant, 9),
        Err(_) => unreachable!(),
    }
}

// Writes an instant with so many places of a fraction.
fn put_instant<A: Allocator>(
    writer: &mut Writer<A>,
    instant: Timestamp,
    places: u8,
) -> Result<(), AllocError>
    ensures { OnOk result
        (Adds (IsStringOf (IsInstant places instant.nanosecond)) writer.old writer.new) }
{
    let printer = DateTimePrinter::new().precision(Some(places));
    let text = printer.timestamp_text(instant.to_plain());
    writer.string(text.as_str())
}
