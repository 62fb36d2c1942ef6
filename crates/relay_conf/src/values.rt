//! The values of parameters: those of their last lines, or the defaults.

ghost use Rattle.std.specs.Prelude.{◌≡◌, map, IfOk, string_bytes, unwrap_or, option_and_then, None, Some, if◌then◌else◌};
ghost use Rattle.conf_text.specs.Views.{setting};
ghost use Rattle.conf_values.specs.Numbers.{number_of, port_of};
ghost use Rattle.conf_values.specs.Amounts.{size_of, seconds_of};
ghost use Rattle.conf_values.specs.Words.{boolean_of};
ghost use Rattle.relay_conf.specs.Elements.{read_or, value_of};
ghost use Rattle.tag_pattern.specs.Prefixes.{is_prefix};

use crate::element::value_of;
use conf_text::Pair;
use conf_values::{boolean, port, seconds, size, whole_number};
use std::alloc::{AllocError, Allocator};
use tag_pattern::{Prefix, PrefixError};

/// A text.
pub(crate) fn text_or<A: Allocator + Copy>(
    alloc: A,
    pairs: &[Pair<A>],
    name: &str,
    default: &str,
) -> Result<String<A>, AllocError>
    ensures { IfOk result
        (λ text. string_bytes text
        ≡ unwrap_or (value_of name.now (map setting pairs.now)) default.now) }
{
    match value_of(pairs, name) {
        None => String::from_str(alloc, default),
        Some(value) => String::from_str(alloc, value),
    }
}

/// A whole number, if there is one.
pub(crate) fn number<A: Allocator>(pairs: &[Pair<A>], name: &str) -> Option<u64>
    ensures { result ≡ option_and_then number_of (value_of name.now (map setting pairs.now)) }
{
    match value_of(pairs, name) {
        None => None,
        Some(value) => whole_number(value.as_bytes()),
    }
}

/// A time in seconds, if there is one.
pub(crate) fn time<A: Allocator>(pairs: &[Pair<A>], name: &str) -> Option<u64>
    ensures { result ≡ option_and_then seconds_of (value_of name.now (map setting pairs.now)) }
{
    match value_of(pairs, name) {
        None => None,
        Some(value) => seconds(value.as_bytes()),
    }
}

/// A whole number.
pub(crate) fn number_or<A: Allocator>(pairs: &[Pair<A>], name: &str, default: u64) -> u64
    ensures { result ≡ read_or number_of default (value_of name.now (map setting pairs.now)) }
{
    number(pairs, name).unwrap_or(default)
}

/// A time in seconds.
pub(crate) fn time_or<A: Allocator>(pairs: &[Pair<A>], name: &str, default: u64) -> u64
    ensures { result ≡ read_or seconds_of default (value_of name.now (map setting pairs.now)) }
{
    time(pairs, name).unwrap_or(default)
}

/// A size in bytes.
pub(crate) fn size_or<A: Allocator>(pairs: &[Pair<A>], name: &str, default: u64) -> u64
    ensures { result ≡ read_or size_of default (value_of name.now (map setting pairs.now)) }
{
    match value_of(pairs, name) {
        None => default,
        Some(value) => size(value.as_bytes()).unwrap_or(default),
    }
}

/// A boolean.
pub(crate) fn flag_or<A: Allocator>(pairs: &[Pair<A>], name: &str, default: bool) -> bool
    ensures { result ≡ read_or boolean_of default (value_of name.now (map setting pairs.now)) }
{
    match value_of(pairs, name) {
        None => default,
        Some(value) => boolean(value.as_bytes()).unwrap_or(default),
    }
}

/// A port.
pub(crate) fn port_or<A: Allocator>(pairs: &[Pair<A>], name: &str, default: u16) -> u16
    ensures { result ≡ read_or port_of default (value_of name.now (map setting pairs.now)) }
{
    match value_of(pairs, name) {
        None => default,
        Some(value) => port(value.as_bytes()).unwrap_or(default),
    }
}

/// A prefix, if there is one.
pub(crate) fn prefix<A: Allocator>(
    alloc: A,
    pairs: &[Pair<A>],
    name: &str,
) -> Result<Option<Prefix<A>>, AllocError>
    ensures { IfOk result
        (λ prefix. prefix
        ≡ option_and_then (λ text. if is_prefix text then Some text else None)
        (value_of name.now (map setting pairs.now))) }
{
    let Some(value) = value_of(pairs, name) else {
        return Ok(None);
    };
    match Prefix::read(alloc, value.as_bytes()) {
        Ok(prefix) => Ok(Some(prefix)),
        Err(PrefixError::BadPrefix) => Ok(None),
        Err(PrefixError::Memory) => Err(AllocError),
    }
}
