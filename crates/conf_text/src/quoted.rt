//! Values in quotes.

ghost use Rattle.std.specs.Prelude.{◌≡◌, ◌<◌, ◌≤◌, length, slice_index, true, string_bytes, option_map, IfOk, IfSome};
ghost use Rattle.std.specs.List.{position_or_len};
ghost use Rattle.conf_text.specs.Quoted.{double_escape, single_escape, escape, embeds, is_special, quoted};
ghost use Rattle.conf_text.specs.Special.{IsAtFront, IsPiece, with_front};

use std::alloc::{AllocError, Allocator};

/// The value that a text behind its opening mark spells, and the text behind the closing mark.
/// `None`: the mark never closes, an escape is none of the listed ones, or code is embedded.
/// The one error is that memory ran out.
pub fn quoted<A: Allocator>(
    alloc: A,
    mark: u8,
    text: &str,
) -> Result<Option<(String<A>, &str)>, AllocError>
    requires { mark < 128 }
    ensures { IfOk result
        (λ found. option_map (λ x. (string_bytes x.0, x.1.now)) found ≡ quoted mark text.now) }
{
    let mut value = String::new(alloc);
    let mut rest = text;
    loop {
        let (plain, behind) = split_plain(mark, rest);
        value.push_str(plain)?;
        match piece_at(mark, behind) {
            Piece::Close(after) => return Ok(Some((value, after))),
            Piece::Stands(c, after) => {
                value.push(c)?;
                rest = after;
            }
            Piece::Bad => return Ok(None),
        }
    }
}

// The bytes at the front that stand for themselves, and the text behind them.
fn split_plain(mark: u8, text: &str) -> (&str, &str)
    requires { mark < 128 }
    ensures reads { quoted mark text.now ≡ with_front result.0.now (quoted mark result.1.now) }
    ensures special { 0 < length result.1.now
        → is_special mark (slice_index result.1.now 0) ≡ true }
    ensures rest { length result.1.now ≤ length text.now }
{
    text.split_at(plain_len(mark, text.as_bytes()))
}

// How many bytes at the front stand for themselves.
fn plain_len(mark: u8, text: &[u8]) -> usize
    ensures { result ≡ position_or_len (λ b. is_special mark b) text.now }
{
    text.iter().take_while(|b| !is_special(mark, **b)).count()
}

fn is_special(mark: u8, byte: u8) -> bool
    ensures { result ≡ is_special mark byte }
{
    byte == mark || byte == b'\\' || byte == b'#'
}

// The same, with the text behind it.
enum Piece<'a> {
    Close(&'a str),
    Stands(char, &'a str),
    Bad,
}

// What stands at the front of a text, where no byte stands that is only itself.
fn piece_at(mark: u8, text: &str) -> Piece<'_>
    requires mark { mark < 128 }
    requires special { 0 < length text.now → is_special mark (slice_index text.now 0) ≡ true }
    ensures { IsPiece mark text.now result }
{
    match special_at(mark, text.as_bytes()) {
        Special::Close => Piece::Close(&text[1..]),
        Special::Stands(c, len) => Piece::Stands(c, &text[len..]),
        Special::Bad => Piece::Bad,
    }
}

// What stands at a byte that may do more than stand for itself.
enum Special {
    // The closing mark.
    Close,
    // A character of the value, and how many bytes spell it.
    Stands(char, usize),
    // No closing mark, an escape that isn't one, or embedded code.
    Bad,
}

// What stands at the front of a text, where no byte stands that is only itself.
fn special_at(mark: u8, text: &[u8]) -> Special
    requires mark { mark < 128 }
    requires special { 0 < length text.now → is_special mark (slice_index text.now 0) ≡ true }
    ensures { IsAtFront mark text.now result }
{
    if text.is_empty() {
        return Special::Bad;
    }
    let first = text[0];
    if first == mark {
        return Special::Close;
    }
    if text.len() == 1 {
        return Special::Bad;
    }
    let second = text[1];
    if first == b'\\' {
        return match escape(mark, second) {
            Some(c) => Special::Stands(c, 2),
            None => Special::Bad,
        };
    }
    if embeds(mark, first, second) {
        return Special::Bad;
    }
    Special::Stands('#', 1)
}

// Whether two bytes in a row begin embedded code.
fn embeds(mark: u8, byte: u8, next: u8) -> bool
    ensures { result ≡ embeds mark byte next }
{
    mark == b'"' && byte == b'#' && next == b'{'
}

fn escape(mark: u8, byte: u8) -> Option<char>
    ensures value { result ≡ escape mark byte }
    ensures ascii { IfSome result (λ c. c < 128) }
{
    if mark == b'"' {
        double_escape(byte)
    } else {
        single_escape(byte)
    }
}

// What a byte behind `\` stands for between double quotes.
fn double_escape(byte: u8) -> Option<char>
    ensures { result ≡ double_escape byte }
{
    match byte {
        b'\\' => Some('\\'),
        b'"' => Some('"'),
        b'n' => Some('\n'),
        b'r' => Some('\r'),
        b't' => Some('\t'),
        _ => None,
    }
}

// The same between single quotes.
fn single_escape(byte: u8) -> Option<char>
    ensures { result ≡ single_escape byte }
{
    match byte {
        b'\\' => Some('\\'),
        b'\'' => Some('\''),
        _ => None,
    }
}
