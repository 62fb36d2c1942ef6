//! The text of a plan without its labels and reaches.

ghost use Rattle.std.specs.Prelude.{◌≡◌, ◌++◌, [], ◌∷◌, map, IfOk, OnOk};
ghost use Rattle.label_plan.specs.Lines.{is_kept_line, kept_lines, lines_without_labels, say_else as say_else_of};

use relay_conf::words;
use std::alloc::{AllocError, Allocator};
use std::str;
use text_lines::lines;

/// The lines of a plan that say something else than labels and reaches, comments too, each with a
/// line feed behind it. The only error is want of memory.
pub fn without_labels<A: Allocator + Copy>(alloc: A, net: &[u8]) -> Result<Vec<u8, A>, AllocError>
    ensures { IfOk result (λ text. text.items ≡ lines_without_labels net.now) }
{
    let all = lines(alloc, net)?;
    put_kept(alloc, &all)
}

// Those of these lines.
fn put_kept<A: Allocator + Copy>(alloc: A, lines: &[&[u8]]) -> Result<Vec<u8, A>, AllocError>
    ensures { IfOk result (λ text. text.items ≡ kept_lines (map (λ line. line.now) lines.now)) }
{
    let mut text = Vec::new(alloc);
    for line in lines {
        put_line(alloc, line, &mut text)?;
    }
    Ok(text)
}

// Adds the line, if it is one of those.
fn put_line<A: Allocator + Copy>(
    alloc: A,
    line: &[u8],
    text: &mut Vec<u8, A>,
) -> Result<(), AllocError>
    ensures { OnOk result (text.new.items ≡ text.old.items ++ kept_lines (line.now ∷ [])) }
{
    let kept = is_kept(alloc, line)?;
    if !kept {
        return Ok(());
    }
    text.extend_from_slice(line)?;
    text.push(b'\n')?;
    Ok(())
}

// Whether the line is one of those.
fn is_kept<A: Allocator + Copy>(alloc: A, line: &[u8]) -> Result<bool, AllocError>
    ensures { IfOk result (λ kept. kept ≡ is_kept_line line.now) }
{
    match str::from_utf8(line) {
        Ok(text) => Ok(say_else(&words(alloc, text)?)),
        Err(_) => Ok(true),
    }
}

// Whether there are words, of which the first is neither `label` nor `reach`.
fn say_else(words: &[&str]) -> bool
    ensures { result ≡ say_else_of (map (λ word. word.now) words.now) }
{
    match words.first() {
        Some(word) => *word != "label" && *word != "reach",
        None => false,
    }
}
