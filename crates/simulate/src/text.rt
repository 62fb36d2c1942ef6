//! What is written step by step behind a text.

use std::alloc::AllocError;
use std::fmt::Write;

/// Puts these pieces behind a text.
pub fn put(text: &mut String, pieces: &[&str]) -> Result<(), AllocError> {
    for piece in pieces {
        text.push_str(piece)?;
    }
    Ok(())
}

/// Puts a number behind a text, between these.
pub fn put_number(
    text: &mut String,
    before: &str,
    number: u64,
    behind: &str,
) -> Result<(), AllocError> {
    write!(text, "{before}{number}{behind}")
}
