//! What becomes of a configuration.

use crate::adapted::Adapted;
use program_text::ConfStop;
use std::alloc::Allocator;

/// What becomes of a configuration.
#[derive(Drop)]
pub enum AdaptedConf<A: Allocator> {
    /// A relay reads this text.
    Text(ConfText<A>),
    /// Something of it isn't accepted: the text is lines that say what.
    Undecided(ConfText<A>),
    /// It has this fault, or the text that would stand for it has; never want of memory.
    Faulty(ConfStop),
}

/// What is printed of a configuration.
#[derive(Drop)]
pub struct ConfText<A: Allocator> {
    /// The text.
    pub text: Vec<u8, A>,
    /// The pieces of the adapted configuration, each with the line that it comes from.
    pub rows: Adapted<A>,
}
