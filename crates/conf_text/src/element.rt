//! The elements of a configuration.

use std::alloc::Allocator;

/// A parameter: `name value`.
#[derive(Drop)]
pub struct Pair<A: Allocator> {
    /// Letters, digits and `_`, with an optional `@` in front.
    pub name: String<A>,
    /// The value without quotes and escapes; it may be empty.
    pub value: String<A>,
    /// Its line, from 1.
    pub line: usize,
}

/// An element: `<name argument>`, what stands in it, and `</name>`.
#[derive(Drop)]
pub struct Element<A: Allocator> {
    /// Letters, digits and `_`.
    pub name: String<A>,
    /// What stands behind the name; it may be empty.
    pub argument: String<A>,
    /// The line of its opening, from 1.
    pub line: usize,
    /// Its parameters, in the order of the text.
    pub pairs: Vec<Pair<A>, A>,
    /// The elements in it, in the order of the text.
    pub children: Vec<Element<A>, A>,
}
