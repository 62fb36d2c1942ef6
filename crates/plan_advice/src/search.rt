//! Searches along the steps between a plan's reaches.

use crate::flow::Numbers;
use std::alloc::{AllocError, Allocator};

/// A search, which can be made again and again.
#[derive(Drop)]
pub(crate) struct Search<A: Allocator> {
    marks: Vec<bool, A>,
    // Those that are marked, each once.
    found: Numbers<A>,
}

impl<A: Allocator + Copy> Search<A> {
    /// One among so many reaches. The only error is want of memory.
    pub fn new(alloc: A, count: usize) -> Result<Search<A>, AllocError> {
        Ok(Search {
            marks: vec![in alloc; false; count]?,
            found: Vec::new(alloc),
        })
    }
}

impl<A: Allocator> Search<A> {
    /// These, and those that one comes to from them, each once. The only error is want of memory.
    pub fn onward(&mut self, flow: &[Numbers<A>], first: &[usize]) -> Result<&[usize], AllocError> {
        self.forget();
        self.add(first)?;
        for at in 0..flow.len() {
            let Some(number) = self.found.get(at).copied() else {
                break;
            };
            self.add(next_of(flow, number))?;
        }
        Ok(&self.found)
    }

    /// Whether the last search came to this one.
    pub fn has(&self, number: usize) -> bool {
        is_marked(&self.marks, number)
    }

    // Marks those of these that aren't marked.
    fn add(&mut self, numbers: &[usize]) -> Result<(), AllocError> {
        for number in numbers {
            if !is_marked(&self.marks, *number) {
                put_mark(&mut self.marks, *number, true);
                self.found.push(*number)?;
            }
        }
        Ok(())
    }

    // Forgets what the last search came to.
    fn forget(&mut self) {
        for number in &self.found {
            put_mark(&mut self.marks, *number, false);
        }
        self.found.clear();
    }
}

/// Those that are next to this one.
pub(crate) fn next_of<A: Allocator>(flow: &[Numbers<A>], number: usize) -> &[usize] {
    match flow.get(number) {
        Some(next) => next.as_slice(),
        None => &[],
    }
}

/// Whether this one is marked.
pub(crate) fn is_marked(marks: &[bool], number: usize) -> bool {
    marks.get(number).copied().unwrap_or(false)
}

/// Marks this one, or takes its mark, if it is there.
pub(crate) fn put_mark(marks: &mut [bool], number: usize, marked: bool) {
    if let Some(found) = marks.get_mut(number) {
        *found = marked;
    }
}
