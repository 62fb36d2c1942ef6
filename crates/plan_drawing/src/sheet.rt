//! What a picture is made from.

use crate::marks::{Mark, is_at};
use crate::rows::Row;
use plan_advice::Texts;
use plan_lines::Plan;
use std::alloc::Allocator;

/// A plan and its texts, with the rows of a picture and the places where rules are broken.
#[derive(Drop)]
pub(crate) struct Sheet<'a, A: Allocator> {
    pub alloc: A,
    pub plan: &'a Plan<A>,
    pub texts: &'a Texts<'a, A>,
    pub rows: &'a [Row<'a, A>],
    pub marks: &'a [Mark],
}

impl<'a, A: Allocator + Copy> Sheet<'a, A> {
    /// What the picture of this plan is made from.
    pub fn new(
        alloc: A,
        plan: &'a Plan<A>,
        texts: &'a Texts<'a, A>,
        rows: &'a [Row<'a, A>],
        marks: &'a [Mark],
    ) -> Sheet<'a, A> {
        Sheet {
            alloc,
            plan,
            texts,
            rows,
            marks,
        }
    }

    /// Whether a rule is broken at this row.
    pub fn is_broken(&self, row: &Row<'_, A>) -> bool {
        for mark in self.marks {
            if is_at(self.plan, row, mark.place) {
                return true;
            }
        }
        false
    }

    /// Whether no row stands where the rule is broken.
    pub fn is_nowhere(&self, mark: Mark) -> bool {
        for row in self.rows {
            if is_at(self.plan, row, mark.place) {
                return false;
            }
        }
        true
    }
}
