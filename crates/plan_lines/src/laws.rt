//! What holds of each plan's text, whatever a reader does. These functions do nothing: each stands
//! for its clause.

ghost use Rattle.plan_lines.specs.Laws.{HasOneFault, IsPlanOrFault, SaysOnePlan};

use std::alloc::Allocator;

/// A text, with the configurations that it names, says one plan alone: two that it says are each
/// what the other is, but for where they lie in memory.
pub fn says_one_plan<A: Allocator, B: Allocator>()
    ensures { SaysOnePlan A B }
{}

/// A text has one first fault alone, beside want of memory.
pub fn has_one_fault<A: Allocator, B: Allocator>()
    ensures { HasOneFault A B }
{}

/// A text that says a plan is refused only for want of memory.
pub fn is_plan_or_fault<A: Allocator, B: Allocator>()
    ensures { IsPlanOrFault A B }
{}
