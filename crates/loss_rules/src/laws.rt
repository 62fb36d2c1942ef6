//! What holds of each plan, and what the rules give to each tag of a label.

ghost use Rattle.loss_rules.specs.Laws.{HasOneAnswer};
ghost use Rattle.loss_rules.specs.SafeWays.{LabelledLeavesKeep, LabelledTagsAreSafe};

use std::alloc::Allocator;

/// A plan has one answer: a yes, or a no with one rule and one place. This does nothing: it stands
/// for its clause.
pub fn each_plan_has_one_answer<A: Allocator>()
    ensures { HasOneAnswer A }
{}

/// Under the rules, the match that takes an event with a tag of a label has a reach with the tag,
/// the event's way is no loop, it has a leaf whose output keeps, and each leaf forwards only to
/// where the tag is one of a label. This does nothing: it stands for its clause.
pub fn labelled_tags_are_safe<A: Allocator>()
    ensures { LabelledTagsAreSafe A }
{}

/// Under the rules and the duty every, each leaf of the way of an event with a tag of a label is of
/// an output that keeps. This does nothing: it stands for its clause.
pub fn labelled_leaves_keep<A: Allocator>()
    ensures { LabelledLeavesKeep A }
{}
