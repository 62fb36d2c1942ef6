//! That a line says one step at most, and that a text has one reading.

ghost use Rattle.step_lines.specs.Laws.{SaysOneStep, SaysNoStepToo, HasOneReading, HasOneFault, IsFaultless};

use std::alloc::Allocator;

/// A line says one thing at most: two steps that it says hold the same, wherever they lie in
/// memory, and a line that says nothing says no step.
pub fn each_line_says_one_thing<A: Allocator>()
    ensures step { SaysOneStep A }
    ensures nothing { SaysNoStepToo A }
{}

/// A text has one reading: two lists of steps that it says hold the same, step by step, wherever
/// they lie in memory; a text that is refused is refused for one line, and says no steps.
pub fn each_text_has_one_reading<A: Allocator>()
    ensures reading { HasOneReading A }
    ensures fault { HasOneFault A }
    ensures faultless { IsFaultless A }
{}
