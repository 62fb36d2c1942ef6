//! That the outputs which were written are read.

ghost use Rattle.output_state.specs.Laws.{AreReadBack};

/// What is written is read: of a text of the first line and of the rows of outputs, whose buffers
/// are paths or `*`, the outputs are exactly these, in their order.
pub fn what_is_written_is_read()
    ensures { AreReadBack }
{}
