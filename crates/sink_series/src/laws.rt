//! What the definitions of a sink's content come to. These functions do nothing: each stands for a
//! theorem.

ghost use Rattle.sink_series.specs.Laws.{HoldsOne, SinkHoldsOne, CutsWhole, SafeBegins, SafeIsContent, AnswersStand, SafeOverStop, MadeAddsNothing, MadeKeepsSafe};

/// Bytes have one content, and so has a sink in a folder.
pub fn holds_one()
    ensures bytes { HoldsOne }
    ensures sink { SinkHoldsOne }
{}

/// What is cut off the end of a file takes only whole events from its content, the last first.
pub fn cuts_whole()
    ensures { CutsWhole }
{}

/// What is safe in a file of a sink stands at the front of that file's content, and in the sink's,
/// after each stop.
pub fn safe_is_content()
    ensures file { SafeBegins }
    ensures sink { SafeIsContent }
{}

/// Each answer's entries stand in the sink's content, under their tag, after a stop at any moment
/// since the answer.
pub fn answers_stand()
    ensures { AnswersStand }
{}

/// What is safe before a stop is safe after it.
pub fn safe_over_stop()
    ensures { SafeOverStop }
{}

/// What opening a sink may leave at any moment has the content that a stop before it could leave,
/// and all that was safe.
pub fn made_adds_nothing()
    ensures content { MadeAddsNothing }
    ensures safe { MadeKeepsSafe }
{}
