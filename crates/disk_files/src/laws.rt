//! What the definitions of a stop come to. These functions do nothing: each stands for a theorem.

ghost use Rattle.disk_files.specs.Laws.{InsideCalls, SyncKeeps, StopSettles};

/// A stop inside a call leaves nothing that a stop before it or after it couldn't leave.
pub fn inside_calls()
    ensures { InsideCalls }
{}

/// After a sync each stop leaves the file, with all that was written to it.
pub fn sync_keeps()
    ensures { SyncKeeps }
{}

/// What a stop left, a second stop leaves.
pub fn stop_settles()
    ensures { StopSettles }
{}
