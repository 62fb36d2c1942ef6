//! What holds of journals on a disk. These functions do nothing: each stands for a theorem.

ghost use Rattle.journal_files.specs.Laws.{RecoversAll, OpensOneWay, OpensUndamaged, SealedIsReplayed, KeepsNoStray, LeavesNoStray, StrayIsGap};

use chunk_journal::{answers_one_way, cuts_generation, cuts_whole};
use numbered_files::names_differ;

/// Whatever a stop leaves of a journal opens to the state after some of its steps, and all steps
/// that were synced are among them.
pub fn recovers_all()
    ensures { RecoversAll }
{
    // Called for their laws alone.
    cuts_whole();
    cuts_generation();
}

/// Neither a journal that is whole on its disk nor a stop leaves a removed generation above all
/// that are there; and where there is none, those that were removed leave no gap, which is what
/// opening asks.
pub fn has_no_stray()
    ensures kept { KeepsNoStray }
    ensures left { LeavesNoStray }
    ensures gap { StrayIsGap }
{}

/// A folder opens to one state, and one that opens isn't damaged; what it opens to is what the
/// records of the generation tell, as whoever lists them reads them.
pub fn opens_one_way()
    ensures one { OpensOneWay }
    ensures undamaged { OpensUndamaged }
    ensures replayed { SealedIsReplayed }
{
    // Called for its law alone.
    answers_one_way();
}
