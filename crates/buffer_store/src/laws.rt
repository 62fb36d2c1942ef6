//! What holds of every buffer. These functions do nothing: each stands for a theorem.

ghost use Rattle.journal_files.specs.Laws.{RecoversAll};
ghost use Rattle.buffer_store.specs.Laws.{RecoversWhatIsDurable, QueuedLasts};

use journal_files::{opens_one_way, recovers_all};

/// A folder that a stop left isn't damaged, and opens to what the buffer's chunks were after some
/// of the steps that its journal was told, claimed ones counted as queued; and all those steps are
/// among them whose call answered `Ok` after a sync. So it is wherever the disk holds a buffer, and
/// also after a device's fault.
pub fn recovers_what_is_durable()
    ensures kept { RecoversAll }
    ensures recovers { RecoversWhatIsDurable }
{
    // Called for their laws alone.
    recovers_all();
    opens_one_way();
}

/// Whatever is opened to by these steps has each chunk that was queued durably as it was, or not at
/// all; and the next serial is above each of theirs and hasn't fallen, so that no id that was ever
/// claimed comes to name other content.
pub fn queued_lasts()
    ensures { QueuedLasts }
{}
