//! What a relay keeps in its folder for whoever watches it: a text with a row for each output.

ghost use Rattle.relay_places.specs.Places.{ArePlacesOf};

use crate::flush::{Home, copy_of};
use loop_core::LoopFault;
use output_state::STATE_FILE;
use relay_conf::Relay;
use relay_notices::{Notices, Tally};
use relay_places::{OutputRows, Places};
use std::alloc::{AllocError, Global};
use std::fs;
use std::sync::Wait;

/// For how long the text stays at least, in milliseconds.
const LASTS: u64 = 1_000;

/// The file, and what its text says.
#[derive(Drop)]
pub(crate) struct StateFile {
    files: HostRuntime,
    rows: OutputRows<Global>,
    path: String,
    // Where a text is written before it takes the other's place.
    draft: String,
    written: Vec<u8, Global>,
    // When it is looked again whether the text changes, in milliseconds.
    due: u64,
}

impl StateFile {
    /// That of a relay with files there, whose places these are. The error is want of memory.
    pub(crate) fn new(
        home: Home<'_>,
        relay: &Relay<Global>,
        places: &Places<Global>,
    ) -> Result<StateFile, LoopFault>
        requires { ArePlacesOf relay.now places.now }
    {
        let alloc = home.files.alloc();
        let rows = OutputRows::new(alloc, relay, places)?;
        let path = path_of(alloc, home.path, "")?;
        let draft = path_of(alloc, home.path, ".new")?;
        Ok(StateFile {
            files: copy_of(home.files)?,
            rows,
            path,
            draft,
            written: Vec::new(alloc),
            due: 0,
        })
    }

    /// Writes the text anew where it changed, once a second at most. `now` is in milliseconds since
    /// one fixed start, and `second` in seconds since the beginning of 1970. Where it can't be
    /// written, no file stays, so that nobody reads an older text, and it is tried again a second
    /// later.
    pub(crate) fn look<R: Wait>(
        &mut self,
        rt: &R,
        notices: &Notices<Global>,
        now: u64,
        second: u64,
    ) {
        if now < self.due {
            return;
        }
        self.due = now.saturating_add(LASTS);
        if let Ok(tallies) = tallies_of(rt, self.files.alloc(), notices) {
            self.rows.count(&tallies, second);
            self.write_changed();
        }
    }

    // Writes the text where it changed.
    fn write_changed(&mut self) {
        let Ok(text) = self.rows.text(self.files.alloc()) else {
            return;
        };
        if text.as_slice() == self.written.as_slice() {
            return;
        }
        if self.write(&text) {
            self.written = text;
        } else {
            self.written.clear();
            let _ = fs::remove_file(&self.files, self.path.as_str());
        }
    }

    // Writes this text; false where it can't be written.
    fn write(&self, text: &[u8]) -> bool {
        let (files, draft) = (&self.files, self.draft.as_str());
        fs::write(files, draft, text).is_ok()
            && fs::rename(files, draft, self.path.as_str()).is_ok()
    }
}

// How often each place worked and failed, in their order.
fn tallies_of<R: Wait>(
    rt: &R,
    alloc: Global,
    notices: &Notices<Global>,
) -> Result<Vec<Tally, Global>, AllocError> {
    let mut tallies = Vec::new(alloc);
    for place in 0..notices.places() {
        let Some(tally) = notices.tally(rt, place) else {
            break;
        };
        tallies.push(tally)?;
    }
    Ok(tallies)
}

// The path of the file in this folder, with this behind it.
fn path_of(alloc: Global, folder: &str, end: &str) -> Result<String, AllocError> {
    format!(in alloc; "{folder}/{STATE_FILE}{end}")
}
