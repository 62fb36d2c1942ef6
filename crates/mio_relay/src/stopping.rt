//! When a loop is told to end.

use std::sync::atomic::{AtomicBool, Ordering};

/// That a loop's flag was seen set: nothing else makes one.
#[derive(Drop)]
pub struct Told(());

impl Told {
    /// That the flag is set, if it is.
    pub fn seen(stop: &AtomicBool) -> Option<Told> {
        if stop.load(Ordering::SeqCst) {
            Some(Told(()))
        } else {
            None
        }
    }
}
