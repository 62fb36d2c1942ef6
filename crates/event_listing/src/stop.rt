//! Why nothing more is printed.

ghost use Rattle.std.specs.Prelude.{◌≢◌};

use program_text::ReadFault;
use std::io;

/// Why the events of a file are not all printed.
#[derive(Clone, Copy)]
pub(crate) enum Stop {
    /// Memory ran out.
    Memory,
    /// The reader failed.
    Read,
    /// The writer failed.
    Output,
}

impl Stop {
    /// Why the events are not all printed where the reader failed so.
    pub(crate) fn of_reader(error: &io::Error) -> Stop
        ensures { result ≢ Stop.Output }
    {
        match ReadFault::of(error) {
            ReadFault::Memory => Stop::Memory,
            ReadFault::Read => Stop::Read,
        }
    }
}
