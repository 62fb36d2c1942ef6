//! What a relay says of one of its outputs.

ghost use Rattle.std.specs.Prelude.{◌≡◌};

use std::marker::Model;

/// The name of the file in a relay's data folder.
pub const STATE_FILE: &str = "relay.status";

/// The numbers of an output that has a buffer.
#[derive(Clone, Copy, PartialEq, Eq)]
pub struct OutputCounts {
    /// How many bytes its buffer takes.
    pub limit: u64,
    /// How many of its servers fail now; of a sink 0 or 1.
    pub failing: u64,
    /// How often a delivery failed, or a server couldn't be reached, since the relay started; it
    /// stays at `u64::MAX`.
    pub failures: u64,
    /// How many chunks were delivered since the relay started; it stays at `u64::MAX`.
    pub delivered: u64,
    /// When the last one was delivered, in whole seconds since the beginning of 1970; 0 where none
    /// was.
    pub last: u64,
}

/// What a relay says of an output that has a buffer.
#[derive(Drop)]
pub struct OutputState<'t> {
    line: u64,
    buffer: &'t [u8],
    counts: OutputCounts,
}

impl<'t> Model for OutputState<'t> {
    ghost use Rattle.output_state.specs.State.{StateView};

    ghost Value = { StateView };

    ghost view = { λ s. record { line = s.line; buffer = s.buffer.now; counts = s.counts } };
}

impl<'t> OutputState<'t> {
    /// The state of the output that begins at this line of the configuration. The buffer is the
    /// path of its files, or `*` where it is in memory.
    pub fn new(line: u64, buffer: &'t [u8], counts: OutputCounts) -> OutputState<'t>
        ensures { result ≡ record { line = line; buffer = buffer.now; counts = counts } }
    {
        OutputState {
            line,
            buffer,
            counts,
        }
    }

    /// The line of the configuration where the output begins.
    pub fn line(&self) -> u64
        ensures { result ≡ self.now.line }
    {
        self.line
    }

    /// The path of its buffer's files, or `*` where the buffer is in memory.
    pub fn buffer(&self) -> &'t [u8]
        ensures { result.now ≡ self.now.buffer }
    {
        self.buffer
    }

    /// Its numbers.
    pub fn counts(&self) -> OutputCounts
        ensures { result ≡ self.now.counts }
    {
        self.counts
    }
}
