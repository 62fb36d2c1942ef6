//! What a relay that runs says of its outputs, in a file of its data folder.

ghost use Rattle.std.specs.Prelude.{◌≡◌, option_map, IfOk, IfSome};
ghost use Rattle.program_text.specs.Texts.{IsTextOf};
ghost use Rattle.folder_counts.specs.Outputs.{
  delivery_time,
  path_of,
  percent_of,
  sound_buffer,
  state_name,
  used_of,
  AreOutputsIn,
  AreOutputsOf,
  IsTimed,
};

use crate::buffers::Buffer;
use crate::instant::{Instant, instant_at};
use conf_values::is_path;
use output_state::{OutputCounts, OutputState, STATE_FILE, states_in};
use program_text::{Open, ReadFault, read_named};
use std::alloc::{AllocError, Allocator};
use std::marker::Model;
use std::str;

// So many nanoseconds are a second.
const SECOND: i128 = 1_000_000_000;

/// An output, as its relay says it.
#[derive(Drop)]
pub(crate) struct Output<'t> {
    line: u64,
    buffer: &'t [u8],
    counts: OutputCounts,
    last: Option<Instant>,
}

impl<'t> Model for Output<'t> {
    ghost use Rattle.folder_counts.specs.Views.{OutputView};

    ghost Value = { OutputView };

    ghost view = { λ o. record {
      state = record {
        line = o.line;
        buffer = o.buffer.now;
        counts = o.counts;
      };
      last = o.last;
    } };
}

impl<'t> Output<'t> {
    // The output of which this is said.
    fn of(state: &OutputState<'t>) -> Output<'t>
        ensures state { result.state ≡ state.now }
        ensures last { IsTimed result }
    {
        let counts = state.counts();
        Output {
            line: state.line(),
            buffer: state.buffer(),
            counts,
            last: instant_at(delivery_time(counts.last)),
        }
    }

    /// The line of the configuration where it begins.
    pub(crate) fn line(&self) -> u64
        ensures { result ≡ self.now.state.line }
    {
        self.line
    }

    /// The word for its buffer: the path of its files, or `*` where it is in memory.
    pub(crate) fn buffer(&self) -> &'t [u8]
        ensures { result.now ≡ self.now.state.buffer }
    {
        self.buffer
    }

    /// The path of its buffer; none where the buffer is in memory.
    pub(crate) fn path(&self) -> Option<&'t str>
        ensures { option_map (λ path. path.now) result ≡ path_of self.now.state.buffer }
    {
        path_of(self.buffer)
    }

    /// Its numbers.
    pub(crate) fn counts(&self) -> OutputCounts
        ensures { result ≡ self.now.state.counts }
    {
        self.counts
    }

    /// When the last chunk was delivered there; none where none was.
    pub(crate) fn last(&self) -> Option<Instant>
        ensures { result ≡ self.now.last }
    {
        self.last
    }
}

// The time of a delivery that was so many seconds after the beginning of 1970, in nanoseconds; none
// where that is 0.
fn delivery_time(seconds: u64) -> Option<i128>
    ensures { result ≡ delivery_time seconds }
{
    if seconds == 0 {
        return None;
    }
    Some(seconds as i128 * SECOND)
}

// The path that the word for a buffer is; none where it is no path.
fn path_of(word: &[u8]) -> Option<&str>
    ensures { option_map (λ path. path.now) result ≡ path_of word.now }
{
    if !is_path(word) {
        return None;
    }
    match str::from_utf8(word) {
        Ok(path) => Some(path),
        Err(_) => None,
    }
}

/// The text in which a relay says what of its outputs; none where the file isn't read. The error is
/// want of memory.
pub(crate) fn state_text<A: Allocator + Copy, O: Open>(
    alloc: A,
    files: &O,
) -> Result<Option<Vec<u8, A>>, AllocError>
    ensures { IfOk result (λ read. IfSome (option_map (λ text. text.items) read)
        (IsTextOf (O.text_of files.now state_name))) }
{
    match read_named(alloc, STATE_FILE, files) {
        Ok(text) => Ok(Some(text)),
        Err(ReadFault::Read) => Ok(None),
        Err(ReadFault::Memory) => Err(AllocError),
    }
}

/// The outputs that this text says, in its order; none where there is no text. The error is want of
/// memory.
pub(crate) fn outputs_of<'t, A: Allocator + Copy>(
    alloc: A,
    text: &'t Option<Vec<u8, A>>,
) -> Result<Vec<Output<'t>, A>, AllocError>
    ensures { IfOk result (λ outputs.
        AreOutputsOf (option_map (λ text. text.items) text.now) outputs.items) }
{
    match text {
        Some(text) => outputs_in(alloc, text),
        None => Ok(Vec::new(alloc)),
    }
}

// The outputs of a text.
fn outputs_in<'t, A: Allocator + Copy>(
    alloc: A,
    text: &'t [u8],
) -> Result<Vec<Output<'t>, A>, AllocError>
    ensures { IfOk result (λ outputs. AreOutputsIn text.now outputs.items) }
{
    let states = states_in(alloc, text)?;
    let mut outputs = Vec::new(alloc);
    for state in &states {
        outputs.push(Output::of(state))?;
    }
    Ok(outputs)
}

/// How many percent of its limit the buffer of an output holds, rounded down; none where it is in
/// memory, these buffers have no sound one of its path, or the limit is 0. The error is want of
/// memory for a number of 2^64 or more.
#[tactic(auto, unfolding(crate::specs::Outputs::used_of))]
pub(crate) fn used_of(
    buffers: &[Buffer<'_>],
    output: &Output<'_>,
) -> Result<Option<u64>, AllocError>
    ensures { IfOk result (λ used. used ≡ used_of buffers.now output.now.state) }
{
    let Some(path) = output.path() else {
        return Ok(None);
    };
    let Some(buffer) = sound_buffer(buffers, path) else {
        return Ok(None);
    };
    percent_of(buffer.chunks().bytes, output.counts().limit)
}

// The buffer of this path, where its journal is read and not damaged.
fn sound_buffer<'b, 'a>(buffers: &'b [Buffer<'a>], path: &str) -> Option<&'b Buffer<'a>>
    ensures { option_map (λ buffer. buffer.now) result ≡ sound_buffer buffers.now path.now }
{
    buffers
        .iter()
        .find(|buffer| buffer.path() == path && buffer.is_sound())
}

// How many percent of a limit so many bytes are; none of a limit of 0. The error is want of memory
// for a number of 2^64 or more.
fn percent_of(bytes: u64, limit: u64) -> Result<Option<u64>, AllocError>
    ensures { IfOk result (λ percent. percent ≡ percent_of bytes limit) }
{
    if limit == 0 {
        return Ok(None);
    }
    match u64::try_from(bytes as u128 * 100 / limit as u128) {
        Ok(percent) => Ok(Some(percent)),
        Err(_) => Err(AllocError),
    }
}
