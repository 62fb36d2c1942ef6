//! How an output keeps what it has not yet delivered (Fluentd, "Config: Buffer Section"): the
//! parameters of a buffer's section, each with its row, its field, its default and its reading.

ghost use Rattle.std.specs.Prelude.{◌≡◌, map, option_and_then, string_bytes, true, IfOk, ◌*◌, ◌^◌, None, Some, codes, unwrap_or, if◌then◌else◌, []};
ghost use Rattle.conf_text.specs.Views.{setting, tree_of};
ghost use Rattle.relay_conf.specs.Elements.{read_or, value_of};
ghost use Rattle.relay_conf.specs.BufferSection.{IsBufferIn, IsBufferOf, flush_mode_of, has_files, is_file_of, keeping_settings, kind_view, overflow_of, retry_of, threads_of};

use crate::element::{last_child, pairs_of, value_of};
use crate::form::Form;
use crate::rows::Row;
use crate::values::{flag_or, number, number_or, size_or, text_or, time, time_or};
use conf_text::{Element, Pair};
use conf_values::whole_number;
use retry_waits::RetrySettings;
use std::alloc::{AllocError, Allocator};

/// The parameters of a buffer's section, beside its type.
pub(crate) static BUFFER_ROWS: [Row; 16] = [
    Row {
        name: "path",
        form: Form::Path,
    },
    Row {
        name: "flush_mode",
        form: Form::FlushMode,
    },
    Row {
        name: "flush_interval",
        form: Form::Time,
    },
    Row {
        name: "flush_thread_count",
        form: Form::Threads,
    },
    Row {
        name: "flush_at_shutdown",
        form: Form::Text,
    },
    Row {
        name: "retry_type",
        form: Form::RetryType,
    },
    Row {
        name: "retry_wait",
        form: Form::Time,
    },
    Row {
        name: "retry_exponential_backoff_base",
        form: Form::Number,
    },
    Row {
        name: "retry_max_interval",
        form: Form::Time,
    },
    Row {
        name: "retry_max_times",
        form: Form::Number,
    },
    Row {
        name: "retry_timeout",
        form: Form::Time,
    },
    Row {
        name: "retry_forever",
        form: Form::Flag,
    },
    Row {
        name: "retry_randomize",
        form: Form::Text,
    },
    Row {
        name: "overflow_action",
        form: Form::Overflow,
    },
    Row {
        name: "chunk_limit_size",
        form: Form::Size,
    },
    Row {
        name: "total_limit_size",
        form: Form::Size,
    },
];

/// The settings of one buffer.
pub struct BufferSettings<A: Allocator> {
    /// Where its chunks are.
    pub kind: BufferKind<A>,
    /// When a staged chunk is queued.
    pub flush_mode: FlushMode,
    /// How long a chunk stays staged, in seconds.
    pub flush_interval: u64,
    /// How many threads deliver its chunks: 1 to 64.
    pub flush_thread_count: usize,
    /// What follows a delivery that failed.
    pub retry: RetrySettings,
    /// What follows where the buffer is full.
    pub overflow_action: OverflowAction,
    /// How many bytes of entries one chunk may have.
    pub chunk_limit_size: u64,
    /// How many bytes of entries all chunks together may have.
    pub total_limit_size: u64,
}

// By hand, so that crates above don't prove again how its parts end.
impl<A: Allocator> Drop for BufferSettings<A> {
    fn drop(self) {
        let BufferSettings {
            kind: _,
            flush_mode: _,
            flush_interval: _,
            flush_thread_count: _,
            retry: _,
            overflow_action: _,
            chunk_limit_size: _,
            total_limit_size: _,
        } = self;
    }
}

/// Where the chunks of a buffer are.
#[derive(Drop)]
pub enum BufferKind<A: Allocator> {
    /// In memory: a restart loses them.
    Memory,
    /// In journal files of this name: 1 to 64 letters, digits, `_`, `-` or `.`, not `.` first.
    File { path: String<A> },
}

/// When a staged chunk is queued.
#[derive(Clone, Copy, PartialEq, Eq)]
pub enum FlushMode {
    /// Once the flush interval has passed since its first event.
    Interval,
    /// In the turn that appended to it.
    Immediate,
}

/// What follows where a buffer is full.
#[derive(Clone, Copy, PartialEq, Eq)]
pub enum OverflowAction {
    /// The append is refused.
    ThrowException,
    /// The oldest queued chunks go until the append fits.
    DropOldestChunk,
}

/// How long a chunk stays staged, in seconds.
pub const DEFAULT_FLUSH_INTERVAL: u64 = 60;
/// How many threads deliver a buffer's chunks.
pub const DEFAULT_FLUSH_THREADS: usize = 1;
/// The wait after the first failure, in seconds.
pub const DEFAULT_RETRY_WAIT: u64 = 1;
/// What the wait is multiplied by after each further failure.
pub const DEFAULT_RETRY_BASE: u64 = 2;
/// How long after its first failure a chunk is given up, in seconds: 72 hours.
pub const DEFAULT_RETRY_TIMEOUT: u64 = 259_200;
/// Whether a chunk is never given up.
pub const DEFAULT_RETRY_FOREVER: bool = false;
/// How many bytes of entries a chunk in memory may have: 8 MB.
pub const DEFAULT_MEMORY_CHUNK_LIMIT: u64 = 8_388_608;
/// How many bytes of entries a chunk in a file may have: 256 MB.
pub const DEFAULT_FILE_CHUNK_LIMIT: u64 = 268_435_456;
/// How many bytes of entries a buffer in memory may have: 512 MB.
pub const DEFAULT_MEMORY_TOTAL_LIMIT: u64 = 536_870_912;
/// How many bytes of entries a buffer in files may have: 64 GB.
pub const DEFAULT_FILE_TOTAL_LIMIT: u64 = 68_719_476_736;

/// The most threads that may deliver a buffer's chunks.
pub const MOST_FLUSH_THREADS: usize = 64;

impl<A: Allocator> BufferSettings<A> {
    /// Those of a buffer in files of this name that lets no chunk go before it is delivered, with
    /// all else by default: what a section says that has `@type file`, this `path` and
    /// `retry_forever true`.
    pub fn keeping(path: String<A>) -> BufferSettings<A>
        ensures means { IsBufferOf (keeping_settings (string_bytes path)) result }
        ensures kind { result.kind ≡ BufferKind.File path }
        ensures for_ever { result.retry.forever ≡ true }
        ensures refuses { result.overflow_action ≡ OverflowAction.ThrowException }
    {
        BufferSettings {
            kind: BufferKind::File { path },
            flush_mode: FlushMode::Interval,
            flush_interval: DEFAULT_FLUSH_INTERVAL,
            flush_thread_count: DEFAULT_FLUSH_THREADS,
            retry: RetrySettings {
                wait: DEFAULT_RETRY_WAIT,
                exponential_backoff_base: DEFAULT_RETRY_BASE,
                max_interval: None,
                max_times: None,
                timeout: DEFAULT_RETRY_TIMEOUT,
                forever: true,
            },
            overflow_action: OverflowAction::ThrowException,
            chunk_limit_size: DEFAULT_FILE_CHUNK_LIMIT,
            total_limit_size: DEFAULT_FILE_TOTAL_LIMIT,
        }
    }
}

/// The last buffer section, or all defaults where there is none.
pub(crate) fn buffer_in<A: Allocator + Copy>(
    alloc: A,
    children: &[Element<A>],
) -> Result<BufferSettings<A>, AllocError>
    ensures { IfOk result (λ b. IsBufferIn (map tree_of children.now) b) }
{
    match last_child(children, "buffer") {
        None => {
            let none = Vec::new(alloc);
            buffer(alloc, &none)
        }
        Some(element) => buffer(alloc, pairs_of(element)),
    }
}

fn buffer<A: Allocator + Copy>(alloc: A, pairs: &[Pair<A>]) -> Result<BufferSettings<A>, AllocError>
    ensures { IfOk result (λ b. IsBufferOf (map setting pairs.now) b) }
{
    let in_files = has_files(pairs);
    Ok(BufferSettings {
        kind: buffer_kind(alloc, pairs)?,
        flush_mode: flush_mode_or(pairs, "flush_mode", FlushMode::Interval),
        flush_interval: time_or(pairs, "flush_interval", DEFAULT_FLUSH_INTERVAL),
        flush_thread_count: threads_or(pairs, "flush_thread_count", DEFAULT_FLUSH_THREADS),
        retry: retry(pairs),
        overflow_action: overflow_or(pairs, "overflow_action", OverflowAction::ThrowException),
        chunk_limit_size: size_or(pairs, "chunk_limit_size", chunk_limit(in_files)),
        total_limit_size: size_or(pairs, "total_limit_size", total_limit(in_files)),
    })
}

fn buffer_kind<A: Allocator + Copy>(
    alloc: A,
    pairs: &[Pair<A>],
) -> Result<BufferKind<A>, AllocError>
    ensures { IfOk result
        (λ k. kind_view k
        ≡ (if has_files (map setting pairs.now)
        then Some (unwrap_or (value_of (codes "path") (map setting pairs.now)) []) else None)) }
{
    if has_files(pairs) {
        Ok(BufferKind::File {
            path: text_or(alloc, pairs, "path", "")?,
        })
    } else {
        Ok(BufferKind::Memory)
    }
}

fn retry<A: Allocator>(pairs: &[Pair<A>]) -> RetrySettings
    ensures { result ≡ retry_of (map setting pairs.now) }
{
    RetrySettings {
        wait: time_or(pairs, "retry_wait", DEFAULT_RETRY_WAIT),
        exponential_backoff_base: number_or(
            pairs,
            "retry_exponential_backoff_base",
            DEFAULT_RETRY_BASE,
        ),
        max_interval: time(pairs, "retry_max_interval"),
        max_times: number(pairs, "retry_max_times"),
        timeout: time_or(pairs, "retry_timeout", DEFAULT_RETRY_TIMEOUT),
        forever: flag_or(pairs, "retry_forever", DEFAULT_RETRY_FOREVER),
    }
}

fn chunk_limit(in_files: bool) -> u64
    ensures { result ≡ (if in_files then 256 * 1024 ^ 2 else 8 * 1024 ^ 2) }
{
    if in_files {
        DEFAULT_FILE_CHUNK_LIMIT
    } else {
        DEFAULT_MEMORY_CHUNK_LIMIT
    }
}

fn total_limit(in_files: bool) -> u64
    ensures { result ≡ (if in_files then 64 * 1024 ^ 3 else 512 * 1024 ^ 2) }
{
    if in_files {
        DEFAULT_FILE_TOTAL_LIMIT
    } else {
        DEFAULT_MEMORY_TOTAL_LIMIT
    }
}

/// Whether a buffer of these parameters has its chunks in files: not, where no line says a type
/// that is known.
pub(crate) fn has_files<A: Allocator>(pairs: &[Pair<A>]) -> bool
    ensures { result ≡ has_files (map setting pairs.now) }
{
    match value_of(pairs, "@type") {
        None => false,
        Some(kind) => is_file(kind).unwrap_or(false),
    }
}

// A number of threads.
fn threads_or<A: Allocator>(pairs: &[Pair<A>], name: &str, default: usize) -> usize
    ensures { result ≡ read_or threads_of default (value_of name.now (map setting pairs.now)) }
{
    match value_of(pairs, name) {
        None => default,
        Some(value) => threads(value.as_bytes()).unwrap_or(default),
    }
}

// When a staged chunk is queued.
fn flush_mode_or<A: Allocator>(pairs: &[Pair<A>], name: &str, default: FlushMode) -> FlushMode
    ensures { result ≡ read_or flush_mode_of default (value_of name.now (map setting pairs.now)) }
{
    match value_of(pairs, name) {
        None => default,
        Some(value) => flush_mode(value).unwrap_or(default),
    }
}

// What follows where a buffer is full.
fn overflow_or<A: Allocator>(
    pairs: &[Pair<A>],
    name: &str,
    default: OverflowAction,
) -> OverflowAction
    ensures { result ≡ read_or overflow_of default (value_of name.now (map setting pairs.now)) }
{
    match value_of(pairs, name) {
        None => default,
        Some(value) => overflow(value).unwrap_or(default),
    }
}

/// The number of threads that a text spells, from 1 to 64, if it spells one.
pub(crate) fn threads(value: &[u8]) -> Option<usize>
    ensures { result ≡ threads_of value.now }
{
    let number = whole_number(value)?;
    if number == 0 || number > MOST_FLUSH_THREADS as u64 {
        return None;
    }
    Some(number as usize)
}

/// Whether a buffer's chunks are in files.
pub(crate) fn is_file(value: &str) -> Option<bool>
    ensures { result ≡ is_file_of value.now }
{
    if value == "file" {
        return Some(true);
    }
    if value == "memory" {
        return Some(false);
    }
    None
}

/// When a staged chunk is queued.
pub(crate) fn flush_mode(value: &str) -> Option<FlushMode>
    ensures { result ≡ flush_mode_of value.now }
{
    if value == "default" || value == "interval" {
        return Some(FlushMode::Interval);
    }
    if value == "immediate" {
        return Some(FlushMode::Immediate);
    }
    None
}

/// What follows where a buffer is full.
pub(crate) fn overflow(value: &str) -> Option<OverflowAction>
    ensures { result ≡ overflow_of value.now }
{
    if value == "throw_exception" {
        return Some(OverflowAction::ThrowException);
    }
    if value == "drop_oldest_chunk" {
        return Some(OverflowAction::DropOldestChunk);
    }
    None
}
