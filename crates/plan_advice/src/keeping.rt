//! What an output lacks that lets go of events.

use crate::pieces::Piece;
use crate::story::put_line;
use relay_conf::{BufferKind, BufferSettings, Output, OverflowAction};
use std::alloc::{AllocError, Allocator};

// What an output may lack to keep what it takes, and what becomes of events without it, as
// docs/CONFIGURATION.md says, "Losing nothing".

const BUFFER: &str = "a buffer: `@type null` lets go of each event";

const FILE: &str =
    "a `<buffer>` with `@type file` and a `path`: a restart of the relay loses what is in the buffer";

const RETRIES: &str =
    "`retry_forever true` in its buffer: a chunk that can't be delivered is let go after `retry_timeout` or `retry_max_times`";

const REFUSAL: &str =
    "`overflow_action throw_exception` in its buffer: `drop_oldest_chunk` lets go the oldest queued chunk of a full buffer";

const ACKNOWLEDGEMENTS: &str =
    "`require_ack_response true`: a chunk goes once it was sent, whether or not it arrived";

/// Adds what the output lacks to keep what it takes. The only error is want of memory.
pub(crate) fn put_lacks_of<A: Allocator + Copy>(
    alloc: A,
    out: &mut Vec<u8, A>,
    output: &Output<A>,
) -> Result<(), AllocError> {
    match output {
        Output::Null { line } => put_lack(alloc, out, *line, BUFFER),
        Output::Relabel { .. } => Ok(()),
        Output::Forward { settings, line } => {
            put_lacks_of_buffer(alloc, out, *line, &settings.buffer)?;
            if settings.require_ack_response {
                return Ok(());
            }
            put_lack(alloc, out, *line, ACKNOWLEDGEMENTS)
        }
        Output::File { settings, line } => {
            put_lacks_of_buffer(alloc, out, *line, &settings.buffer)
        }
    }
}

// Adds what this buffer of the output in this line lacks.
fn put_lacks_of_buffer<A: Allocator + Copy>(
    alloc: A,
    out: &mut Vec<u8, A>,
    line: usize,
    buffer: &BufferSettings<A>,
) -> Result<(), AllocError> {
    if let BufferKind::Memory = &buffer.kind {
        put_lack(alloc, out, line, FILE)?;
    }
    if !buffer.retry.forever {
        put_lack(alloc, out, line, RETRIES)?;
    }
    if buffer.overflow_action == OverflowAction::DropOldestChunk {
        put_lack(alloc, out, line, REFUSAL)?;
    }
    Ok(())
}

// Adds that the output in this line lacks this.
fn put_lack<A: Allocator + Copy>(
    alloc: A,
    out: &mut Vec<u8, A>,
    line: usize,
    lack: &str,
) -> Result<(), AllocError> {
    put_line(
        alloc,
        out,
        &[
            Piece::Text(b"  The output in line "),
            Piece::Number(line as u64),
            Piece::Text(b" lacks "),
            Piece::Text(lack.as_bytes()),
            Piece::Text(b"."),
        ],
    )
}
