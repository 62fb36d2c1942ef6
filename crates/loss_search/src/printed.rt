//! Steps as lines of a text.

use std::alloc::{AllocError, Allocator};
use std::fmt;
use step_lines::{ChunkName, Step};

/// Adds a line for the step, in the form that `Step::read_all` takes. An `Err` leaves a part of it.
pub fn put_step<A: Allocator + Copy>(
    alloc: A,
    out: &mut Vec<u8, A>,
    step: &Step<A>,
) -> Result<(), AllocError> {
    let word = word_of(step);
    let (first, second, third) = fields_of(step);
    let text = format!(in alloc; "{word}{first}{second}{third}")?;
    out.extend_from_slice(text.as_bytes())?;
    if let Step::Send { tag, entries, .. } = step {
        put_sent(alloc, out, tag.as_bytes(), entries)?;
    }
    out.extend_from_slice(b"\n")
}

// The step's first word.
fn word_of<A: Allocator>(step: &Step<A>) -> &'static str {
    match step {
        Step::Send { .. } => "send",
        Step::Begin { .. } => "begin",
        Step::Append { .. } => "append",
        Step::Ack { .. } => "ack",
        Step::Abandon { .. } => "abandon",
        Step::Foreign { .. } => "foreign",
        Step::Enqueue { .. } => "enqueue",
        Step::Claim { .. } => "claim",
        Step::Back { .. } => "back",
        Step::Forward { .. } => "forward",
        Step::Seen { .. } => "seen",
        Step::Write { .. } => "write",
        Step::Part { .. } => "part",
        Step::Purge { .. } => "purge",
        Step::Done { .. } => "done",
        Step::Discard { .. } => "discard",
        Step::Oldest { .. } => "oldest",
        Step::Restart { .. } => "restart",
    }
}

// What stands behind a step's word, with a blank in front.
#[derive(Clone, Copy)]
enum Field {
    Nothing,
    Number(u64),
    Chunk(ChunkName),
}

impl fmt::Display for Field {
    fn fmt<W: fmt::Write>(&self, f: &mut fmt::Formatter<W>) -> fmt::Result {
        match *self {
            Field::Nothing => Ok(()),
            Field::Number(number) => write!(f, " {number}"),
            Field::Chunk(chunk) => {
                let relay = chunk.relay;
                let buffer = chunk.buffer;
                let serial = chunk.serial;
                write!(f, " {relay}/{buffer}/{serial}")
            }
        }
    }
}

// The step's chunk and numbers.
fn fields_of<A: Allocator>(step: &Step<A>) -> (Field, Field, Field) {
    match step {
        Step::Send { client: number, .. }
        | Step::Begin { message: number }
        | Step::Ack { delivery: number }
        | Step::Abandon { delivery: number }
        | Step::Foreign { message: number }
        | Step::Restart { relay: number } => {
            (Field::Number(*number), Field::Nothing, Field::Nothing)
        }
        Step::Enqueue { chunk }
        | Step::Claim { chunk }
        | Step::Back { chunk }
        | Step::Seen { chunk }
        | Step::Write { chunk }
        | Step::Purge { chunk }
        | Step::Done { chunk }
        | Step::Discard { chunk } => (Field::Chunk(*chunk), Field::Nothing, Field::Nothing),
        Step::Forward {
            chunk,
            server: number,
        }
        | Step::Part {
            chunk,
            count: number,
        } => (Field::Chunk(*chunk), Field::Number(*number), Field::Nothing),
        Step::Oldest { relay, buffer } => {
            (
                Field::Number(*relay),
                Field::Number(*buffer),
                Field::Nothing,
            )
        }
        Step::Append {
            delivery,
            buffer,
            serial,
        } => (
            Field::Number(*delivery),
            Field::Number(*buffer),
            Field::Number(*serial),
        ),
    }
}

// Adds the tag and the entries of a message that a client sends.
fn put_sent<A: Allocator + Copy>(
    alloc: A,
    out: &mut Vec<u8, A>,
    tag: &[u8],
    entries: &[Vec<u8, A>],
) -> Result<(), AllocError> {
    put_word(out, tag)?;
    for entry in entries {
        let digits = hex::encode(alloc, entry)?;
        put_word(out, digits.as_bytes())?;
    }
    Ok(())
}

// Adds the word behind a blank.
fn put_word<A: Allocator>(out: &mut Vec<u8, A>, word: &[u8]) -> Result<(), AllocError> {
    out.extend_from_slice(b" ")?;
    out.extend_from_slice(word)
}
