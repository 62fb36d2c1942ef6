//! Steps are read from the lines of a text.

ghost use Rattle.std.specs.Prelude.{Ok as Decoded, ◌≡◌, [], ◌∷◌, ℕ, codes, map, not, length, List, ◌==◌, IfOk, IfErr, IfSome, IfNone, IsTrue, ◌↔◌};
ghost use Rattle.std.specs.List.{AllZip, slice_split, filter};
ghost use Rattle.hex.specs.Hex.{decode_of};
ghost use Rattle.step_lines.specs.Laws.{numbers_of};
ghost use Rattle.step_lines.specs.Texts.{texts_of};
ghost use Rattle.step_lines.specs.declared.step.ChunkName.{ChunkName as TheName};
ghost use Rattle.step_lines.specs.StepLines.{IsNumber, IsChunkName, IsStepOf, NoStep, IsNoneOf, number_words, chunk_words, counted_words, SaysNothing, IsSaid, words_of, is_blank as blank};

use crate::step::{ChunkName, Step};
use conf_values::whole_number;
use hex::FromHexError;
use std::alloc::{AllocError, Allocator};
use std::str::from_utf8;
use tag_pattern::{Tag, TagError};
use text_lines::lines;
use thiserror::Error;

/// Why a text is no list of steps.
#[derive(Clone, Copy, Debug, Drop, PartialEq, Eq, Error)]
pub enum StepsError {
    /// The line of this number, counted from 1, is of no step's form.
    #[error("S3 line {0}")]
    BadLine(usize),
    /// Memory ran out.
    #[error("memory")]
    Memory,
}

impl From<AllocError> for StepsError {
    ghost use Rattle.std.specs.Prelude.{◌≡◌};
    ghost use Rattle.step_lines.specs.declared.lines.StepsError.TheVariants.{Memory};

    ghost from_gives = { λ _ e. e ≡ Memory };

    fn from(_refused: AllocError) -> StepsError {
        StepsError::Memory
    }
}

// A list of texts that are lent.
type Words<'t, A> = Vec<&'t [u8], A>;

// Whether it is a space or a tab.
fn is_blank(byte: u8) -> bool
    ensures { result ≡ blank byte }
{
    byte == b' ' || byte == b'\t'
}

// Whether it is this word.
fn is_word(word: &[u8], name: &[u8]) -> bool
    ensures { IsTrue result ↔ (word.now ≡ name.now) }
{
    word == name
}

// The fields of a line.
fn words<'t, A: Allocator + Copy>(alloc: A, line: &'t [u8]) -> Result<Words<'t, A>, AllocError>
    ensures { IfOk result (λ words. map (λ word. word.now) words.items ≡ words_of line.now) }
{
    line.split(|byte| is_blank(*byte))
        .filter(|word| !word.is_empty())
        .collect(alloc)
}

// The parts of a word between slashes.
fn name_parts<'t, A: Allocator + Copy>(alloc: A, word: &'t [u8]) -> Result<Words<'t, A>, AllocError>
    ensures { IfOk result
        (λ parts. map (λ part. part.now) parts.items ≡ slice_split (λ byte. byte == 47) word.now) }
{
    word.split(|byte| *byte == b'/').collect(alloc)
}

// The chunk that the word names.
fn chunk_name<A: Allocator + Copy>(alloc: A, word: &[u8]) -> Result<Option<ChunkName>, AllocError>
    ensures name { IfOk result (λ found. IfSome found (IsChunkName word.now)) }
    ensures none { IfOk result
        (λ found. IfNone found ((name : TheName) → ¬ (IsChunkName word.now name))) }
{
    let parts = name_parts(alloc, word)?;
    Ok(name_of(parts.as_slice()))
}

// The chunk of these parts of a name.
fn name_of(parts: &[&[u8]]) -> Option<ChunkName>
    ensures name { IfSome result
        (λ name. AllZip IsNumber (map (λ part. part.now) parts.now) (numbers_of name)) }
    ensures none { IfNone result ((name : TheName)
        → ¬ (AllZip IsNumber (map (λ part. part.now) parts.now) (numbers_of name))) }
{
    match parts {
        [relay, buffer, serial] => name_of_three(relay, buffer, serial),
        _ => None,
    }
}

// The chunk of these three numbers.
fn name_of_three(relay: &[u8], buffer: &[u8], serial: &[u8]) -> Option<ChunkName>
    ensures name { IfSome result (λ name. AllZip IsNumber
        (relay.now ∷ buffer.now ∷ serial.now ∷ []) (numbers_of name)) }
    ensures none { IfNone result
        ((name : TheName) → IsNumber relay.now name.relay → IsNumber buffer.now name.buffer
        → ¬ (IsNumber serial.now name.serial)) }
{
    Some(ChunkName {
        relay: whole_number(relay)?,
        buffer: whole_number(buffer)?,
        serial: whole_number(serial)?,
    })
}

// The entry that the word spells in hex, if it spells one.
fn entry_of<A: Allocator>(alloc: A, word: &[u8]) -> Result<Option<Vec<u8, A>>, AllocError>
    ensures entry { IfOk result
        (λ found. IfSome found (λ entry. decode_of word.now ≡ Decoded entry.items)) }
    ensures none { IfOk result
        (λ found. IfNone found ((entry : List ℕ) → ¬ (decode_of word.now ≡ Decoded entry))) }
{
    match hex::decode(alloc, word) {
        Ok(entry) => Ok(Some(entry)),
        Err(fault) => match fault {
            FromHexError::OutOfMemory => Err(AllocError),
            _ => Ok(None),
        },
    }
}

// The entries that the words spell in hex, if each spells one.
fn entries_of<A: Allocator + Copy>(
    alloc: A,
    words: &[&[u8]],
) -> Result<Option<Vec<Vec<u8, A>, A>>, AllocError>
    ensures entries { IfOk result
        (λ found. IfSome found
        (λ entries. AllZip (λ word entry. decode_of word ≡ Decoded entry)
        (map (λ word. word.now) words.now) (texts_of entries.items))) }
    ensures none { IfOk result
        (λ found. IfNone found
        ((entries : List (List ℕ))
        → ¬ (AllZip (λ word entry. decode_of word ≡ Decoded entry)
        (map (λ word. word.now) words.now) entries))) }
{
    let mut entries = Vec::new(alloc);
    for word in words {
        let Some(entry) = entry_of(alloc, word)? else {
            return Ok(None);
        };
        entries.push(entry)?;
    }
    Ok(Some(entries))
}

// The step of a line that begins with `send` and goes on with these words.
fn send_of<A: Allocator + Copy>(
    alloc: A,
    client: &[u8],
    tag: &[u8],
    entries: &[&[u8]],
) -> Result<Option<Step<A>>, AllocError>
    ensures step { IfOk result
        (λ found. IfSome found
        (IsStepOf (codes "send" ∷ client.now ∷ tag.now ∷ map (λ word. word.now) entries.now))) }
    ensures none { IfOk result
        (λ found. IfNone found
        (NoStep A (codes "send" ∷ client.now ∷ tag.now ∷ map (λ word. word.now) entries.now))) }
{
    let Some(client) = whole_number(client) else {
        return Ok(None);
    };
    let tag = match Tag::read(alloc, tag) {
        Ok(tag) => tag,
        Err(TagError::TagTooLong) => return Ok(None),
        Err(TagError::Memory) => return Err(AllocError),
    };
    let Some(entries) = entries_of(alloc, entries)? else {
        return Ok(None);
    };
    Ok(Some(Step::Send {
        client,
        tag,
        entries,
    }))
}

// The step of a line of this word and a number.
fn number_step<A: Allocator>(name: &[u8], word: &[u8]) -> Option<Step<A>>
    ensures step { IfSome result (IsStepOf (name.now ∷ word.now ∷ [])) }
    ensures none { IfNone result ((n : ℕ) → IsNumber word.now n → IsNoneOf name.now number_words) }
{
    let number = whole_number(word)?;
    if is_word(name, b"begin") {
        return Some(Step::Begin { message: number });
    }
    if is_word(name, b"ack") {
        return Some(Step::Ack { delivery: number });
    }
    if is_word(name, b"abandon") {
        return Some(Step::Abandon { delivery: number });
    }
    if is_word(name, b"foreign") {
        return Some(Step::Foreign { message: number });
    }
    if is_word(name, b"restart") {
        return Some(Step::Restart { relay: number });
    }
    None
}

// The step of a line of this word and a chunk's name.
fn chunk_step<A: Allocator>(name: &[u8], chunk: ChunkName) -> Option<Step<A>>
    ensures step { IfSome result
        (λ s. (word : List ℕ) → IsChunkName word chunk → IsStepOf (name.now ∷ word ∷ []) s) }
    ensures none { IfNone result (IsNoneOf name.now chunk_words) }
{
    if is_word(name, b"enqueue") {
        return Some(Step::Enqueue { chunk });
    }
    if is_word(name, b"claim") {
        return Some(Step::Claim { chunk });
    }
    if is_word(name, b"back") {
        return Some(Step::Back { chunk });
    }
    if is_word(name, b"seen") {
        return Some(Step::Seen { chunk });
    }
    if is_word(name, b"write") {
        return Some(Step::Write { chunk });
    }
    if is_word(name, b"purge") {
        return Some(Step::Purge { chunk });
    }
    if is_word(name, b"done") {
        return Some(Step::Done { chunk });
    }
    if is_word(name, b"discard") {
        return Some(Step::Discard { chunk });
    }
    None
}

// The step of a line of this word and one more.
fn short_step<A: Allocator + Copy>(
    alloc: A,
    name: &[u8],
    word: &[u8],
) -> Result<Option<Step<A>>, AllocError>
    ensures step { IfOk result (λ found. IfSome found (IsStepOf (name.now ∷ word.now ∷ []))) }
    ensures none { IfOk result (λ found. IfNone found (NoStep A (name.now ∷ word.now ∷ []))) }
{
    if let Some(step) = number_step(name, word) {
        return Ok(Some(step));
    }
    let Some(chunk) = chunk_name(alloc, word)? else {
        return Ok(None);
    };
    Ok(chunk_step(name, chunk))
}

// The step of a line of this word, a chunk's name and a number.
fn counted_step<A: Allocator>(name: &[u8], chunk: ChunkName, word: &[u8]) -> Option<Step<A>>
    ensures step { IfSome result
        (λ s. (first : List ℕ) → IsChunkName first chunk
        → IsStepOf (name.now ∷ first ∷ word.now ∷ []) s) }
    ensures none { IfNone result ((n : ℕ) → IsNumber word.now n → IsNoneOf name.now counted_words) }
{
    let number = whole_number(word)?;
    if is_word(name, b"forward") {
        return Some(Step::Forward {
            chunk,
            server: number,
        });
    }
    if is_word(name, b"part") {
        return Some(Step::Part {
            chunk,
            count: number,
        });
    }
    None
}

// The step of a line that begins with `oldest` and goes on with these words.
fn oldest_of<A: Allocator>(relay: &[u8], buffer: &[u8]) -> Option<Step<A>>
    ensures step { IfSome result (IsStepOf (codes "oldest" ∷ relay.now ∷ buffer.now ∷ [])) }
    ensures none { IfNone result ((r b : ℕ) → IsNumber relay.now r → ¬ (IsNumber buffer.now b)) }
{
    Some(Step::Oldest {
        relay: whole_number(relay)?,
        buffer: whole_number(buffer)?,
    })
}

// The step of a line of this word, which isn't `send`, and two more.
fn middle_step<A: Allocator + Copy>(
    alloc: A,
    name: &[u8],
    first: &[u8],
    second: &[u8],
) -> Result<Option<Step<A>>, AllocError>
    ensures step { IfOk result
        (λ found. IfSome found (IsStepOf (name.now ∷ first.now ∷ second.now ∷ []))) }
    ensures none { IfOk result
        (λ found. IfNone found
        (¬ (name.now ≡ codes "send") → NoStep A (name.now ∷ first.now ∷ second.now ∷ []))) }
{
    if is_word(name, b"oldest") {
        return Ok(oldest_of(first, second));
    }
    let Some(chunk) = chunk_name(alloc, first)? else {
        return Ok(None);
    };
    Ok(counted_step(name, chunk, second))
}

// The step of a line that begins with `append` and goes on with these words.
fn append_of<A: Allocator>(delivery: &[u8], buffer: &[u8], serial: &[u8]) -> Option<Step<A>>
    ensures step { IfSome result
        (IsStepOf (codes "append" ∷ delivery.now ∷ buffer.now ∷ serial.now ∷ [])) }
    ensures none { IfNone result
        ((d b s : ℕ) → IsNumber delivery.now d → IsNumber buffer.now b
        → ¬ (IsNumber serial.now s)) }
{
    Some(Step::Append {
        delivery: whole_number(delivery)?,
        buffer: whole_number(buffer)?,
        serial: whole_number(serial)?,
    })
}

// The step of a line of this word, which isn't `send`, and three more.
fn long_step<A: Allocator>(
    name: &[u8],
    delivery: &[u8],
    buffer: &[u8],
    serial: &[u8],
) -> Option<Step<A>>
    ensures step { IfSome result
        (IsStepOf (name.now ∷ delivery.now ∷ buffer.now ∷ serial.now ∷ [])) }
    ensures none { IfNone result
        (¬ (name.now ≡ codes "send")
        → NoStep A (name.now ∷ delivery.now ∷ buffer.now ∷ serial.now ∷ [])) }
{
    if is_word(name, b"append") {
        return append_of(delivery, buffer, serial);
    }
    None
}

// The step of a line that begins with `send` and goes on with these words.
fn sent_step<A: Allocator + Copy>(alloc: A, fields: &[&[u8]]) -> Result<Option<Step<A>>, AllocError>
    ensures step { IfOk result
        (λ found. IfSome found (IsStepOf (codes "send" ∷ map (λ word. word.now) fields.now))) }
    ensures none { IfOk result
        (λ found. IfNone found (NoStep A (codes "send" ∷ map (λ word. word.now) fields.now))) }
{
    match fields {
        [client, tag, entries @ ..] => send_of(alloc, client, tag, entries),
        _ => Ok(None),
    }
}

// The step of a line that begins with this word, which isn't `send`, and goes on with these.
fn other_step<A: Allocator + Copy>(
    alloc: A,
    name: &[u8],
    fields: &[&[u8]],
) -> Result<Option<Step<A>>, AllocError>
    ensures step { IfOk result
        (λ found. IfSome found (IsStepOf (name.now ∷ map (λ word. word.now) fields.now))) }
    ensures none { IfOk result
        (λ found. IfNone found
        (¬ (name.now ≡ codes "send") → NoStep A (name.now ∷ map (λ word. word.now) fields.now))) }
{
    match fields {
        [word] => short_step(alloc, name, word),
        [first, second] => middle_step(alloc, name, first, second),
        [delivery, buffer, serial] => Ok(long_step(name, delivery, buffer, serial)),
        _ => Ok(None),
    }
}

// The step of a line of these words.
fn step_of<A: Allocator + Copy>(alloc: A, words: &[&[u8]]) -> Result<Option<Step<A>>, AllocError>
    ensures step { IfOk result
        (λ found. IfSome found (IsStepOf (map (λ word. word.now) words.now))) }
    ensures none { IfOk result
        (λ found. IfNone found (NoStep A (map (λ word. word.now) words.now))) }
{
    let Some((name, fields)) = words.split_first() else {
        return Ok(None);
    };
    if is_word(name, b"send") {
        return sent_step(alloc, fields);
    }
    other_step(alloc, name, fields)
}

// What a line says.
#[derive(Drop)]
enum Line<A: Allocator> {
    Step(Step<A>),
    Nothing,
    Bad,
}

// What the line says.
fn read_line<A: Allocator + Copy>(alloc: A, line: &[u8]) -> Result<Line<A>, AllocError>
    ensures { IfOk result (λ said. IsSaid line.now said) }
{
    if from_utf8(line).is_err() {
        return Ok(Line::Bad);
    }
    let words = words(alloc, line)?;
    if says_nothing(words.as_slice()) {
        return Ok(Line::Nothing);
    }
    match step_of(alloc, words.as_slice())? {
        Some(step) => Ok(Line::Step(step)),
        None => Ok(Line::Bad),
    }
}

// Whether a line of these words says nothing.
fn says_nothing(words: &[&[u8]]) -> bool
    ensures { IsTrue result ↔ SaysNothing (map (λ word. word.now) words.now) }
{
    match words.first() {
        Some(word) => word.first() == Some(&b'#'),
        None => true,
    }
}

impl<A: Allocator + Copy> Step<A> {
    ghost use Rattle.text_lines.specs.Lines.{text_lines};
    ghost use Rattle.step_lines.specs.StepLines.{SayAll, IsBadLine};

    /// Reads steps, one a line: the word of the step and its fields, parted by spaces and tabs.
    /// Lines end with LF, a CR before it is dropped. Empty lines and lines that begin with `#` say
    /// nothing. `BadLine` is the first line that says neither a step nor nothing: one of another
    /// form, or one that isn't UTF-8. The only other error is `Memory`.
    ///
    /// Entries are hex of at least one byte, in digits of either case. A tag has at most 1,024
    /// bytes, and a number is at most 18,446,744,073,709,551,615.
    pub fn read_all(alloc: A, text: &[u8]) -> Result<Vec<Step<A>, A>, StepsError>
        ensures steps { IfOk result (λ steps. SayAll (text_lines text.now) steps.items) }
        ensures bad_line { IfErr result (λ e. IsBadLine A text.now e) }
    {
        let lines = lines(alloc, text)?;
        let mut steps = Vec::new(alloc);
        for (at, line) in lines.iter().enumerate() {
            match read_line(alloc, line)? {
                Line::Step(step) => {
                    steps.reserve(1)?;
                    steps.push_reserved(step);
                }
                Line::Nothing => {}
                Line::Bad => return Err(StepsError::BadLine(at + 1)),
            }
        }
        Ok(steps)
    }
}
