//! A buffer in a folder of the system: entries are appended, listed and staged; and one in memory,
//! whose chunks are queued.

use crate::puts::put;
use buffer_state::Limits;
use buffer_store::{Buffer, BufferFault, RENEWED_PAST_IN_FILES, Settings};
use disk_files::{Dir, MemoryDir, RealDir};
use event_modes::Entries;
use std::alloc::{AllocError, Allocator};
use std::io::Print;

// A stored entry is an array of two, an unsigned time of eight bytes and an empty map.
const ENTRY_LEN: u32 = 11;

// Each chunk gets so many entries before it is queued.
const QUEUED_AT: u64 = 8;

const TAG: &[u8] = b"trial";

// A chunk takes so many bytes of entries at most.
const IN_FILES: Settings = Settings {
    limits: Limits {
        chunk: 262_144,
        total: 2_147_483_648,
    },
    renewed_past: RENEWED_PAST_IN_FILES,
};

// A chunk takes one entry.
const IN_MEMORY: Settings = Settings {
    limits: Limits {
        chunk: ENTRY_LEN as u64,
        total: u64::MAX,
    },
    renewed_past: u64::MAX,
};

// What is done with a buffer.
#[derive(Clone, Copy)]
enum Word {
    Append,
    List,
    Fill,
    Churn,
    Open,
    Renew,
    Queue,
}

// Each word for a buffer in a folder, and how many counts are given behind the folder.
static WORDS: [(&str, usize, Word); 6] = [
    ("append", 0, Word::Append),
    ("list", 0, Word::List),
    ("fill", 3, Word::Fill),
    ("churn", 2, Word::Churn),
    ("open", 0, Word::Open),
    ("renew", 0, Word::Renew),
];

// How many entries, of how many bytes each, and how many for one sync; what isn't given is 0.
#[derive(Clone, Copy)]
struct Counts {
    count: u32,
    size: u32,
    each: u32,
}

// The entry of this number.
fn numbered<A: Allocator + Copy>(alloc: A, number: u64) -> Result<Option<Entries<A>>, AllocError> {
    let [a, b, c, d, e, f, g, h] = number.to_be_bytes();
    Entries::read(alloc, &[0x92, 0xcf, a, b, c, d, e, f, g, h, 0x80], 1)
}

// An entry of so many bytes, or a few more: time 0, and a record with one value.
fn sized<A: Allocator + Copy>(alloc: A, size: u32) -> Result<Option<Entries<A>>, AllocError> {
    let content = size.saturating_sub(10);
    let [a, b, c, d] = content.to_be_bytes();
    let mut bytes = Vec::from_slice(alloc, &[0x92, 0, 0x81, 0xa1, b'k', 0xc6, a, b, c, d])?;
    bytes.resize(10 + content as usize, 0)?;
    Entries::read(alloc, &bytes, 1)
}

// Appends the entry of this number, and queues its chunk where it is the last of some.
fn append<R: Print, A: Allocator + Copy, D: Dir>(
    rt: &R,
    alloc: A,
    buffer: &mut Buffer<D, A>,
    number: u64,
) -> bool {
    let Ok(Some(entries)) = numbered(alloc, number) else {
        return false;
    };
    let Ok(serial) = put(buffer, TAG, &entries, true) else {
        return false;
    };
    println!(rt; "{number}").is_ok()
        && (number % QUEUED_AT != QUEUED_AT - 1 || buffer.enqueue(serial).is_ok())
}

// Appends entries, from the number behind the last one on: as none is ever purged, there are as
// many as have numbers before it.
fn append_all<R: Print, A: Allocator + Copy, D: Dir>(
    rt: &R,
    alloc: A,
    buffer: &mut Buffer<D, A>,
) -> bool {
    let Ok(first) = u64::try_from(buffer.chunks().total() / u128::from(ENTRY_LEN)) else {
        return false;
    };
    for number in first..u64::MAX {
        if !append(rt, alloc, buffer, number) {
            return false;
        }
    }
    true
}

// Prints the numbers of these entries.
fn print_numbers<R: Print>(rt: &R, bytes: &[u8]) -> bool {
    for entry in bytes.chunks_exact(ENTRY_LEN as usize) {
        if let [0x92, 0xcf, a, b, c, d, e, f, g, h, 0x80] = entry {
            let number = u64::from_be_bytes([*a, *b, *c, *d, *e, *f, *g, *h]);
            if println!(rt; "{number}").is_err() {
                return false;
            }
        }
    }
    true
}

// Prints those of the chunk of this serial, if it is live.
fn print_chunk<R: Print, A: Allocator + Copy, D: Dir>(
    rt: &R,
    buffer: &mut Buffer<D, A>,
    serial: u64,
) -> bool {
    match buffer.body(serial) {
        Ok(entries) => print_numbers(rt, entries.as_bytes()),
        Err(fault) => fault == BufferFault::Gone,
    }
}

fn list<R: Print, A: Allocator + Copy, D: Dir>(rt: &R, buffer: &mut Buffer<D, A>) -> bool {
    for serial in 0..buffer.chunks().next_serial() {
        if !print_chunk(rt, buffer, serial) {
            return false;
        }
    }
    true
}

// Appends these entries, and queues, claims and purges their chunk.
fn deliver<A: Allocator + Copy, D: Dir>(buffer: &mut Buffer<D, A>, entries: &Entries<A>) -> bool {
    let Ok(serial) = put(buffer, TAG, entries, true) else {
        return false;
    };
    if buffer.enqueue(serial).is_err() {
        return false;
    }
    match buffer.claim() {
        Some(claimed) => buffer.purge(claimed).is_ok(),
        None => false,
    }
}

// Appends entries as said, of which each last one of some is synced with those before it, or each
// is delivered at once.
fn put_all<A: Allocator + Copy, D: Dir>(
    alloc: A,
    buffer: &mut Buffer<D, A>,
    counts: Counts,
    is_delivered: bool,
) -> bool {
    let Ok(Some(entries)) = sized(alloc, counts.size) else {
        return false;
    };
    let each = counts.each.max(1);
    for number in 0..counts.count {
        let is_put = if is_delivered {
            deliver(buffer, &entries)
        } else {
            put(buffer, TAG, &entries, number % each == each - 1).is_ok()
        };
        if !is_put {
            return false;
        }
    }
    true
}

// Stages so many entries, each in a chunk of its own, and queues the chunks.
fn queue_all<A: Allocator + Copy, D: Dir>(alloc: A, buffer: &mut Buffer<D, A>, count: u32) -> bool {
    let counts = Counts {
        count,
        size: ENTRY_LEN,
        each: u32::MAX,
    };
    if !put_all(alloc, buffer, counts, false) {
        return false;
    }
    for serial in 0..u64::from(count) {
        if buffer.enqueue(serial).is_err() {
            return false;
        }
    }
    true
}

// Prints how many bytes of entries the live chunks have.
fn total<R: Print, A: Allocator + Copy, D: Dir>(rt: &R, buffer: &Buffer<D, A>) -> bool {
    println!(rt; "{}", buffer.chunks().total()).is_ok()
}

// The serial of the first live chunk, or the next one.
fn first<A: Allocator + Copy, D: Dir>(buffer: &Buffer<D, A>) -> u64 {
    match buffer.chunks().iter().next() {
        Some(facts) => facts.serial,
        None => buffer.chunks().next_serial(),
    }
}

// Prints how many entries the first chunk has.
fn print_first<R: Print, A: Allocator + Copy, D: Dir>(rt: &R, buffer: &mut Buffer<D, A>) -> bool {
    match buffer.body(first(buffer)) {
        Ok(entries) => println!(rt; "{}", entries.count()).is_ok(),
        Err(_) => false,
    }
}

// The word at this place as a count, or 0 where there is none.
fn count_at(words: &[String], place: usize) -> Option<u32> {
    match words.get(place) {
        Some(word) => word.parse().ok(),
        None => Some(0),
    }
}

// These words as counts, if they are so many.
fn counts_of(words: &[String], wanted: usize) -> Option<Counts> {
    if words.len() != wanted {
        return None;
    }
    Some(Counts {
        count: count_at(words, 0)?,
        size: count_at(words, 1)?,
        each: count_at(words, 2)?,
    })
}

// The word of this name, and its counts.
fn asked(name: &str, words: &[String]) -> Option<(Word, Counts)> {
    for (known, wanted, word) in &WORDS {
        if *known == name {
            return Some((*word, counts_of(words, *wanted)?));
        }
    }
    None
}

// Does with the buffer what the word says: whether all went well.
fn act<R: Print, A: Allocator + Copy, D: Dir>(
    rt: &R,
    alloc: A,
    buffer: &mut Buffer<D, A>,
    word: Word,
    counts: Counts,
) -> bool {
    match word {
        Word::Append => append_all(rt, alloc, buffer),
        Word::List => list(rt, buffer),
        Word::Fill => put_all(alloc, buffer, counts, false),
        Word::Churn => put_all(alloc, buffer, counts, true),
        Word::Open => total(rt, buffer),
        Word::Renew => buffer.renew().is_ok() && print_first(rt, buffer),
        Word::Queue => queue_all(alloc, buffer, counts.count),
    }
}

// The same with the buffer in this folder.
fn act_in<R: Print, A: Allocator + Copy, D: Dir + Drop>(
    rt: &R,
    alloc: A,
    dir: D,
    settings: Settings,
    word: Word,
    counts: Counts,
) -> bool {
    match Buffer::open(alloc, dir, TAG, settings) {
        Ok(mut buffer) => {
            let is_well = act(rt, alloc, &mut buffer, word, counts);
            drop(buffer.into_dir());
            is_well
        }
        Err((fault, _)) => {
            let _ = println!(rt; "fault {fault}");
            false
        }
    }
}

// What becomes of a word on the buffer in the folder of this path.
fn in_folder(rt: &HostRuntime, name: &str, folder: &str, words: &[String]) -> Option<bool> {
    let (word, counts) = asked(name, words)?;
    match RealDir::new(rt, rt.alloc(), folder) {
        Ok(dir) => Some(act_in(rt, rt.alloc(), dir, IN_FILES, word, counts)),
        Err(_) => Some(false),
    }
}

// The same of the word `queue`, on a buffer in memory.
fn in_memory(rt: &HostRuntime, words: &[String]) -> Option<bool> {
    let counts = counts_of(words, 1)?;
    let dir = MemoryDir::new(rt.alloc());
    Some(act_in(rt, rt.alloc(), dir, IN_MEMORY, Word::Queue, counts))
}

/// What becomes of these words: whether all went well, if they ask for something.
pub fn answer(rt: &HostRuntime, words: &[String]) -> Option<bool> {
    match words {
        [name, rest @ ..] if name.as_str() == "queue" => in_memory(rt, rest),
        [name, folder, rest @ ..] => in_folder(rt, name, folder, rest),
        _ => None,
    }
}
