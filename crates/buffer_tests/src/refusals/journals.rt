//! Journals are replayed by pieces.

use crate::parts::{Alone, Part, in_memory};
use crate::refusals::told::Told;
use crate::refusals::trial::{Refuses, Trial, requests_behind};
use buffer_state::{Chunk, Chunks, Stage};
use chunk_journal::{Outline, Outlined, ReplayError};
use std::alloc::{AllocError, Allocator};
use std::mem::replace;
use std::process::Abort;

/// Three chunks, of which one is queued, a Seal of 9, two chunks more, an entry more, a queueing
/// and a removal.
pub static JOURNAL: &[u8] =
    b"\0\0\0\x13\x02\0\0\0\0\0\0\0\x00\0\x01a\0\0\0\x01\x92\x01\x80\0\0\0\x09\x03\0\0\0\0\0\0\0\0\0\0\0\x13\x02\0\0\0\0\0\0\0\x03\0\x01b\0\0\0\x01\x92\x02\x80\0\0\0\x13\x02\0\0\0\0\0\0\0\x05\0\x01c\0\0\0\x01\x92\x03\x80\0\0\0\x09\x01\0\0\0\0\0\0\0\x09\0\0\0\x13\x02\0\0\0\0\0\0\0\x09\0\x01d\0\0\0\x01\x92\x04\x80\0\0\0\x13\x02\0\0\0\0\0\0\0\x0a\0\x01e\0\0\0\x01\x92\x05\x80\0\0\0\x13\x02\0\0\0\0\0\0\0\x0a\0\x01e\0\0\0\x01\x92\x06\x80\0\0\0\x09\x03\0\0\0\0\0\0\0\x09\0\0\0\x09\x04\0\0\0\0\0\0\0\0";

// Fewer serials than this are there.
const SERIALS: u64 = 12;

fn tell_chunk<A: Allocator + Copy>(chunk: &Chunk<A>, told: &mut Told) {
    told.bytes(chunk.tag());
    told.number(chunk.count() as u64);
    told.number(u64::from(chunk.stage() == Stage::Queued));
}

/// Tells chunks, and the next serial.
pub fn tell_chunks<A: Allocator + Copy>(chunks: &Chunks<A>, told: &mut Told) {
    told.number(chunks.next());
    for serial in 0..SERIALS {
        if let Some(chunk) = chunks.chunk(serial) {
            told.number(serial);
            tell_chunk(chunk, told);
        }
    }
}

/// Tells why a journal isn't replayed. The error is want of memory.
pub fn fault_of(fault: ReplayError, told: &mut Told) -> Result<(), AllocError> {
    match fault {
        ReplayError::Memory => return Err(AllocError),
        ReplayError::NotSealed => told.number(11_111),
        ReplayError::BadRecord => told.number(22_222),
    }
    Ok(())
}

// A journal comes by pieces, so much of it, and all that is behind it is fed then; or it is
// finished behind few pieces.
#[derive(Clone, Copy)]
enum Outlining {
    Feed,
    Finish,
}

impl Outlining {
    // How long the pieces are.
    fn size(self) -> usize {
        match self {
            Outlining::Feed => 7,
            Outlining::Finish => 255,
        }
    }
}

// An outline, or what it gave.
#[derive(Drop)]
enum Drawn<A: Allocator> {
    Open(Outline<A>),
    Whole(Outlined<A>),
    Nothing,
}

fn feed<A: Allocator + Copy>(
    outline: &mut Outline<A>,
    piece: &[u8],
    told: &mut Told,
) -> Result<(), AllocError> {
    if outline.fed() > 10_000 || piece.len() > 10_000 {
        return Ok(());
    }
    match outline.feed(piece) {
        Ok(()) => Ok(()),
        Err(fault) => fault_of(fault, told),
    }
}

// Feeds the journal up to this place, by pieces of at most so many bytes, as far as memory reaches.
fn feed_front<A: Allocator + Copy>(
    outline: &mut Outline<A>,
    place: usize,
    size: usize,
) -> Result<(), AllocError> {
    let (front, _) = JOURNAL.split_at(place.min(JOURNAL.len()));
    for piece in front.chunks(size.max(1)) {
        if feed(outline, piece, &mut Told::new()).is_err() {
            return Err(AllocError);
        }
    }
    Ok(())
}

// What was fed so.
fn fed<A: Allocator + Copy>(heap: A, place: usize, size: usize) -> Option<Outline<A>> {
    let mut outline = Outline::new(heap);
    match feed_front(&mut outline, place, size) {
        Ok(()) => Some(outline),
        Err(AllocError) => None,
    }
}

fn finished<A: Allocator + Copy>(
    outline: Outline<A>,
    told: &mut Told,
) -> (Drawn<A>, Result<(), AllocError>) {
    match outline.finish() {
        Ok(outlined) => (Drawn::Whole(outlined), Ok(())),
        Err((fault, outline)) => (Drawn::Open(outline), fault_of(fault, told)),
    }
}

fn tell_outlined<A: Allocator + Copy>(outlined: &Outlined<A>, told: &mut Told) {
    tell_chunks(&outlined.chunks, told);
    told.number(outlined.used);
    for serial in 0..SERIALS {
        for extent in outlined.places.at(serial) {
            told.number(extent.at());
            told.number(extent.length());
        }
    }
}

// What is behind those that were fed.
fn feed_rest<A: Allocator + Copy>(
    outline: &mut Outline<A>,
    told: &mut Told,
) -> Result<(), AllocError> {
    let at = outline.fed().min(JOURNAL.len() as u64) as usize;
    feed(outline, JOURNAL.split_at(at).1, told)
}

// Feeds the rest, or finishes. What comes of it.
fn go_on<A: Allocator + Copy>(
    outline: Outline<A>,
    outlining: Outlining,
    told: &mut Told,
) -> (Drawn<A>, Result<(), AllocError>) {
    match outlining {
        Outlining::Feed => {
            let mut outline = outline;
            let answer = feed_rest(&mut outline, told);
            (Drawn::Open(outline), answer)
        }
        Outlining::Finish => finished(outline, told),
    }
}

impl<A: Allocator + Copy> Trial<A, Outlining> for Drawn<A> {
    fn made(heap: A, call: Outlining, behind: usize) -> Option<Self> {
        match fed(heap, behind, call.size()) {
            Some(outline) => Some(Drawn::Open(outline)),
            None => None,
        }
    }

    fn call(&mut self, call: Outlining, told: &mut Told) -> Result<(), AllocError> {
        let (left, answer) = match replace(self, Drawn::Nothing) {
            Drawn::Open(outline) => go_on(outline, call, told),
            other => (other, Ok(())),
        };
        *self = left;
        answer
    }

    fn show(&mut self, told: &mut Told) {
        match self {
            Drawn::Open(outline) => told.number(outline.fed()),
            Drawn::Whole(outlined) => tell_outlined(outlined, told),
            Drawn::Nothing => told.number(66_666),
        }
    }

    // The rest is fed, and what all of it means is told.
    fn close(self, told: &mut Told) {
        if let Drawn::Open(outline) = self {
            tell_whole(outline, told);
        }
    }
}

// Feeds the rest, and tells what all of it means.
fn tell_whole<A: Allocator + Copy>(outline: Outline<A>, told: &mut Told) {
    let mut outline = outline;
    let _ = feed_rest(&mut outline, told);
    if let Ok(outlined) = outline.finish() {
        tell_outlined(&outlined, told);
    }
}

// How much of the journal was fed before, by pieces.
static PLACES: [usize; 9] = [0, 7, 21, 42, 63, 84, 105, 140, 175];

// All of it.
static ALL: [usize; 1] = [190];

/// Feeds an outline from each of these places, and says whether finishing it asks for memory.
pub fn ask<R: Abort, H: Refuses>(rt: &R, heap: H) -> bool {
    let _ = requests_behind::<R, H, Outlining, Drawn<H>>(rt, heap, Outlining::Feed, &PLACES);
    requests_behind::<R, H, Outlining, Drawn<H>>(rt, heap, Outlining::Finish, &ALL) > 0
}

#[test]
fn outlines(rt: HostRuntime) {
    assert!(rt; in_memory(&rt, rt.alloc(), Part::Alone(Alone::Outlines)));
}
