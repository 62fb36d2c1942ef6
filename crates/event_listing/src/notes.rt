//! What is said of files beside their events.

ghost use Rattle.std.specs.Prelude.{◌≡◌, ℕ, List, string_bytes, IfOk, MatchResult};
ghost use Rattle.program_text.specs.Lines.{memory_line};
ghost use Rattle.program_text.specs.Output.{TakesPart};
ghost use Rattle.program_text.specs.declared.status.Status.TheVariants.{Usage};
ghost use Rattle.event_listing.specs.Notes.{damaged_journal_line, damaged_line, torn_journal_line, torn_line, unsealed_line, IsEndNote, IsJournalNote};

use crate::journal::JournalEnd;
use crate::sink::End;
use crate::stop::Stop;
use program_text::{Status, put_all};
use std::alloc::{AllocError, Allocator};
use std::io::Write;

/// Says what stands behind the events of the file of this name, if anything does. Where there is no
/// memory for it, that is said.
pub(crate) fn note_end<A: Allocator, V: Write>(alloc: A, name: &str, end: End, notes: &mut V)
    ensures { (text unseen : List ℕ) × IsEndNote name.now end text
        × TakesPart (V.contents notes.old) (V.contents notes.new) text unseen }
{
    match end {
        End::Ended { behind: 0, .. } => (),
        End::Ended { at, behind } => put_line(torn_line(alloc, name, at, behind), notes),
        End::Damaged { at } => put_line(damaged_line(alloc, name, at), notes),
    }
}

// The line of a file that has so many bytes behind its events.
fn torn_line<A: Allocator>(
    alloc: A,
    name: &str,
    at: u64,
    behind: usize,
) -> Result<String<A>, AllocError>
    ensures { IfOk result (λ line. string_bytes line ≡ torn_line name.now at behind) }
{
    format!(in alloc;
        "{name}: torn at byte {at}: {behind} bytes stand behind the last whole event\n"
    )
}

// The line of a file that is read no further.
fn damaged_line<A: Allocator>(alloc: A, name: &str, at: u64) -> Result<String<A>, AllocError>
    ensures { IfOk result (λ line. string_bytes line ≡ damaged_line name.now at) }
{
    format!(in alloc;
        "{name}: damaged at byte {at}: no event begins there, and what follows is not read\n"
    )
}

/// Says what is found at the end of the journal of this name, unless it is sealed and nothing
/// stands behind its records. Where there is no memory for it, that is said.
pub(crate) fn note_journal<A: Allocator, V: Write>(
    alloc: A,
    name: &str,
    end: JournalEnd,
    notes: &mut V,
)
    ensures { (text unseen : List ℕ) × IsJournalNote name.now end text
        × TakesPart (V.contents notes.old) (V.contents notes.new) text unseen }
{
    match end {
        JournalEnd::Sealed { behind: 0, .. } => (),
        JournalEnd::Sealed { at, behind } => {
            put_line(torn_journal_line(alloc, name, at, behind), notes)
        }
        JournalEnd::Unsealed => put_line(unsealed_line(alloc, name), notes),
        JournalEnd::Damaged => put_line(damaged_journal_line(alloc, name), notes),
    }
}

// The line of a journal that has so many bytes behind its records.
fn torn_journal_line<A: Allocator>(
    alloc: A,
    name: &str,
    at: u64,
    behind: u64,
) -> Result<String<A>, AllocError>
    ensures { IfOk result (λ line. string_bytes line ≡ torn_journal_line name.now at behind) }
{
    format!(in alloc;
        "{name}: torn at byte {at}: {behind} bytes stand behind the last whole record\n"
    )
}

// The line of a journal whose records end before a Seal.
fn unsealed_line<A: Allocator>(alloc: A, name: &str) -> Result<String<A>, AllocError>
    ensures { IfOk result (λ line. string_bytes line ≡ unsealed_line name.now) }
{
    format!(in alloc; "{name}: unsealed: a generation that was begun and isn't whole\n")
}

// The line of a journal that no buffer writes so.
fn damaged_journal_line<A: Allocator>(alloc: A, name: &str) -> Result<String<A>, AllocError>
    ensures { IfOk result (λ line. string_bytes line ≡ damaged_journal_line name.now) }
{
    format!(in alloc;
        "{name}: damaged: something stands there that no buffer writes, and none of its events is printed\n"
    )
}

/// Says that the file of this name isn't read to its end.
pub(crate) fn note_unread<A: Allocator, V: Write>(alloc: A, name: &str, notes: &mut V) {
    put_line(format!(in alloc; "{name}: not read to its end\n"), notes)
}

/// Says why nothing more is printed.
pub(crate) fn note_stop<V: Write>(stop: Stop, notes: &mut V) -> Status
    ensures { result ≡ Usage }
{
    match stop {
        Stop::Memory => put_note(notes, b"fault memory\n"),
        Stop::Read => put_note(notes, b"fault read\n"),
        Stop::Output => put_note(notes, b"fault output\n"),
    }
    Status::Usage
}

// Writes a line; where there was no memory for it, that is written.
fn put_line<A: Allocator, V: Write>(line: Result<String<A>, AllocError>, notes: &mut V)
    ensures { (text unseen : List ℕ)
        × MatchResult line (λ l. text ≡ string_bytes l) (λ _. text ≡ memory_line)
        × TakesPart (V.contents notes.old) (V.contents notes.new) text unseen }
{
    match line {
        Ok(line) => put_note(notes, line.as_bytes()),
        Err(AllocError) => put_note(notes, b"fault memory\n"),
    }
}

// Writes a line. There is nowhere to say that this fails.
fn put_note<V: Write>(notes: &mut V, line: &[u8])
    ensures { (unseen : List ℕ)
        × TakesPart (V.contents notes.old) (V.contents notes.new) line.now unseen }
{
    let _ = put_all(notes, line);
}
