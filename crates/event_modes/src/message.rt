//! What a message says.

ghost use Rattle.std.specs.Prelude.{ℕ, List, Some, ◌≡◌, [], ◌∷◌, ◌++◌, length, IfOk, IfSome, OnOk, OnErr};
ghost use Rattle.std.specs.List.{concat, AllByRecursion};
ghost use Rattle.event_modes.specs.Entry.{entry_header, stored_entry};
ghost use Rattle.event_modes.specs.Rows.{IsStored, AreEntries};

use crate::entries::are_stored;
use crate::entry::ENTRY_HEADER;
use crate::fault::ModeFault;
use crate::items::Items;
use std::alloc::{AllocError, Allocator};
use std::marker::Model;

/// Stored entries one after another, each `92`, the time's bytes and the record's bytes.
/// Contracts see the list of them.
#[derive(Drop)]
pub struct Entries<A: Allocator> {
    bytes: Vec<u8, A>,
    count: usize,
}

impl<A: Allocator> Model for Entries<A> {
    ghost use Rattle.std.specs.Prelude.{List, ℕ};
    ghost use Rattle.event_modes.specs.Rows.{items_of, AreStored};

    ghost Value = { List (List ℕ) };

    ghost view = { λ e. items_of e.count e.bytes.items };

    ghost invariant = { λ e. AreStored e.count e.bytes.items };
}

impl<A: Allocator> Entries<A> {
    /// No entries.
    pub fn new(alloc: A) -> Self
        ensures { result ≡ [] }
    {
        Entries {
            bytes: Vec::new(alloc),
            count: 0,
        }
    }

    /// The entries that these bytes are, if they are so many stored entries and nothing else.
    pub fn read(alloc: A, bytes: &[u8], count: usize) -> Result<Option<Self>, AllocError>
        ensures found { IfOk result
            (λ read. IfSome read (λ entries. AreEntries entries count bytes.now)) }
        ensures only { (entries : List (List ℕ)) → AreEntries entries count bytes.now
            → IfOk result (λ read. read ≡ Some entries) }
    {
        if !are_stored(bytes, count) {
            return Ok(None);
        }
        let bytes = Vec::from_slice(alloc, bytes)?;
        Ok(Some(Entries { bytes, count }))
    }

    /// How many there are.
    pub fn count(&self) -> usize
        ensures { result ≡ length self.now }
    {
        self.count
    }

    /// All of them, one after another.
    pub fn as_bytes(&self) -> &[u8]
        ensures all { result.now ≡ concat self.now }
        ensures stored { AllByRecursion IsStored self.now }
    {
        &self.bytes
    }

    /// Each of them, in order.
    pub fn iter(&self) -> Items<'_>
        ensures all { result ≡ self.now }
        ensures stored { AllByRecursion IsStored self.now }
    {
        Items::new(&self.bytes, self.count)
    }

    /// Adds the entries of another list behind these.
    ///
    /// The error is want of memory, and leaves these as they were.
    pub fn append<B: Allocator>(&mut self, others: &Entries<B>) -> Result<(), AllocError>
        ensures ok { OnOk result (self.new ≡ self.old ++ others.now) }
        ensures err { OnErr result (self.new ≡ self.old) }
    {
        self.bytes.extend_from_slice(&others.bytes)?;
        self.count += others.count;
        Ok(())
    }

    /// One alone, whose time and record these are, one behind the other.
    pub(crate) fn of_event(alloc: A, event: &[u8]) -> Result<Self, AllocError>
        requires { IsStored (entry_header ∷ event.now) }
        ensures { IfOk result (λ entries. entries ≡ (entry_header ∷ event.now) ∷ []) }
    {
        let mut bytes = Vec::with_capacity(alloc, 1 + event.len())?;
        bytes.push_reserved(ENTRY_HEADER);
        bytes.extend_from_slice(event)?;
        Ok(Entries { bytes, count: 1 })
    }

    /// One more, as it is stored. An `Err` leaves it out.
    pub(crate) fn push_stored(&mut self, entry: &[u8]) -> Result<(), AllocError>
        requires { IsStored entry.now }
        ensures ok { OnOk result (self.new ≡ self.old ++ entry.now ∷ []) }
        ensures err { OnErr result (self.new ≡ self.old) }
    {
        self.bytes.extend_from_slice(entry)?;
        self.count += 1;
        Ok(())
    }

    /// One more, which an `Err` leaves out.
    pub(crate) fn push(&mut self, time: &[u8], fields: &[u8]) -> Result<(), AllocError>
        requires { IsStored (stored_entry time.now fields.now) }
        ensures ok { OnOk result (self.new ≡ self.old ++ stored_entry time.now fields.now ∷ []) }
        ensures err { OnErr result (self.new ≡ self.old) }
    {
        self.bytes.reserve(1 + time.len() + fields.len())?;
        self.bytes.push_reserved(ENTRY_HEADER);
        self.bytes.extend_from_slice(time)?;
        self.bytes.extend_from_slice(fields)?;
        self.count += 1;
        Ok(())
    }
}

/// A message, whichever mode it came in.
#[derive(Drop)]
pub struct Message<A: Allocator> {
    /// The content of the tag, at most 1,024 bytes.
    pub tag: Vec<u8, A>,
    pub entries: Entries<A>,
    /// The item that an acknowledgement has to repeat, if the sender asked for one.
    pub ack: Option<Vec<u8, A>>,
}

/// What bytes begin with; the numbers are how many of the bytes it takes.
#[derive(Drop)]
pub enum Read<A: Allocator> {
    Message(Message<A>, usize),
    /// A nil, which only keeps the connection alive.
    Heartbeat(usize),
    /// Nothing that is whole, and bytes that follow can make it so.
    Need,
    /// Neither, whatever follows.
    Bad(ModeFault),
}
