//! One event, from its time and its record.

ghost use Rattle.std.specs.Prelude.{◌≡◌, ℕ, List, [], ◌∷◌, MatchResult, MatchOption, IfOk};
ghost use Rattle.msgpack_bytes.specs.Item.{IsItemWithin};
ghost use Rattle.msgpack_bytes.specs.Containers.{IsArray};
ghost use Rattle.event_modes.specs.Entry.{IsTime, IsRecord, IsEntry, stored_entry};
ghost use Rattle.event_modes.specs.Faults.{EventFault, EntryFault};

use crate::fault::ModeFault;
use crate::item::{array_of, is_record, is_time};

/// The byte that a stored entry begins with: the header of an array of two.
pub const ENTRY_HEADER: u8 = 0x92;

/// A time and a record, as they are spelled.
#[derive(Clone, Copy)]
pub struct Event<'a> {
    pub time: &'a [u8],
    pub fields: &'a [u8],
}

/// The event of this time and this record.
pub fn event_of<'a>(time: &'a [u8], fields: &'a [u8]) -> Result<Event<'a>, ModeFault>
    requires time { IsItemWithin time.now }
    requires fields { IsItemWithin fields.now }
    ensures same { IfOk result
        (λ event. (event.time.now ≡ time.now) × (event.fields.now ≡ fields.now)) }
    ensures event { MatchResult result
        (λ event. IsTime time.now × IsRecord fields.now) (EventFault time.now fields.now) }
{
    if !is_time(time) {
        return Err(ModeFault::BadTime);
    }
    if !is_record(fields) {
        return Err(ModeFault::BadRecord);
    }
    Ok(Event { time, fields })
}

/// The event of an entry.
pub fn entry_of(entry: &[u8]) -> Result<Event<'_>, ModeFault>
    requires { IsItemWithin entry.now }
    ensures { MatchResult result
        (λ event. IsEntry entry.now (stored_entry event.time.now event.fields.now))
        (EntryFault entry.now) }
{
    let Some((time, fields)) = pair_of(entry) else {
        return Err(ModeFault::BadEntry);
    };
    event_of(time, fields)
}

// The elements of an array of two.
fn pair_of(entry: &[u8]) -> Option<(&[u8], &[u8])>
    requires { IsItemWithin entry.now }
    ensures { MatchOption result
        ((time fields : List ℕ) → IsArray (time ∷ fields ∷ []) entry.now → ⊥)
        (λ found. IsArray (found.0.now ∷ found.1.now ∷ []) entry.now × IsItemWithin found.0.now
        × IsItemWithin found.1.now) }
{
    let mut items = array_of(entry)?;
    let time = items.next()?;
    let fields = items.next()?;
    if items.len() > 0 {
        return None;
    }
    Some((time, fields))
}
