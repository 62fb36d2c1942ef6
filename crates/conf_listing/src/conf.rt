//! One configuration is adapted.

ghost use Rattle.std.specs.Prelude.{◌≡◌, map, string_bytes, IfOk, IfErr};
ghost use Rattle.conf_text.specs.Grammar.{IsConfiguration};
ghost use Rattle.conf_text.specs.Views.{tree_of};
ghost use Rattle.program_text.specs.Stops.{IsTextStop};
ghost use Rattle.conf_listing.specs.Answers.{IsStopTo};
ghost use Rattle.conf_listing.specs.Confs.{IsAdaptedConf};

use crate::draft::draft_of;
use crate::mark::behind_mark;
use crate::outcome::{AdaptedConf, ConfText};
use crate::reading_back::read_back;
use conf_text::{ConfError, Element};
use program_text::{ConfStop, ReadFault};
use std::alloc::{AllocError, Allocator};

/// What becomes of a configuration as it runs in Fluentd: a text that a relay reads, where all that
/// changes what the relay does is accepted, by a name among these words; else the lines that say
/// what isn't, or the fault, as `relayctl adapt` prints them.
pub fn adapt_conf<A: Allocator + Copy, B: Allocator>(
    alloc: A,
    text: &[u8],
    accepted: &[String<B>],
) -> Result<AdaptedConf<A>, AllocError>
    ensures { IfOk result (IsAdaptedConf A text.now (map string_bytes accepted.now)) }
{
    match adapt_text(alloc, text, accepted) {
        Ok(found) => Ok(found),
        Err(ConfStop::Text(fault)) => Ok(AdaptedConf::Faulty(ConfStop::Text(fault))),
        Err(ConfStop::Relay(fault)) => Ok(AdaptedConf::Faulty(ConfStop::Relay(fault))),
        Err(ConfStop::Unread(_)) => Err(AllocError),
    }
}

// The same, with a fault as an error.
fn adapt_text<A: Allocator + Copy, B: Allocator>(
    alloc: A,
    text: &[u8],
    accepted: &[String<B>],
) -> Result<AdaptedConf<A>, ConfStop>
    ensures found { IfOk result (IsAdaptedConf A text.now (map string_bytes accepted.now)) }
    ensures stop { IfErr result (IsStopTo A text.now (map string_bytes accepted.now)) }
{
    let rest = behind_mark(text);
    let elements = elements(alloc, rest)?;
    let drafted = draft_of(alloc, &elements, rest.len() < text.len(), accepted)?;
    if !drafted.is_accepted {
        return Ok(AdaptedConf::Undecided(ConfText {
            text: drafted.lines,
            rows: drafted.adapted,
        }));
    }
    let _relay = read_back(alloc, &drafted.adapted, &drafted.lines)?;
    Ok(AdaptedConf::Text(ConfText {
        text: drafted.lines,
        rows: drafted.adapted,
    }))
}

// The elements of a text.
fn elements<A: Allocator + Copy>(alloc: A, text: &[u8]) -> Result<Vec<Element<A>, A>, ConfStop>
    ensures found { IfOk result (λ found. IsConfiguration text.now (map tree_of found.items)) }
    ensures stop { IfErr result (IsTextStop text.now) }
{
    match conf_text::read(alloc, text) {
        Ok(found) => Ok(found),
        Err(ConfError::Memory) => Err(ConfStop::Unread(ReadFault::Memory)),
        Err(ConfError::Fault(fault)) => Err(ConfStop::Text(fault)),
    }
}
