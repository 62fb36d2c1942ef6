//! A relay's configuration, as a text that is read.

ghost use Rattle.std.specs.Prelude.{IfOk, IfErr};
ghost use Rattle.relay_conf.specs.Buffers.{HaveOwnBuffers};
ghost use Rattle.plan_lines.specs.Plans.{IsRelayOfText};
ghost use Rattle.program_text.specs.Stops.{IsRelayRead, IsConfStop, IsTextStop};

use crate::{CountedRead, ReadFault, read_whole};
use conf_text::{ConfError, ConfFault};
use relay_conf::{Relay, RelayError, RelayFault};
use std::alloc::Allocator;

/// Why a configuration isn't read.
#[derive(Clone, Copy, PartialEq, Eq)]
pub enum ConfStop {
    /// Its text has this fault.
    Text(ConfFault),
    /// What it says has this fault.
    Relay(RelayFault),
    /// The text isn't read, or what it needs isn't there.
    Unread(ReadFault),
}

impl From<ReadFault> for ConfStop {
    ghost use Rattle.std.specs.Prelude.{◌≡◌};
    ghost use Rattle.program_text.specs.declared.relay_text.ConfStop.TheVariants.{Unread};

    ghost from_gives = { λ fault stop. stop ≡ Unread fault };

    fn from(fault: ReadFault) -> ConfStop {
        ConfStop::Unread(fault)
    }
}

/// The relay that the text describes, each of whose buffers is that of one output. Else the first
/// fault of the text, or of what it says; or the text isn't read.
pub fn read_relay<A: Allocator + Copy, R: CountedRead>(
    alloc: A,
    input: &mut R,
) -> Result<Relay<A>, ConfStop>
    ensures relay { IfOk result (IsRelayRead (R.remaining input.old)) }
    ensures own_buffers { IfOk result (λ relay. HaveOwnBuffers relay) }
    ensures stop { IfErr result (IsConfStop (R.remaining input.old)) }
{
    let text = read_whole(alloc, input)?;
    relay_of_text(alloc, &text)
}

// The relay that this text describes.
fn relay_of_text<A: Allocator + Copy>(alloc: A, text: &[u8]) -> Result<Relay<A>, ConfStop>
    ensures relay { IfOk result (IsRelayOfText text.now) }
    ensures own_buffers { IfOk result (λ relay. HaveOwnBuffers relay) }
    ensures stop { IfErr result (IsTextStop text.now) }
{
    let elements = match conf_text::read(alloc, text) {
        Ok(elements) => elements,
        Err(ConfError::Memory) => return Err(ConfStop::Unread(ReadFault::Memory)),
        Err(ConfError::Fault(fault)) => return Err(ConfStop::Text(fault)),
    };
    match Relay::read(alloc, &elements) {
        Ok(relay) => Ok(relay),
        Err(RelayError::Memory) => Err(ConfStop::Unread(ReadFault::Memory)),
        Err(RelayError::Fault(fault)) => Err(ConfStop::Relay(fault)),
    }
}
