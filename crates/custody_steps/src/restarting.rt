//! The buffers of a relay that stops and starts again.

ghost use Rattle.std.specs.Prelude.{◌≡◌, ℕ};
ghost use Rattle.custody_store.specs.Places.{closed_at};
ghost use Rattle.custody_steps.specs.Restarts.{AreRestarted};

use custody_store::Places;
use relay_net::Net;
use std::alloc::Allocator;

/// Each buffer of the relay at this place starts again: those in memory are empty then.
pub(crate) fn restart_buffers<A: Allocator + Copy>(
    net: &Net<A>,
    places: &mut Places<A>,
    place: usize,
)
    ensures contents { AreRestarted net.now places.old places.new place }
    ensures closed { (p : ℕ) → closed_at places.new p ≡ closed_at places.old p }
{
    let count = places.count(place);
    for buffer in 0..count {
        let in_memory = net.is_in_memory(place, buffer);
        places.restart(place, buffer, in_memory);
    }
}
