//! Which chunks may be carried now.

ghost use Rattle.std.specs.Prelude.{◌≡◌, true};

/// Lets chunks through to be carried. Workers ask it again while it says no.
pub trait Gate {
    ghost use Rattle.std.specs.Prelude.{ℕ};

    /// What this gate's yes to a serial says. Of one that says nothing of it, nothing is known; but
    /// nobody else says it in its place.
    ghost lets: { Self → ℕ → Type 0 } = { λ _ _. Unit {0} };

    /// Whether the chunk of this serial may be carried now.
    fn pass(&self, serial: u64) -> bool
        ensures { result ≡ true → lets self.now serial };
}

/// A gate that always says yes.
#[derive(Clone, Copy)]
pub struct OpenGate;

impl Gate for OpenGate {
    fn pass(&self, _serial: u64) -> bool {
        true
    }
}

/// How often a worker asks for one chunk, before its delivery counts as failed.
const MOST_ASKED: u32 = 1_000_000;

/// Whether the gate says yes at one of the times that a worker asks.
pub(crate) fn passes<G: Gate>(gate: &G, serial: u64) -> bool
    ensures { result ≡ true → G.lets gate.now serial }
{
    for _ in 0..MOST_ASKED {
        if gate.pass(serial) {
            return true;
        }
    }
    false
}
