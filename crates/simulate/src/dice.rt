//! The choices of a run, all drawn from its seed.

ghost use Rattle.std.specs.Prelude.{◌≤◌};

use crate::disk::{Device, Devices, Stop};
use disk_files::Keep;
use rand_chacha::ChaCha20Rng;
use rand_core::{Rng, SeedableRng};

// An odd number, so that no two seeds have the same acts.
const ACT_STRIDE: u64 = 0x9e37_79b9_7f4a_7c15;

/// Where choices come from.
#[derive(Drop)]
pub struct Dice {
    rng: ChaCha20Rng,
}

impl Dice {
    /// The choices of this seed.
    pub fn new(seed: u64) -> Dice {
        Dice {
            rng: ChaCha20Rng::seed_from_u64(seed),
        }
    }

    /// The choices of one act of the run of this seed: no other act's depend on them.
    pub fn of_act(seed: u64, act: u64) -> Dice {
        Dice::new(seed.wrapping_mul(ACT_STRIDE).wrapping_add(act))
    }

    /// A number below this one, or 0 where none is.
    pub fn below(&mut self, end: usize) -> usize
        ensures { result ≤ end }
    {
        if end == 0 {
            return 0;
        }
        (self.rng.next_u64() % end as u64) as usize
    }

    /// Whether what happens once in so many times happens.
    pub fn once_in(&mut self, times: usize) -> bool {
        self.below(times) == 0
    }

    /// What stops with a relay, and how much that keeps.
    pub fn stop(&mut self) -> Stop {
        match self.below(4) {
            0 => Stop::Relay,
            1 => Stop::Machine(Keep::Least),
            2 => Stop::Machine(Keep::Greatest),
            _ => {
                let count = self.below(600);
                Stop::Machine(Keep::Last(count))
            }
        }
    }

    /// Devices for a relay: at times those of its buffers may fail, or those of its sinks.
    pub fn devices(&mut self) -> Devices {
        match self.below(4) {
            0 => Devices::under_buffers(self.failing(60)),
            1 => Devices::under_sinks(self.failing(20)),
            _ => Devices::SOUND,
        }
    }

    /// Devices that fail early, under buffers or under sinks.
    pub fn early_devices(&mut self) -> Devices {
        if self.once_in(4) {
            return Devices::under_sinks(self.failing(6));
        }
        Devices::under_buffers(self.failing(20))
    }

    // A device that fails all calls, or one, behind fewer than these.
    fn failing(&mut self, calls: usize) -> Device {
        let passes = self.below(calls) as u64;
        if self.once_in(2) {
            Device::FailsAfter(passes)
        } else {
            Device::FailsOnce(passes)
        }
    }
}
