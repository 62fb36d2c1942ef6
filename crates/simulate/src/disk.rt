//! A folder in memory that can be stopped, and whose device can fail.

use disk_files::{Dir, Fuse, Keep, MemoryDir};
use std::alloc::Global;

/// Which calls to a folder its device fails.
#[derive(Clone, Copy)]
pub enum Device {
    /// None.
    Sound,
    /// Each call behind so many.
    FailsAfter(u64),
    /// The call behind so many, and no other.
    FailsOnce(u64),
}

/// The devices of a relay's folders.
#[derive(Clone, Copy)]
pub struct Devices {
    /// Under each buffer.
    pub buffers: Device,
    /// Under each sink.
    pub sinks: Device,
}

impl Devices {
    /// None fails.
    pub const SOUND: Devices = Devices {
        buffers: Device::Sound,
        sinks: Device::Sound,
    };

    /// Only the one under each buffer may fail.
    pub fn under_buffers(buffers: Device) -> Devices {
        Devices {
            buffers,
            sinks: Device::Sound,
        }
    }

    /// Only the one under each sink may fail.
    pub fn under_sinks(sinks: Device) -> Devices {
        Devices {
            buffers: Device::Sound,
            sinks,
        }
    }

    /// Whether one may fail.
    pub fn may_fail(&self) -> bool {
        !matches!(self.buffers, Device::Sound) || !matches!(self.sinks, Device::Sound)
    }
}

/// What stops, and how much of a folder that keeps.
#[derive(Clone, Copy)]
pub enum Stop {
    /// The relay alone: what it wrote is there, and what wasn't synced still isn't.
    Relay,
    /// The machine with it, which keeps so much.
    Machine(Keep),
}

impl Stop {
    /// The same, with all that it keeps synced.
    pub fn settled(self) -> Stop {
        match self {
            Stop::Relay => Stop::Machine(Keep::Greatest),
            Stop::Machine(keep) => Stop::Machine(keep),
        }
    }
}

/// A folder of a machine that can stop.
pub trait Stoppable: Dir {
    /// An empty one.
    fn fresh(alloc: Global) -> Self;

    /// What is there when its machine stopped, which keeps so much of what wasn't synced.
    fn kept(self, keep: Keep) -> Self;
}

impl Stoppable for MemoryDir<Global> {
    fn fresh(alloc: Global) -> Self {
        MemoryDir::new(alloc)
    }

    fn kept(self, keep: Keep) -> Self {
        self.stop(keep)
    }
}

/// A folder that can be stopped, and whose device can fail.
pub trait Disk: Dir {
    /// An empty one, whose device doesn't fail.
    fn fresh(alloc: Global) -> Self;

    /// What a stop leaves, over a device that doesn't fail.
    fn stopped(self, stop: Stop) -> Self;

    /// The folder over this device.
    fn over(self, device: Device) -> Self;
}

impl<D: Stoppable + Drop> Disk for Fuse<D> {
    fn fresh(alloc: Global) -> Self {
        Fuse::after(D::fresh(alloc), u64::MAX)
    }

    fn stopped(self, stop: Stop) -> Self {
        let dir = self.into_inner();
        let left = match stop {
            Stop::Relay => dir,
            Stop::Machine(keep) => dir.kept(keep),
        };
        Fuse::after(left, u64::MAX)
    }

    fn over(self, device: Device) -> Self {
        match device {
            Device::Sound => self,
            Device::FailsAfter(passes) => Fuse::after(self.into_inner(), passes),
            Device::FailsOnce(passes) => Fuse::once(self.into_inner(), passes),
        }
    }
}
