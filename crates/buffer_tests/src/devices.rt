//! Folders that are made anew and stopped, and devices on which they fail.

use disk_files::{Dir, Fuse, Keep, MemoryDir};
use std::alloc::Allocator;

/// A folder that can be made anew.
pub trait NewDir<A: Allocator + Copy>: Dir + Drop {
    /// A folder with no files.
    fn made(alloc: A) -> Self;
}

impl<A: Allocator + Copy> NewDir<A> for MemoryDir<A> {
    fn made(alloc: A) -> Self {
        MemoryDir::new(alloc)
    }
}

/// A folder that can be stopped as by a loss of power, and can lie on a device that fails.
pub trait OnDevice<A: Allocator + Copy>: NewDir<A> {
    /// Such a folder on a device.
    type Device: Dir + Drop;

    /// This folder on a device that fails one call, the one behind so many.
    fn on_device(self, passes: u64) -> Self::Device;

    /// The folder that lies on a device.
    fn off_device(device: Self::Device) -> Self;

    /// What a stop leaves, which keeps so much.
    fn stopped(self, keep: Keep) -> Self;
}

impl<A: Allocator + Copy> OnDevice<A> for MemoryDir<A> {
    type Device = Fuse<MemoryDir<A>>;

    fn on_device(self, passes: u64) -> Fuse<MemoryDir<A>> {
        Fuse::once(self, passes)
    }

    fn off_device(device: Fuse<MemoryDir<A>>) -> Self {
        device.into_inner()
    }

    fn stopped(self, keep: Keep) -> Self {
        self.stop(keep)
    }
}
