//! The folders of a relay's buffers and sinks, which outlive its stops.

ghost use Rattle.std.specs.Prelude.{None};

use crate::disk::{Device, Stop};
use crate::lent::Lendable;
use loop_core::{Folders, PlacedDir};
use relay_conf::BufferKind;
use std::alloc::{AllocError, Global};
use std::cell::RefCell;

/// Where a folder is, and whose it is.
pub struct Named<D: Lendable> {
    name: Vec<u8>,
    home: D::Home,
}

impl<D: Lendable> Drop for Named<D> {
    fn drop(self) {
        let Named { name: _, home: _ } = self;
    }
}

/// The folders of a relay: those that nobody has are there.
pub struct Shelf<D: Lendable> {
    alloc: Global,
    homes: RefCell<Vec<Named<D>>>,
    // Over which each folder is that is taken.
    device: Device,
}

impl<D: Lendable> Drop for Shelf<D> {
    fn drop(self) {
        let Shelf {
            alloc: _,
            homes: _,
            device: _,
        } = self;
    }
}

impl<D: Lendable> Shelf<D> {
    /// No folders.
    pub fn new(alloc: Global) -> Shelf<D> {
        Shelf {
            alloc,
            homes: RefCell::new(Vec::new(alloc)),
            device: Device::Sound,
        }
    }

    /// Folders that are taken from now on are over such devices.
    pub fn set_device(&mut self, device: Device) {
        self.device = device;
    }

    /// Each folder that is there is what this stop leaves of it, over a device that doesn't fail.
    pub fn stop(&self, stop: Stop) {
        if let Ok(homes) = self.homes.try_borrow() {
            for named in homes.iter() {
                D::stop_at(&named.home, stop);
            }
        }
    }

    /// Takes the folder of this name, or an empty one. It comes back when it is let go.
    pub fn take(&self, name: &[u8]) -> Result<D, AllocError> {
        let home = match self.home_of(name)? {
            Some(home) => home,
            None => self.new_home(name)?,
        };
        Ok(D::lend(self.alloc, home, self.device))
    }

    // Where the folder of this name is; `None` where none was taken so far.
    fn home_of(&self, name: &[u8]) -> Result<Option<D::Home>, AllocError> {
        match self.homes.try_borrow() {
            Ok(homes) => home_in(&homes, name),
            Err(_) => Ok(None),
        }
    }

    // Where a folder of this name is from now on.
    fn new_home(&self, name: &[u8]) -> Result<D::Home, AllocError> {
        let home = D::new_home(self.alloc)?;
        self.keep(name, &home)?;
        Ok(home)
    }

    // A folder of this name is there from now on.
    fn keep(&self, name: &[u8], home: &D::Home) -> Result<(), AllocError> {
        let named = home_named(self.alloc, name, home)?;
        if let Ok(mut homes) = self.homes.try_borrow_mut() {
            homes.push(named)?;
        }
        Ok(())
    }
}

// Where a folder is, with its name.
fn home_named<D: Lendable>(
    alloc: Global,
    name: &[u8],
    home: &D::Home,
) -> Result<Named<D>, AllocError> {
    let name = Vec::from_slice(alloc, name)?;
    Ok(Named {
        name,
        home: D::share(home)?,
    })
}

// Where the folder of this name is among these.
fn home_in<D: Lendable>(homes: &[Named<D>], name: &[u8]) -> Result<Option<D::Home>, AllocError> {
    for named in homes {
        if named.name.as_slice() == name {
            return Ok(Some(D::share(&named.home)?));
        }
    }
    Ok(None)
}

impl<D: Lendable + Drop> Folders<D, Global> for Shelf<D> {
    ghost is_for = { λ folders kind dir. Unit {0} };

    ghost place = { λ folders kind. None };

    fn make_ready(&self) -> bool {
        true
    }

    fn folder_of(&self, kind: &BufferKind<Global>) -> Result<PlacedDir<D, Global>, AllocError> {
        let dir = match kind {
            BufferKind::Memory => D::lend(self.alloc, D::new_home(self.alloc)?, Device::Sound),
            BufferKind::File { path } => self.take(path.as_bytes())?,
        };
        Ok(PlacedDir { dir, path: None })
    }
}
