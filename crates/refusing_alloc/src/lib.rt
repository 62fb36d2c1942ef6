//! An allocator that refuses requests when it is told to, for tests.
#![tactic(auto)]

ghost use Rattle.std.specs.Prelude.{◌≡◌};

use std::alloc::{AllocError, Allocator};
use std::cell::Cell;

/// What is refused: the request behind so many served ones, and those behind that one too unless it
/// is refused alone.
#[derive(Clone, Copy)]
struct Plan {
    // how many requests are served before one is refused
    left: u64,
    // whether the refused one is refused alone
    once: bool,
    // how many requests were refused since the plan was made
    refused: u64,
}

/// Serves and refuses requests as it was last told. Pass `&heap` where an allocator is taken: a `&`
/// to it is `Copy`.
///
/// A request is a block that is asked for, or one that is to grow or shrink. Blocks that are given
/// back are always taken.
pub struct Refusing<B: Allocator> {
    inner: B,
    plan: Cell<Plan>,
}

impl<B: Allocator> Refusing<B> {
    /// Serves each request, until it is told otherwise.
    pub fn new(inner: B) -> Refusing<B> {
        Refusing {
            inner,
            plan: Cell::new(Plan {
                left: u64::MAX,
                once: false,
                refused: 0,
            }),
        }
    }

    /// Serves so many requests from now on, and refuses each one behind them.
    pub fn refuse_after(&self, served: u64) {
        self.plan.set(Plan {
            left: served,
            once: false,
            refused: 0,
        });
    }

    /// Serves each request from now on but the one behind so many.
    pub fn refuse_once(&self, served: u64) {
        self.plan.set(Plan {
            left: served,
            once: true,
            refused: 0,
        });
    }

    /// Serves each request from now on.
    pub fn serve(&self) {
        self.refuse_after(u64::MAX);
    }

    /// How many requests were refused since it was last told.
    pub fn refused(&self) -> u64 {
        self.plan.get().refused
    }
}

impl<B: Allocator> Drop for Refusing<B> {
    fn drop(self) {
        let Self { inner: _, plan: _ } = self;
    }
}

// Whether the next request is refused. It goes by the plan.
fn refuses(plan: &Cell<Plan>) -> bool {
    let told = plan.get();
    if told.left > 0 {
        plan.set(Plan {
            left: told.left - 1,
            ..told
        });
        return false;
    }
    let left = if told.once { u64::MAX } else { 0 };
    plan.set(Plan {
        left,
        refused: told.refused.saturating_add(1),
        ..told
    });
    true
}

unsafe impl<B: Allocator> Allocator for Refusing<B> {
    ghost dealloc_token = { λ heap ty ptr. B.dealloc_token heap.inner ty ptr };

    fn allocate(&self, size: usize, align: usize) -> Result<*mut u8, AllocError> {
        if refuses(&self.plan) {
            return Err(AllocError);
        }
        self.inner.allocate(size, align)
    }

    unsafe fn deallocate(&self, ptr: *mut u8, size: usize, align: usize) {
        self.inner.deallocate(ptr, size, align);
    }
}
