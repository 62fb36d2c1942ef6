//! What the loop has of a relay's open outputs, and what its flush threads have.

ghost use Rattle.std.specs.Prelude.{◌≡◌, None, map, IfOk};
ghost use Rattle.std.specs.Arc.{arc_value};

use crate::job::DeliveryJob;
use crate::opening::OpenOutput;
use crate::{Lane, Lanes};
use ack_receipt::SharedBuffer;
use disk_files::Dir;
use std::alloc::{AllocError, Allocator};
use std::sync::Arc;

/// The buffers of a relay, each in three places: as the loop uses it, in a list that can be looked
/// at, and with its output for whoever delivers its chunks.
pub struct RelayParts<D: Dir + Drop, A: Allocator> {
    pub lanes: Lanes<D, A>,
    pub buffers: Vec<Arc<SharedBuffer<D, A>, A>, A>,
    pub jobs: Vec<DeliveryJob<D, A>, A>,
}

/// Gives each open output to the loop and to its threads, in their order. The error is want of
/// memory.
pub fn parts_of<D: Dir + Drop, A: Allocator + Copy>(
    alloc: A,
    opened: Vec<OpenOutput<D, A>, A>,
) -> Result<RelayParts<D, A>, AllocError>
    ensures buffers { IfOk result
        (λ parts. map (λ buffer. arc_value buffer) parts.buffers.items
        ≡ map (λ one. one.owned.terms) opened.items) }
    ensures jobs { IfOk result (λ parts. parts.jobs.items ≡ map (λ one. one.owned) opened.items) }
    ensures terms { IfOk result
        (λ parts. parts.lanes.terms ≡ map (λ one. one.owned.terms) opened.items) }
    ensures plans { IfOk result (λ parts. parts.lanes.plans ≡ map (λ one. one.plan) opened.items) }
    ensures fault { IfOk result (λ parts. parts.lanes.fault ≡ None) }
{
    let buffers = shares_of(alloc, &opened)?;
    let mut jobs = Vec::with_capacity(alloc, opened.len())?;
    let mut lanes = Lanes::with_capacity(alloc, opened.len())?;
    let mut rest = opened.into_iter();
    while let Some(each) = rest.next() {
        let OpenOutput {
            job,
            share,
            schedule,
        } = each;
        lanes.add(Lane::new(alloc, share.into_buffer(), schedule));
        jobs.push_reserved(job);
    }
    Ok(RelayParts {
        lanes,
        buffers,
        jobs,
    })
}

// A share of each buffer, in their order.
fn shares_of<D: Dir + Drop, A: Allocator + Copy>(
    alloc: A,
    opened: &[OpenOutput<D, A>],
) -> Result<Vec<Arc<SharedBuffer<D, A>, A>, A>, AllocError>
    ensures { IfOk result
        (λ shares. map (λ buffer. arc_value buffer) shares.items
        ≡ map (λ one. one.owned.terms) opened.now) }
{
    let mut shares = Vec::with_capacity(alloc, opened.len())?;
    for one in opened {
        shares.push(Arc::try_clone(one.share.buffer())?)?;
    }
    Ok(shares)
}
