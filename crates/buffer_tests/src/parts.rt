//! What is tried over a folder in memory, so that one function alone names that folder and the
//! allocator that refuses.

use crate::devices::{NewDir, OnDevice};
use crate::refusals::trial::{Heap, Refuses};
use crate::refusals::{
    buffers, deliveries, folders, handshakes, journals, putting, reading, shared, sinks,
};
use crate::{records, rotations, sharing, stops};
use disk_files::MemoryDir;
use refusing_alloc::Refusing;
use std::alloc::Global;
use std::process::Abort;
use std::sync::Wait;

/// What is tried.
#[derive(Clone, Copy)]
pub enum Part {
    /// An open sink behind a failure.
    Recovery,
    /// What buffers tell their journals.
    Records,
    /// Files of the last number.
    LastNumbers,
    /// What a stop leaves of a buffer.
    Stops,
    /// The generation that an opening takes.
    Generations,
    /// A drop of a shared buffer, and a renewal.
    Renewal,
    /// The one sync of a list.
    OneSync,
    /// Something without memory that needs no folder.
    Alone(Alone),
    /// Something without memory in a folder.
    InFolder(InFolder),
}

/// What is tried without memory, and needs no folder.
#[derive(Clone, Copy)]
pub enum Alone {
    /// What is written behind bytes.
    Spellings,
    /// Entries that are appended.
    Entries,
    /// Handshakes.
    Handshakes,
    /// Bytes that are read.
    Bytes,
    /// Messages that come by pieces.
    Streams,
    /// Journals that come by pieces.
    Outlines,
    /// Deliveries that are begun.
    Deliveries,
    /// Room for answers.
    Rooms,
}

/// What is tried in a folder without memory.
#[derive(Clone, Copy)]
pub enum InFolder {
    /// Calls of the folder.
    Folders,
    /// Calls of a buffer.
    Calls,
    /// Openings of a buffer.
    Openings,
    /// Calls of a shared buffer.
    SharedCalls,
    /// Audits of one.
    SharedAudits,
    /// Calls of a sink.
    SinkCalls,
    /// Openings of a sink.
    SinkOpenings,
}

// Whether this asks for memory, and does without it as it should.
fn asks<R: Abort, H: Refuses>(rt: &R, heap: H, alone: Alone) -> bool {
    match alone {
        Alone::Spellings => putting::each_put_asks::<R, H>(rt, heap),
        Alone::Entries => putting::entries_ask::<R, H>(rt, heap),
        Alone::Handshakes => handshakes::ask::<R, H>(rt, heap),
        Alone::Bytes => reading::bytes_ask::<R, H>(rt, heap),
        Alone::Streams => reading::streams_ask::<R, H>(rt, heap),
        Alone::Outlines => journals::ask::<R, H>(rt, heap),
        Alone::Deliveries => deliveries::deliveries_ask::<R, H>(rt, heap),
        Alone::Rooms => deliveries::rooms_ask::<R, H>(rt, heap),
    }
}

// The same of this in a folder.
fn asks_in<R: Wait + Abort, H: Refuses, D: NewDir<H>>(rt: &R, heap: H, tried: InFolder) -> bool {
    match tried {
        InFolder::Folders => folders::ask::<R, H, D>(rt, heap),
        InFolder::Calls => buffers::calls_ask::<R, H, D>(rt, heap),
        InFolder::Openings => buffers::openings_ask::<R, H, D>(rt, heap),
        InFolder::SharedCalls => shared::calls_ask::<R, H, D>(rt, heap),
        InFolder::SharedAudits => shared::audits_ask::<R, H, D>(rt, heap),
        InFolder::SinkCalls => sinks::calls_ask::<R, H, D>(rt, heap),
        InFolder::SinkOpenings => sinks::openings_ask::<R, H, D>(rt, heap),
    }
}

// Whether all is as it should be in this.
fn is_so<R: Wait + Abort, H: Refuses, D: OnDevice<H>>(rt: &R, heap: H, part: Part) -> bool {
    match part {
        Part::Recovery => rotations::recover::<H, D>(heap),
        Part::Records => records::are_told::<H, D>(heap),
        Part::LastNumbers => records::are_last::<H, D>(heap),
        Part::Stops => stops::are_left::<H, D>(heap),
        Part::Generations => stops::are_written::<H, D>(heap),
        Part::Renewal => sharing::renewal_fails::<R, H, D>(rt, heap),
        Part::OneSync => sharing::take_one_sync::<R, H, D>(rt, heap),
        Part::Alone(alone) => asks::<R, H>(rt, heap, alone),
        Part::InFolder(tried) => asks_in::<R, H, D>(rt, heap, tried),
    }
}

/// Whether all is as it should be in this, over folders in memory.
pub fn in_memory<R: Wait + Abort>(rt: &R, alloc: Global, part: Part) -> bool {
    let heap = Refusing::new(alloc);
    is_so::<R, Heap<'_>, MemoryDir<Heap<'_>>>(rt, &heap, part)
}
