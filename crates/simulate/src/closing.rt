//! The folders of a relay as a stop leaves them.

use crate::disk::Stop;
use crate::lent::Lendable;
use crate::parts::SinkContent;
use crate::product::SinkOutput;
use ack_receipt::SharedBuffer;
use disk_files::Dir;
use flush_pool::SinkCourier;
use loop_core::Lanes;
use sink_series::{Series, SinkEvent};
use std::alloc::{AllocError, Global};
use std::sync::{Arc, Wait};

/// Ends the lanes of a relay: whether one of its buffers had failed.
pub fn end_lanes<R: Wait, D: Dir + Drop>(rt: &R, lanes: Lanes<D, Global>) -> bool {
    let has_failed = lanes.fault().is_some();
    let _ = lanes.end(rt);
    has_failed
}

/// Lets the folders of these buffers go, as the stop leaves them, and says whether a device failed.
pub fn close_buffers<D: Lendable + Drop>(
    buffers: Vec<Arc<SharedBuffer<D, Global>>>,
    stop: Stop,
) -> bool {
    let mut have_failed = false;
    for buffer in buffers {
        have_failed = close_buffer(buffer, stop) || have_failed;
    }
    have_failed
}

// Lets the folder of a buffer go, if nobody else shares it.
fn close_buffer<D: Lendable + Drop>(buffer: Arc<SharedBuffer<D, Global>>, stop: Stop) -> bool {
    match Arc::into_inner(buffer) {
        Some(buffer) => let_go(buffer.close().into_dir(), stop),
        None => false,
    }
}

// Lets a folder go, as the stop leaves it, and says whether its device failed.
fn let_go<D: Lendable + Drop>(dir: D, stop: Stop) -> bool {
    let has_failed = dir.faults() > 0;
    drop(dir.stopped(stop));
    has_failed
}

/// Lets the folders of these outputs' sinks go, and says what they hold, and whether a device
/// failed. Behind one that can't be read, none is looked at, and `None` is said.
pub fn close_sinks<D: Lendable + Drop>(
    alloc: Global,
    outputs: Vec<SinkOutput<D>>,
    stop: Stop,
    have_failed: &mut bool,
) -> Result<Option<Vec<SinkContent>>, AllocError> {
    let mut all = Vec::new(alloc);
    let mut buffer = 0usize;
    for output in outputs {
        if !close_output(alloc, output, stop, buffer, have_failed, &mut all)? {
            return Ok(None);
        }
        buffer = buffer.saturating_add(1);
    }
    Ok(Some(all))
}

// The same of one output: whether its sink can be read, if it has one.
fn close_output<D: Lendable + Drop>(
    alloc: Global,
    output: SinkOutput<D>,
    stop: Stop,
    buffer: usize,
    have_failed: &mut bool,
    all: &mut Vec<SinkContent>,
) -> Result<bool, AllocError> {
    let (path, sink) = output.into_sink();
    let Some(sink) = sink else {
        return Ok(true);
    };
    match close_sink(alloc, sink, &path, stop, have_failed) {
        Some(events) => {
            all.push(SinkContent { buffer, events })?;
            Ok(true)
        }
        None => Ok(false),
    }
}

// What a sink holds, if that can be read.
fn close_sink<D: Lendable + Drop>(
    alloc: Global,
    sink: SinkCourier<D, Global>,
    path: &[u8],
    stop: Stop,
    has_failed: &mut bool,
) -> Option<Vec<SinkEvent<Global>>> {
    let dir = sink.into_dir()?;
    if dir.faults() > 0 {
        *has_failed = true;
    }
    content_of(alloc, dir.stopped(stop), path)
}

// What a sink holds in its folder; `None` where it can't be read.
fn content_of<D: Lendable + Drop>(
    alloc: Global,
    dir: D,
    path: &[u8],
) -> Option<Vec<SinkEvent<Global>>> {
    match Series::open(alloc, dir, path) {
        Ok(mut series) => {
            let content = series.content().ok();
            drop(series.into_dir());
            content
        }
        Err(_) => None,
    }
}
