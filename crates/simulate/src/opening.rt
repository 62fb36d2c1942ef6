//! The parts of a relay, made of its configuration and over its folders.

use crate::drawing::FIRST_PORT;
use crate::lent::Lendable;
use crate::opened::Opened;
use crate::parts::{Aim, Settings, Target};
use crate::product::{Folders, OpenRelay, Output, SinkOutput};
use crate::shelf::Shelf;
use flush_pool::SinkCourier;
use loop_core::{RelayParts, open_all, parts_of};
use relay_conf::{BufferKind, BufferSettings, ForwardSettings, OverflowAction, Relay, Source};
use relay_ports::{BufferedOutput, Inlet, RelaySetup, SetupParts};
use route_graph::Routes;
use sink_series::{FileLimits, Rotation};
use std::alloc::{AllocError, Global};
use std::sync::Arc;

// A sink's next file is begun by its size alone, so that a run depends on no clock.
const LIMITS: FileLimits = FileLimits {
    bytes: 64,
    millis: u64::MAX,
    pause: u64::MAX,
};

/// The relay over these folders; `None` where it doesn't open.
pub fn open_relay<D: Lendable + Drop>(
    alloc: Global,
    folders: &Folders<D>,
) -> Result<Option<OpenRelay<D>>, AllocError> {
    let Some(parts) = setup(alloc, folders.number, &folders.conf) else {
        return Ok(None);
    };
    let SetupParts {
        number,
        routes,
        sources,
        outputs,
    } = parts;
    let inlets = inlets(alloc, number, &routes, sources)?;
    open_outputs(
        alloc,
        number,
        inlets,
        outputs,
        &folders.buffers,
        &folders.sinks,
    )
}

// The same of these outputs, behind these inlets.
fn open_outputs<D: Lendable + Drop>(
    alloc: Global,
    number: u32,
    inlets: Vec<Arc<Inlet<Global>>>,
    buffered: Vec<BufferedOutput<Global>>,
    buffers: &Shelf<D>,
    sinks: &Shelf<D>,
) -> Result<Option<OpenRelay<D>>, AllocError> {
    let Some(outputs) = open_sinks(alloc, sinks, &buffered)? else {
        return Ok(None);
    };
    match open_buffers(alloc, number, buffered, buffers)? {
        Some(parts) => Ok(Some(put_together(parts, inlets, outputs))),
        None => Ok(None),
    }
}

// The buffers of these outputs; `None` where one doesn't open.
fn open_buffers<D: Lendable + Drop>(
    alloc: Global,
    number: u32,
    outputs: Vec<BufferedOutput<Global>>,
    shelf: &Shelf<D>,
) -> Result<Option<RelayParts<D, Global>>, AllocError> {
    match open_all(alloc, number, outputs, shelf, 0) {
        Ok(opened) => Ok(Some(parts_of(alloc, opened)?)),
        Err(_) => Ok(None),
    }
}

// A relay of these parts.
fn put_together<D: Lendable + Drop>(
    parts: RelayParts<D, Global>,
    inlets: Vec<Arc<Inlet<Global>>>,
    outputs: Vec<SinkOutput<D>>,
) -> OpenRelay<D> {
    let RelayParts {
        lanes,
        buffers,
        jobs: _,
    } = parts;
    Opened::new(lanes, buffers, outputs, inlets)
}

// What the configuration says.
fn setup(alloc: Global, number: u32, conf: &[u8]) -> Option<SetupParts<Global>> {
    let Some(relay) = relay_of(alloc, conf) else {
        return None;
    };
    match RelaySetup::new(alloc, relay, number) {
        Ok(setup) => Some(setup.into_parts()),
        Err(_) => None,
    }
}

// The relay of a configuration.
fn relay_of(alloc: Global, conf: &[u8]) -> Option<Relay<Global>> {
    match conf_text::read(alloc, conf) {
        Ok(elements) => Relay::read(alloc, &elements).ok(),
        Err(_) => None,
    }
}

// Where messages come in, by the numbers of the sources.
fn inlets(
    alloc: Global,
    number: u32,
    routes: &Arc<Routes<Global>>,
    sources: Vec<Source<Global>>,
) -> Result<Vec<Arc<Inlet<Global>>>, AllocError> {
    let mut all = Vec::new(alloc);
    for source in sources {
        all.push(inlet(alloc, number, routes, source)?)?;
    }
    Ok(all)
}

// Where the messages of this source come in.
fn inlet(
    alloc: Global,
    number: u32,
    routes: &Arc<Routes<Global>>,
    source: Source<Global>,
) -> Result<Arc<Inlet<Global>>, AllocError> {
    let theirs = Arc::try_clone(routes)?;
    let inlet = Inlet::new(number, theirs, source.label, source.prefix);
    Ok(Arc::new(alloc, inlet)?)
}

// These outputs with their sinks, by their numbers; `None` where one doesn't open.
fn open_sinks<D: Lendable + Drop>(
    alloc: Global,
    shelf: &Shelf<D>,
    outputs: &[BufferedOutput<Global>],
) -> Result<Option<Vec<SinkOutput<D>>>, AllocError> {
    let mut all = Vec::new(alloc);
    for output in outputs {
        match open_output(alloc, shelf, output)? {
            Some(output) => all.push(output)?,
            None => return Ok(None),
        }
    }
    Ok(Some(all))
}

// This output, with its sink where it has one; `None` where that doesn't open.
fn open_output<D: Lendable + Drop>(
    alloc: Global,
    shelf: &Shelf<D>,
    output: &BufferedOutput<Global>,
) -> Result<Option<SinkOutput<D>>, AllocError> {
    let settings = settings_of(output.buffer(), aim_of(output));
    match output {
        BufferedOutput::Forward(_) => Ok(Some(Output::new(settings, Vec::new(alloc), None))),
        BufferedOutput::File(file) => open_sink(alloc, shelf, settings, file.path.as_bytes()),
    }
}

// An output with its sink, which is at this path; `None` where that doesn't open.
fn open_sink<D: Lendable + Drop>(
    alloc: Global,
    shelf: &Shelf<D>,
    settings: Settings,
    path: &[u8],
) -> Result<Option<SinkOutput<D>>, AllocError> {
    let dir = shelf.take(path)?;
    let name = Vec::from_slice(alloc, path)?;
    match Rotation::open(alloc, dir, path, LIMITS, 0) {
        Ok(sink) => Ok(Some(Output::new(settings, name, Some(SinkCourier::new(sink))))),
        Err(_) => Ok(None),
    }
}

// What is looked at of an output whose chunks go there.
fn settings_of(buffer: &BufferSettings<Global>, aim: Aim) -> Settings {
    Settings {
        aim,
        is_in_memory: matches!(&buffer.kind, BufferKind::Memory),
        drops_oldest: buffer.overflow_action == OverflowAction::DropOldestChunk,
        gives_up: !buffer.retry.forever,
        limit: buffer.total_limit_size,
    }
}

// Where an output's chunks go.
fn aim_of(output: &BufferedOutput<Global>) -> Aim {
    match output {
        BufferedOutput::File(_) => Aim::Sink,
        BufferedOutput::Forward(settings) => aim_by(settings),
    }
}

// The same of one that sends to a relay, by the port of that.
fn aim_by(settings: &ForwardSettings<Global>) -> Aim {
    let Some(server) = settings.servers.first() else {
        return Aim::Nowhere;
    };
    let port = server.port.saturating_sub(FIRST_PORT) as usize;
    Aim::Relay(Target {
        to: port / 10,
        source: port % 10,
        asks: settings.require_ack_response,
    })
}
