//! Relays that are read from configurations, looked at part by part.

use relay_conf::{
    BufferKind, BufferSettings, FileSettings, ForwardSettings, MatchRule, Output, Relay, Source,
};
use std::alloc::Global;

fn relay(alloc: Global, text: &str) -> Option<Relay<Global>> {
    match conf_text::read(alloc, text.as_bytes()) {
        Ok(elements) => Relay::read(alloc, &elements).ok(),
        Err(_) => None,
    }
}

fn rule(relay: &Relay<Global>, scope: usize, place: usize) -> Option<&MatchRule<Global>> {
    relay.scopes.get(scope)?.matches.get(place)
}

fn forward(relay: &Relay<Global>) -> Option<&ForwardSettings<Global>> {
    match rule(relay, 0, 0)?.outputs.get(0)? {
        Output::Forward { settings, line: _ } => Some(settings),
        _ => None,
    }
}

fn file(
    relay: &Relay<Global>,
    scope: usize,
    place: usize,
    output: usize,
) -> Option<&FileSettings<Global>> {
    match rule(relay, scope, place)?.outputs.get(output)? {
        Output::File { settings, line: _ } => Some(settings),
        _ => None,
    }
}

fn has_path(buffer: &BufferSettings<Global>, wanted: &str) -> bool {
    match &buffer.kind {
        BufferKind::Memory => false,
        BufferKind::File { path } => path.as_str() == wanted,
    }
}

static EDGE: &str = "<source>
  @type forward
  port 24224
</source>
<match app.**>
  @type forward
  require_ack_response true
  <server>
    host 127.0.0.1
    port 24225
  </server>
  <buffer>
    @type file
    path out
    retry_forever true
  </buffer>
</match>
";

fn is_the_source(source: &Source<Global>) -> bool {
    source.port == 24224
        && source.bind.as_str() == "0.0.0.0"
        && source.label.0 == 0
        && source.prefix.is_none()
        && source.line == 1
}

fn has_the_source(relay: &Relay<Global>) -> bool {
    match relay.sources.as_slice() {
        [source] => is_the_source(source),
        _ => false,
    }
}

fn has_the_server(relay: &Relay<Global>) -> Option<bool> {
    let settings = forward(relay)?;
    let server = settings.servers.get(0)?;
    Some(
        settings.require_ack_response
            && settings.ack_response_timeout == 190
            && server.host.as_str() == "127.0.0.1"
            && server.port == 24225
            && server.line == 8,
    )
}

fn has_the_buffer(relay: &Relay<Global>) -> Option<bool> {
    let buffer = &forward(relay)?.buffer;
    Some(
        has_path(buffer, "out")
            && buffer.retry.forever
            && buffer.chunk_limit_size == 268_435_456
            && buffer.total_limit_size == 68_719_476_736,
    )
}

fn has_both(relay: &Relay<Global>) -> bool {
    has_the_server(relay) == Some(true) && has_the_buffer(relay) == Some(true)
}

fn is_the_edge(alloc: Global) -> bool {
    match relay(alloc, EDGE) {
        Some(relay) => has_the_source(&relay) && has_both(&relay),
        None => false,
    }
}

// A source, a relay that sends on, and its buffer in files.
#[test]
fn an_edge(rt: HostRuntime) {
    assert!(rt; is_the_edge(rt.alloc()));
}

static PREFIXED: &str = "<source>\n  @type forward\n  add_tag_prefix edge.a\n</source>\n";

fn has_the_prefix(relay: &Relay<Global>) -> Option<bool> {
    let prefix = relay.sources.get(0)?.prefix.as_ref()?;
    Some(prefix.as_bytes() == b"edge.a".as_slice())
}

fn is_prefixed(alloc: Global) -> bool {
    match relay(alloc, PREFIXED) {
        Some(relay) => has_the_prefix(&relay) == Some(true),
        None => false,
    }
}

#[test]
fn a_prefixed_source(rt: HostRuntime) {
    assert!(rt; is_prefixed(rt.alloc()));
}

static LABELLED: &str = "<source>
  @type forward
</source>
<label @A>
  <match **>
    @type file
    path a
    <buffer>
      @type file
      path a_buffer
      retry_forever true
    </buffer>
  </match>
</label>
<match a.**\tb>
  @type relabel
  @label @A
</match>
<match **>
  @type copy
  <store>
    @type null
  </store>
  <store>
    @type file
    path all
    <buffer>
      flush_interval 5
      flush_interval 2m
    </buffer>
  </store>
</match>
";

fn has_the_label(relay: &Relay<Global>) -> Option<bool> {
    let first = rule(relay, 0, 0)?;
    let leads = match first.outputs.get(0)? {
        Output::Relabel { target, line: _ } => target.0 == 1,
        _ => false,
    };
    Some(leads && relay.scopes.len() == 2 && first.patterns.len() == 2 && first.line == 15)
}

fn has_the_numbers(relay: &Relay<Global>) -> Option<bool> {
    let inner = file(relay, 1, 0, 0)?;
    let outer = file(relay, 0, 1, 1)?;
    Some(
        inner.number.0 == 0
            && outer.number.0 == 1
            && matches!(&outer.buffer.kind, BufferKind::Memory)
            && outer.buffer.flush_interval == 120,
    )
}

fn is_labelled(alloc: Global) -> bool {
    match relay(alloc, LABELLED) {
        Some(relay) => {
            has_the_label(&relay) == Some(true) && has_the_numbers(&relay) == Some(true)
        }
        None => false,
    }
}

// A label, and the numbers of buffers.
#[test]
fn a_label(rt: HostRuntime) {
    assert!(rt; is_labelled(rt.alloc()));
}
