//! The paths and the numbers of a relay's outputs: each has its own.

ghost use Rattle.std.specs.Prelude.{◌≡◌, ◌≢◌, ◌↔◌, All, IsTrue};
ghost use Rattle.std.specs.Option.{option_copied};
ghost use Rattle.relay_conf.specs.BufferSection.{kind_view};
ghost use Rattle.relay_ports.specs.Outputs.{
  AreInOrder,
  AreOther,
  HaveOther,
  HaveOwnPaths,
  buffer_path as path_of_buffer,
  number_of,
  sink_path as path_of_sink,
};

use crate::buffered::BufferedOutput;
use relay_conf::BufferKind;
use std::alloc::Allocator;

/// Whether each output has the number of its place.
pub(crate) fn are_in_order<A: Allocator>(outputs: &[BufferedOutput<A>]) -> bool
    ensures { IsTrue result ↔ AreInOrder outputs.now }
{
    for place in 0..outputs.len() {
        if !is_at(&outputs[place], place) {
            return false;
        }
    }
    true
}

// Whether the output has the number of this place.
fn is_at<A: Allocator>(output: &BufferedOutput<A>, place: usize) -> bool
    ensures { IsTrue result ↔ (number_of output.now ≡ place) }
{
    output.number().0 == place
}

/// Whether no two outputs share the path of their buffers, or of their sinks. Each is compared with
/// all that stand before it.
pub(crate) fn have_own_paths<A: Allocator>(outputs: &[BufferedOutput<A>]) -> bool
    ensures { IsTrue result ↔ HaveOwnPaths outputs.now }
{
    for place in 0..outputs.len() {
        if !has_own_paths(&outputs[place], &outputs[..place]) {
            return false;
        }
    }
    true
}

// Whether the output shares no path with any of these.
fn has_own_paths<A: Allocator>(output: &BufferedOutput<A>, others: &[BufferedOutput<A>]) -> bool
    ensures { IsTrue result ↔ All (λ other. HaveOther other output.now) others.now }
{
    for other in others {
        if !have_other(other, output) {
            return false;
        }
    }
    true
}

// Whether two outputs have no path in common.
fn have_other<A: Allocator>(one: &BufferedOutput<A>, other: &BufferedOutput<A>) -> bool
    ensures { IsTrue result ↔ HaveOther one.now other.now }
{
    are_other(buffer_path(one), buffer_path(other)) && are_other(sink_path(one), sink_path(other))
}

// Whether they are no two paths that are the same.
fn are_other(one: Option<&[u8]>, other: Option<&[u8]>) -> bool
    ensures { IsTrue result ↔ AreOther (option_copied one.entry) (option_copied other.entry) }
{
    match (one, other) {
        (Some(path), Some(another)) => differ(path, another),
        _ => true,
    }
}

// Whether they are two paths.
fn differ(path: &[u8], another: &[u8]) -> bool
    ensures { IsTrue result ↔ (path.now ≢ another.now) }
{
    path != another
}

// The path of the output's buffer, if it has one that has files.
fn buffer_path<A: Allocator>(output: &BufferedOutput<A>) -> Option<&[u8]>
    ensures { option_copied result ≡ path_of_buffer output.now }
{
    path_in(&output.buffer().kind)
}

// The path of a buffer, if it has files.
fn path_in<A: Allocator>(kind: &BufferKind<A>) -> Option<&[u8]>
    ensures { option_copied result ≡ kind_view kind.now }
{
    match kind {
        BufferKind::Memory => None,
        BufferKind::File { path } => Some(path.as_bytes()),
    }
}

// The path of the output's sink, if it has one.
fn sink_path<A: Allocator>(output: &BufferedOutput<A>) -> Option<&[u8]>
    ensures { option_copied result ≡ path_of_sink output.now }
{
    match output {
        BufferedOutput::Forward(_) => None,
        BufferedOutput::File(settings) => Some(settings.path.as_bytes()),
    }
}
