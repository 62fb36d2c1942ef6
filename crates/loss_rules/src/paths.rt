//! The rule on paths: within a relay those of buffers are distinct, and those of sinks.

ghost use Rattle.std.specs.Prelude.{◌≡◌, ◌↔◌, List, [], ℕ, IfOk, IsTrue, Some};
ghost use Rattle.std.specs.Option.{option_copied};
ghost use Rattle.loss_rules.specs.Breaks.{IsFirstOfPath};
ghost use Rattle.loss_rules.specs.Everywhere.{AreInConf, BreaksAtOutput};
ghost use Rattle.loss_rules.specs.Lines.{StandsBehind};
ghost use Rattle.loss_rules.specs.Rules.{PathsAreDistinct, SharePath, buffer_path as path_of_buffer, sink_path as path_of_sink};

use crate::answer::Place;
use crate::requirement::{OfOutputs, Requirement, add_unless, broken_places, relay_lines};
use crate::site::{Site, line_of};
use crate::text::is_same_text;
use relay_conf::{BufferKind, Output};
use relay_net::{Net, settings};
use std::alloc::{AllocError, Allocator};

/// Each output that shares the path of its buffer or of its sink with one before it in its relay.
/// For each output all outputs of its relay are gone through. The only error is want of memory.
pub fn paths_are_distinct<A: Allocator + Copy, B: Allocator + Copy>(
    alloc: B,
    net: &Net<A>,
) -> Result<Vec<Place, B>, AllocError>
    ensures listed { IfOk result
        (λ places. AreInConf net.now
        (BreaksAtOutput net.now (IsFirstOfPath net.now)) places.items) }
    ensures kept { IfOk result (λ places. places.items ≡ [] → PathsAreDistinct net.now) }
{
    broken_places(alloc, net, &OfOutputs(HasOwnPaths { net }))
}

// The output is the first of its relay with the path of its buffer, and with that of its sink.
#[derive(Drop)]
struct HasOwnPaths<'a, A: Allocator> {
    net: &'a Net<A>,
}

impl<A: Allocator + Copy> Requirement<Output<A>> for HasOwnPaths<'_, A> {
    ghost use Rattle.std.specs.Prelude.{◌≡◌};
    ghost use Rattle.loss_rules.specs.Breaks.{IsFirstOfPath};
    ghost use Rattle.loss_rules.specs.Sites.{line_of};

    ghost keeps = { λ asked at found. IsFirstOfPath asked.net.now at.place at.scope at.rule
        at.output found };

    ghost breaks = { λ asked at found line. (line_of found ≡ line)
        × ¬ IsFirstOfPath asked.net.now at.place at.scope at.rule at.output found };

    fn add_lines<B: Allocator + Copy>(
        &self,
        at: Site,
        found: &Output<A>,
        lines: &mut Vec<usize, B>,
    ) -> Result<(), AllocError> {
        let Some(node) = self.net.relays().get(at.place) else {
            return Ok(());
        };
        let behind = OfOutputs(IsBehind { at, found });
        let before = relay_lines(*lines.allocator(), &behind, at.place, &node.relay)?;
        add_unless(before.is_empty(), line_of(found), lines)
    }
}

// The output is another one than that at the site only if it stands in a later line, or shares no
// path with it.
#[derive(Drop)]
struct IsBehind<'a, A: Allocator> {
    at: Site,
    found: &'a Output<A>,
}

impl<A: Allocator> Requirement<Output<A>> for IsBehind<'_, A> {
    ghost use Rattle.std.specs.Prelude.{◌≡◌};
    ghost use Rattle.loss_rules.specs.Lines.{StandsBehind};
    ghost use Rattle.loss_rules.specs.Sites.{line_of};

    ghost keeps = { λ asked at other. StandsBehind asked.at asked.found.now at other };

    ghost breaks = { λ asked at other line. (line_of other ≡ line)
        × ¬ StandsBehind asked.at asked.found.now at other };

    fn add_lines<B: Allocator + Copy>(
        &self,
        at: Site,
        found: &Output<A>,
        lines: &mut Vec<usize, B>,
    ) -> Result<(), AllocError> {
        add_unless(self.is_behind(at, found), line_of(found), lines)
    }
}

impl<A: Allocator> IsBehind<'_, A> {
    // Whether the output at this site is the same one, shares no path with it, or stands in a later
    // line.
    fn is_behind(&self, at: Site, found: &Output<A>) -> bool
        ensures { IsTrue result ↔ StandsBehind self.now.at self.now.found.now at found.now }
    {
        if is_same(at, self.at) {
            return true;
        }
        if !share_path(found, self.found) {
            return true;
        }
        line_of(self.found) < line_of(found)
    }
}

// Whether the sites are of one output of a relay.
fn is_same(one: Site, two: Site) -> bool
    ensures { IsTrue result
        ↔ ((one.scope ≡ two.scope) × (one.rule ≡ two.rule) × (one.output ≡ two.output)) }
{
    one.scope == two.scope && one.rule == two.rule && one.output == two.output
}

// Whether the outputs share a path of their buffers, or one of their sinks.
fn share_path<A: Allocator>(one: &Output<A>, two: &Output<A>) -> bool
    ensures { IsTrue result ↔ SharePath one.now two.now }
{
    are_same_path(buffer_path(one), buffer_path(two))
        || are_same_path(sink_path(one), sink_path(two))
}

// Whether there are two paths, and they are the same.
fn are_same_path(one: Option<&[u8]>, two: Option<&[u8]>) -> bool
    ensures { IsTrue result
        ↔ ((path : List ℕ) × (option_copied one.entry ≡ Some path)
        × (option_copied two.entry ≡ Some path)) }
{
    match (one, two) {
        (Some(path), Some(other)) => is_same_text(path, other),
        _ => false,
    }
}

/// The path of the output's buffer, if it has one that is a file.
pub fn buffer_path<A: Allocator>(output: &Output<A>) -> Option<&[u8]>
    ensures { option_copied result ≡ path_of_buffer output.now }
{
    match &settings(output)?.kind {
        BufferKind::Memory => None,
        BufferKind::File { path } => Some(path.as_bytes()),
    }
}

/// The path of the output's sink, if it has one.
pub fn sink_path<A: Allocator>(output: &Output<A>) -> Option<&[u8]>
    ensures { option_copied result ≡ path_of_sink output.now }
{
    match output {
        Output::File { settings, line: _ } => Some(settings.path.as_bytes()),
        _ => None,
    }
}
