//! A relabel of a reached match: the scope that it leads to, and its line.

ghost use Rattle.std.specs.Prelude.{◌≡◌};
ghost use Rattle.loss_rules.specs.Graphs.{relabel_of};

use relay_conf::Output;
use std::alloc::Allocator;

/// A relabel of a reached match.
#[derive(Clone, Copy)]
pub(crate) struct Relabel {
    /// The scope that it leads to.
    pub target: usize,
    /// Its line.
    pub line: usize,
}

/// The relabel that the output is, if it is one.
pub(crate) fn as_relabel<A: Allocator>(output: &Output<A>) -> Option<Relabel>
    ensures { result ≡ relabel_of output.now }
{
    match output {
        Output::Null { line: _ } => None,
        Output::Relabel { target, line } => Some(Relabel {
            target: target.0,
            line: *line,
        }),
        Output::Forward {
            settings: _,
            line: _,
        } => None,
        Output::File {
            settings: _,
            line: _,
        } => None,
    }
}
