//! One value that says what a relay is: all that runs of it is taken from there.

ghost use Rattle.std.specs.Prelude.{◌≡◌, Ok, Err, IfOk};
ghost use Rattle.std.specs.Arc.{arc_value};
ghost use Rattle.relay_ports.specs.Outputs.{HaveOwnPaths, outputs_in};
ghost use Rattle.relay_ports.specs.Setups.{CanRun, setup_of};
ghost use Rattle.relay_ports.specs.declared.fault.SetupFault.{SetupFault};

use crate::buffered::{BufferedOutput, buffered_outputs};
use crate::fault::SetupFault;
use crate::paths::{are_in_order, have_own_paths};
use relay_conf::{Relay, Source};
use route_graph::Routes;
use std::alloc::Allocator;
use std::marker::Model;
use std::sync::Arc;

/// How many buffers a relay has at most: their numbers have 32 bits.
const MOST_BUFFERS: usize = 4_294_967_295;

/// What a relay is that was read: its number, where its events go, its sources, and its outputs
/// that have buffers. Each of these has the number of its place, and no two share a path.
pub struct RelaySetup<A: Allocator> {
    number: u32,
    routes: Arc<Routes<A>, A>,
    sources: Vec<Source<A>, A>,
    outputs: Vec<BufferedOutput<A>, A>,
}

// By hand, so that crates above don't prove again how its parts end.
impl<A: Allocator> Drop for RelaySetup<A> {
    fn drop(self) {
        let RelaySetup {
            number: _,
            routes: _,
            sources: _,
            outputs: _,
        } = self;
    }
}

impl<A: Allocator> Model for RelaySetup<A> {
    ghost use Rattle.std.specs.Arc.{arc_value};
    ghost use Rattle.relay_ports.specs.Setups.{CanRun, Setup};

    ghost Value = { Setup A };

    ghost view = { λ s. record {
      number = s.number;
      table = arc_value s.routes;
      sources = s.sources.items;
      outputs = s.outputs.items;
    } };

    ghost invariant = { λ s. CanRun s.outputs.items };
}

/// The parts of a relay's setup.
#[derive(Drop)]
pub struct SetupParts<A: Allocator> {
    /// The number by which a plan knows the relay.
    pub number: u32,
    /// Where its events go.
    pub routes: Arc<Routes<A>, A>,
    /// Where it listens, in the order of the text.
    pub sources: Vec<Source<A>, A>,
    /// Its outputs that have buffers, in the order of the text.
    pub outputs: Vec<BufferedOutput<A>, A>,
}

impl<A: Allocator + Copy> RelaySetup<A> {
    /// What this relay is under this number.
    ///
    /// `Number`: a buffer has another number than its place, or none of 32 bits; a relay that was
    /// read has none such. `Path`: two outputs share the path of their buffers, or of their sinks.
    /// `Memory`.
    pub fn new(alloc: A, relay: Relay<A>, number: u32) -> Result<RelaySetup<A>, SetupFault>
        ensures setup { IfOk result (λ setup. setup ≡ setup_of number relay) }
        ensures runs { IfOk result (λ _. CanRun (outputs_in relay.scopes.items)) }
        ensures path { result ≡ Err SetupFault.Path → HaveOwnPaths (outputs_in relay.scopes.items)
            → ⊥ }
        ensures numbers { result ≡ Err SetupFault.Number → CanRun (outputs_in relay.scopes.items)
            → ⊥ }
    {
        let routes = Arc::new(alloc, Routes::new(alloc, &relay)?)?;
        let Relay { sources, scopes } = relay;
        let outputs = buffered_outputs(alloc, scopes)?;
        if !are_in_order(&outputs) {
            return Err(SetupFault::Number);
        }
        if outputs.len() > MOST_BUFFERS {
            return Err(SetupFault::Number);
        }
        if !have_own_paths(&outputs) {
            return Err(SetupFault::Path);
        }
        Ok(RelaySetup {
            number,
            routes,
            sources,
            outputs,
        })
    }

    /// Its parts.
    pub fn into_parts(self) -> SetupParts<A>
        ensures number { result.number ≡ self.number }
        ensures ways { arc_value result.routes ≡ self.table }
        ensures sources { result.sources.items ≡ self.sources }
        ensures outputs { result.outputs.items ≡ self.outputs }
    {
        let RelaySetup {
            number,
            routes,
            sources,
            outputs,
        } = self;
        SetupParts {
            number,
            routes,
            sources,
            outputs,
        }
    }
}
