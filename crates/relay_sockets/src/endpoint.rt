//! Where a socket is.

ghost use Rattle.std.specs.Prelude.{◌≡◌, IfOk};

use std::alloc::{AllocError, Allocator};
use std::marker::Model;

/// A host, by its number or its name, and a port.
pub struct Endpoint<A: Allocator> {
    host: String<A>,
    port: u16,
}

// By hand, so that crates above don't prove again how its parts end.
impl<A: Allocator> Drop for Endpoint<A> {
    fn drop(self) {
        let Endpoint { host: _, port: _ } = self;
    }
}

impl<A: Allocator> Model for Endpoint<A> {
    ghost use Rattle.std.specs.Prelude.{string_bytes};
    ghost use Rattle.relay_sockets.specs.Endpoints as endpoints;

    ghost Value = { endpoints.Endpoint };

    ghost view = { λ e. record { host = string_bytes e.host; port = e.port } };
}

impl<A: Allocator> Endpoint<A> {
    /// The endpoint of this host and port. The error is want of memory.
    pub fn new(alloc: A, host: &str, port: u16) -> Result<Endpoint<A>, AllocError>
        ensures { IfOk result (λ endpoint. endpoint ≡ record { host = host.now; port = port }) }
    {
        Ok(Endpoint {
            host: String::from_str(alloc, host)?,
            port,
        })
    }

    /// Its host.
    pub fn host(&self) -> &str
        ensures { result.now ≡ self.now.host }
    {
        self.host.as_str()
    }

    /// Its port.
    pub fn port(&self) -> u16
        ensures { result ≡ self.now.port }
    {
        self.port
    }
}
