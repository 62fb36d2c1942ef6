//! Where messages are sent to, and where they come in.

ghost use Rattle.std.specs.Prelude.{◌≡◌, IfOk};

use std::alloc::{AllocError, Allocator};
use std::marker::Model;

/// An address: a host and a port. Hosts are compared as texts, byte by byte.
#[derive(Drop)]
pub struct Address<A: Allocator> {
    host: Vec<u8, A>,
    port: u16,
}

impl<A: Allocator> Model for Address<A> {
    ghost use Rattle.relay_net.specs.Addresses as addresses;

    ghost Value = { addresses.Address };

    ghost view = { λ address. record { host = address.host.items; port = address.port } };
}

impl<A: Allocator> Address<A> {
    /// The address of this host and port.
    pub fn new(alloc: A, host: &[u8], port: u16) -> Result<Address<A>, AllocError>
        ensures { IfOk result (λ address. address ≡ record { host = host.now; port = port }) }
    {
        Ok(Address {
            host: Vec::from_slice(alloc, host)?,
            port,
        })
    }

    /// The same address, in memory of its own.
    pub fn copied<B: Allocator>(&self, alloc: B) -> Result<Address<B>, AllocError>
        ensures { IfOk result (λ address. address ≡ self.now) }
    {
        Address::new(alloc, &self.host, self.port)
    }

    /// The bytes of its host.
    pub fn host(&self) -> &[u8]
        ensures { result.now ≡ self.now.host }
    {
        &self.host
    }

    /// Its port.
    pub fn port(&self) -> u16
        ensures { result ≡ self.now.port }
    {
        self.port
    }
}

/// Where a message comes in: at a source of a relay.
#[derive(Clone, Copy, PartialEq, Eq)]
pub struct Entrance {
    /// The place of the relay, counted from 0 in the order of the relays.
    pub relay: usize,
    /// The place of the scope that the source's events enter, counted from 0; the main scope is 0.
    pub scope: usize,
}
