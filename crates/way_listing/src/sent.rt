//! Messages on their way.

ghost use Rattle.std.specs.Prelude.{◌≡◌, ◌↔◌, Contains, IfOk, IsTrue, OnOk};
ghost use Rattle.way_listing.specs.Sendings.{Adds, sending};

use relay_net::Address;
use std::alloc::{AllocError, Allocator};
use std::marker::Model;

/// A message: where it is sent to, and its tag.
#[derive(Drop)]
pub(crate) struct Sent<A: Allocator> {
    address: Address<A>,
    tag: Vec<u8, A>,
}

impl<A: Allocator> Model for Sent<A> {
    ghost use Rattle.way_listing.specs.Sendings.{Sending};

    ghost Value = { Sending };

    ghost view = { λ s. record { address = s.address; tag = s.tag.items } };
}

impl<A: Allocator + Copy> Sent<A> {
    /// The message with this tag to this host and port.
    pub(crate) fn new(alloc: A, host: &[u8], port: u16, tag: &[u8]) -> Result<Sent<A>, AllocError>
        ensures { IfOk result
            (λ sent. sent ≡ sending (record { host = host.now; port = port }) tag.now) }
    {
        Ok(Sent {
            address: Address::new(alloc, host, port)?,
            tag: Vec::from_slice(alloc, tag)?,
        })
    }

    /// The same message, in memory of its own.
    pub(crate) fn copied(&self, alloc: A) -> Result<Sent<A>, AllocError>
        ensures { IfOk result (λ sent. sent ≡ self.now) }
    {
        Ok(Sent {
            address: self.address.copied(alloc)?,
            tag: Vec::from_slice(alloc, &self.tag)?,
        })
    }

    /// The host that it is sent to.
    pub(crate) fn host(&self) -> &[u8]
        ensures { result.now ≡ self.now.address.host }
    {
        self.address.host()
    }

    /// The port that it is sent to.
    pub(crate) fn port(&self) -> u16
        ensures { result ≡ self.now.address.port }
    {
        self.address.port()
    }

    /// Its tag.
    pub(crate) fn tag(&self) -> &[u8]
        ensures { result.now ≡ self.now.tag }
    {
        &self.tag
    }

    /// Whether it has this tag.
    pub(crate) fn has_tag(&self, tag: &[u8]) -> bool
        ensures { IsTrue result ↔ (self.now.tag ≡ tag.now) }
    {
        self.tag() == tag
    }

    // Whether it is the message with this tag to this host and port.
    fn is(&self, host: &[u8], port: u16, tag: &[u8]) -> bool
        ensures { IsTrue result
            ↔ (self.now ≡ sending (record { host = host.now; port = port }) tag.now) }
    {
        self.address.port() == port && self.address.host() == host && self.tag() == tag
    }
}

// Whether the message is among these.
fn is_among<A: Allocator + Copy>(found: &[Sent<A>], host: &[u8], port: u16, tag: &[u8]) -> bool
    ensures { IsTrue result
        ↔ Contains found.now (sending (record { host = host.now; port = port }) tag.now) }
{
    for one in found {
        if one.is(host, port, tag) {
            return true;
        }
    }
    false
}

/// Adds the message, unless it is there.
pub(crate) fn add<A: Allocator + Copy>(
    alloc: A,
    host: &[u8],
    port: u16,
    tag: &[u8],
    found: &mut Vec<Sent<A>, A>,
) -> Result<(), AllocError>
    ensures { OnOk result
        (Adds (λ other. sending (record { host = host.now; port = port }) tag.now ≡ other)
        found.old.items found.new.items) }
{
    if !is_among(found, host, port, tag) {
        found.push(Sent::new(alloc, host, port, tag)?)?;
    }
    Ok(())
}
