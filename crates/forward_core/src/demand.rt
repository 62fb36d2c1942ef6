//! What a server's session wants of the one who runs it.

use crate::fault::SessionFault;
use event_modes::Message;
use std::alloc::Allocator;

/// What is to be done, in the order in which it was demanded.
#[derive(Drop)]
pub enum Demand<A: Allocator> {
    /// This message came. If it asks for an acknowledgement, one is to be answered once the message
    /// is safe.
    Deliver(Message<A>),
    /// The session is over: send what is outgoing, and close the connection.
    Close(SessionFault),
}
