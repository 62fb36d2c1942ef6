//! Both ends of a connection of the Forward Protocol (v1) as values: bytes go in, and bytes and
//! demands come out; with the host name and key of a configuration, as handshakes show them.
#![tactic(auto)]

mod client;
mod client_handshake;
mod demand;
mod fault;
mod first;
mod messages;
mod outbox;
mod past;
mod replies;
mod secret;
mod security;
mod server;
mod server_handshake;
mod taken;
mod unread;

pub use client::ClientSession;
pub use demand::Demand;
pub use fault::{SessionError, SessionFault};
pub use past::{AskedSoFar, TakenSoFar};
pub use replies::Heard;
pub use secret::{secret_copy, security_of};
pub use security::Security;
pub use server::{ServerSession, Unanswered};
