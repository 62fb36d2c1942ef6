//! The shared-key handshake of the Fluentd Forward Protocol v1 ("Handshake Messages"): HELO, PING
//! and PONG.
//!
//! Both ends are values: they are handed the other's item, and append their own to a list of bytes.
#![tactic(auto)]

mod answers;
mod client;
mod digest;
mod laws;
mod read;
mod server;
mod write;

pub use answers::{HandshakeFault, HeloError, Ping};
pub use client::Client;
pub use digest::digest_hex;
pub use laws::{one_key_is_enough, written_is_read};
pub use server::Server;
pub use write::LONGEST_HOST;
