//! What a parameter that is not written means; of a buffer's, buffer.rt says it. All of these are
//! this project's profile.

/// The port of a source and of a server.
pub const DEFAULT_PORT: u16 = 24224;
/// The local address of a source.
pub const DEFAULT_BIND: &str = "0.0.0.0";
/// Whether a forward output asks for acknowledgements.
pub const DEFAULT_REQUIRE_ACK_RESPONSE: bool = false;
/// How long an acknowledgement is waited for, in seconds.
pub const DEFAULT_ACK_RESPONSE_TIMEOUT: u64 = 190;
