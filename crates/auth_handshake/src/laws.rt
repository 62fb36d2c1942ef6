//! What holds of the messages of a handshake; the statements stand in specs/Laws.antt.

ghost use Rattle.auth_handshake.specs.Laws.{IsHeloRead, IsPingRead, IsPongRead, IsRefusalRead, IsOneKeyEnough};

/// Each message that is written is read again, with all that it says.
pub fn written_is_read()
    ensures helo { IsHeloRead }
    ensures ping { IsPingRead }
    ensures pong { IsPongRead }
    ensures refusal { IsRefusalRead }
{}

/// A server and a client with one key let each other in.
pub fn one_key_is_enough()
    ensures { IsOneKeyEnough }
{}
