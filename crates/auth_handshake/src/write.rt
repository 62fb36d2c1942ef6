//! HELO, PING and PONG as they are written: each in one spelling, and whole or not at all.

ghost use Rattle.std.specs.Prelude.{◌≡◌, ◌+◌, ◌<◌, ◌≤◌, ◌^◌, ◌++◌, length};
ghost use Rattle.std.specs.Prelude.{OnOk, OnErr, vec_len, vec_capacity};
ghost use Rattle.std.specs.List.{All, flat_map};
ghost use Rattle.auth_handshake.specs.Fields.{field_bytes, IsShort};
ghost use Rattle.auth_handshake.specs.Written.{helo_bytes, ping_bytes, pong_bytes, refusal_bytes};
ghost use Rattle.auth_handshake.specs.declared.write.Field.{Field};

use msgpack_bytes::{put_array, put_bin, put_bool, put_map, put_str};
use std::alloc::{AllocError, Allocator};

/// The most bytes of an end's host name: this project's limit, not the protocol's. It keeps a PING
/// and a PONG within the limits of an item.
pub const LONGEST_HOST: usize = 1_024;

// A part of a message.
#[derive(Clone, Copy)]
pub enum Field<'a> {
    Array(u32),
    Map(u32),
    Str(&'a [u8]),
    Bin(&'a [u8]),
    Bool(bool),
}

fn put_field<A: Allocator>(out: &mut Vec<u8, A>, field: Field<'_>) -> Result<(), AllocError>
    requires { IsShort field }
    ensures ok { OnOk result (out.new.items ≡ out.old.items ++ field_bytes field.entry) }
    ensures err { OnErr result (out.new.items ≡ out.old.items) }
    ensures full { OnErr result
        (vec_capacity out.old < vec_len out.old + length (field_bytes field.entry)) }
    ensures kept { vec_capacity out.old ≤ vec_capacity out.new }
{
    match field {
        Field::Array(count) => put_array(out, count),
        Field::Map(count) => put_map(out, count),
        Field::Str(text) => put_str(out, text),
        Field::Bin(bytes) => put_bin(out, bytes),
        Field::Bool(value) => put_bool(out, value),
    }
}

// Appends all the parts. Where one finds no room, those before it are taken off again.
fn put_fields<A: Allocator>(out: &mut Vec<u8, A>, fields: &[Field<'_>]) -> Result<(), AllocError>
    requires { All IsShort fields.now }
    ensures ok { OnOk result (out.new.items ≡ out.old.items ++ flat_map field_bytes fields.now) }
    ensures err { OnErr result (out.new.items ≡ out.old.items) }
    ensures full { OnErr result (vec_capacity out.old
        < vec_len out.old + length (flat_map field_bytes fields.now)) }
{
    let start = out.len();
    for field in fields {
        let written = put_field(out, *field);
        if written.is_err() {
            out.truncate(start);
            return written;
        }
    }
    Ok(())
}

/// Appends the HELO with this nonce.
pub fn put_helo<A: Allocator>(out: &mut Vec<u8, A>, nonce: &[u8]) -> Result<(), AllocError>
    requires { length nonce.now < 2 ^ 32 }
    ensures ok { OnOk result (out.new.items ≡ out.old.items ++ helo_bytes nonce.now) }
    ensures err { OnErr result (out.new.items ≡ out.old.items) }
    ensures full { OnErr result
        (vec_capacity out.old < vec_len out.old + length (helo_bytes nonce.now)) }
{
    let fields = [
        Field::Array(2),
        Field::Str(b"HELO"),
        Field::Map(3),
        Field::Str(b"nonce"),
        Field::Bin(nonce),
        Field::Str(b"auth"),
        Field::Str(b""),
        Field::Str(b"keepalive"),
        Field::Bool(true),
    ];
    put_fields(out, &fields)
}

/// Appends the PING with this host name, salt and digest.
pub fn put_ping<'a, A: Allocator>(
    out: &mut Vec<u8, A>,
    host: &'a [u8],
    salt: &'a [u8],
    digest: &'a [u8],
) -> Result<(), AllocError>
    requires host { length host.now < 2 ^ 32 }
    requires salt { length salt.now < 2 ^ 32 }
    requires digest { length digest.now < 2 ^ 32 }
    ensures ok { OnOk result
        (out.new.items ≡ out.old.items ++ ping_bytes host.now salt.now digest.now) }
    ensures err { OnErr result (out.new.items ≡ out.old.items) }
    ensures full { OnErr result (vec_capacity out.old
        < vec_len out.old + length (ping_bytes host.now salt.now digest.now)) }
{
    let fields = [
        Field::Array(6),
        Field::Str(b"PING"),
        Field::Str(host),
        Field::Bin(salt),
        Field::Str(digest),
        Field::Str(b""),
        Field::Str(b""),
    ];
    put_fields(out, &fields)
}

/// Appends the PONG that lets a client in, with this host name and digest.
pub fn put_pong<'a, A: Allocator>(
    out: &mut Vec<u8, A>,
    host: &'a [u8],
    digest: &'a [u8],
) -> Result<(), AllocError>
    requires host { length host.now < 2 ^ 32 }
    requires digest { length digest.now < 2 ^ 32 }
    ensures ok { OnOk result (out.new.items ≡ out.old.items ++ pong_bytes host.now digest.now) }
    ensures err { OnErr result (out.new.items ≡ out.old.items) }
    ensures full { OnErr result (vec_capacity out.old
        < vec_len out.old + length (pong_bytes host.now digest.now)) }
{
    let fields = [
        Field::Array(5),
        Field::Str(b"PONG"),
        Field::Bool(true),
        Field::Str(b""),
        Field::Str(host),
        Field::Str(digest),
    ];
    put_fields(out, &fields)
}

/// Appends the PONG that refuses a client for this reason.
pub fn put_refusal<A: Allocator>(out: &mut Vec<u8, A>, reason: &[u8]) -> Result<(), AllocError>
    requires { length reason.now < 2 ^ 32 }
    ensures ok { OnOk result (out.new.items ≡ out.old.items ++ refusal_bytes reason.now) }
    ensures err { OnErr result (out.new.items ≡ out.old.items) }
    ensures full { OnErr result
        (vec_capacity out.old < vec_len out.old + length (refusal_bytes reason.now)) }
{
    let fields = [
        Field::Array(5),
        Field::Str(b"PONG"),
        Field::Bool(false),
        Field::Str(reason),
        Field::Str(b""),
        Field::Str(b""),
    ];
    put_fields(out, &fields)
}
