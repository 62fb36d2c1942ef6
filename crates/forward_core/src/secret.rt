//! The name and key of a configuration, as handshakes show them.

ghost use Rattle.std.specs.Prelude.{◌≡◌, IfOk, OnErr};
ghost use Rattle.forward_core.specs.Handshakes.{IsHosted};
ghost use Rattle.forward_core.specs.Credentials.{HasLongName, credentials_in, credentials_of};

use crate::Security;
use auth_handshake::LONGEST_HOST;
use relay_conf::Security as Secret;
use std::alloc::{AllocError, Allocator};

/// What this end shows in a handshake, if there is one; `Err` where its name is too long for one.
pub fn security_of<A: Allocator>(secret: &Option<Secret<A>>) -> Result<Option<Security<'_>>, ()>
    ensures hosted { IfOk result IsHosted }
    ensures same { IfOk result (λ security. credentials_in security ≡ credentials_of secret.now) }
    ensures long { OnErr result (HasLongName (credentials_of secret.now)) }
{
    let Some(secret) = secret else {
        return Ok(None);
    };
    let self_hostname = secret.self_hostname.as_bytes();
    if self_hostname.len() > LONGEST_HOST {
        return Err(());
    }
    Ok(Some(Security {
        self_hostname,
        shared_key: secret.shared_key.as_bytes(),
    }))
}

/// The same name and key, in memory of their own.
pub fn secret_copy<A: Allocator + Copy, B: Allocator>(
    alloc: A,
    secret: &Option<Secret<B>>,
) -> Result<Option<Secret<A>>, AllocError>
    ensures { IfOk result (λ copy. credentials_of copy ≡ credentials_of secret.now) }
{
    match secret {
        None => Ok(None),
        Some(secret) => Ok(Some(Secret {
            self_hostname: String::from_str(alloc, secret.self_hostname.as_str())?,
            shared_key: String::from_str(alloc, secret.shared_key.as_str())?,
        })),
    }
}
