//! The parts of a relay that stand by themselves: security and servers.

ghost use Rattle.std.specs.Prelude.{map, filter, IfOk, codes};
ghost use Rattle.std.specs.List.{AllZip};
ghost use Rattle.conf_text.specs.Views.{setting, tree_of};
ghost use Rattle.relay_conf.specs.Described.{IsSecurityOf, IsSecurityIn, IsServerOf};
ghost use Rattle.relay_conf.specs.Elements.{is_named, last_child};

use crate::defaults::DEFAULT_PORT;
use crate::element::{is_named, last_child, line_of, pairs_of};
use crate::output::Server;
use crate::relay::Security;
use crate::values::{port_or, text_or};
use conf_text::{Element, Pair};
use std::alloc::{AllocError, Allocator};

fn security<A: Allocator + Copy>(alloc: A, pairs: &[Pair<A>]) -> Result<Security<A>, AllocError>
    ensures { IfOk result (λ s. IsSecurityOf (map setting pairs.now) s) }
{
    Ok(Security {
        self_hostname: text_or(alloc, pairs, "self_hostname", "")?,
        shared_key: text_or(alloc, pairs, "shared_key", "")?,
    })
}

/// The last security section, if there is one.
pub(crate) fn security_in<A: Allocator + Copy>(
    alloc: A,
    children: &[Element<A>],
) -> Result<Option<Security<A>>, AllocError>
    ensures { IfOk result
        (λ found. IsSecurityIn (last_child (codes "security") (map tree_of children.now)) found) }
{
    match last_child(children, "security") {
        None => Ok(None),
        Some(element) => Ok(Some(security(alloc, pairs_of(element))?)),
    }
}

fn server<A: Allocator + Copy>(alloc: A, element: &Element<A>) -> Result<Server<A>, AllocError>
    ensures { IfOk result (λ s. IsServerOf (tree_of element.now) s) }
{
    let pairs = pairs_of(element);
    Ok(Server {
        host: text_or(alloc, pairs, "host", "")?,
        port: port_or(pairs, "port", DEFAULT_PORT),
        line: line_of(element),
    })
}

/// The servers among some elements.
pub(crate) fn servers<A: Allocator + Copy>(
    alloc: A,
    children: &[Element<A>],
) -> Result<Vec<Server<A>, A>, AllocError>
    ensures { IfOk result
        (λ found. AllZip (λ t s. IsServerOf t s)
        (filter (is_named (codes "server")) (map tree_of children.now)) found.items) }
{
    let mut found = Vec::new(alloc);
    for child in children {
        if is_named(child, "server") {
            found.push(server(alloc, child)?)?;
        }
    }
    Ok(found)
}
