//! The value that a map has under a name.

ghost use Rattle.std.specs.Prelude.{◌≡◌, ℕ, List, IfSome, IsSomeAnd};
ghost use Rattle.msgpack_bytes.specs.Item.{IsItemWithin};
ghost use Rattle.msgpack_bytes.specs.Containers.{Pair, IsMapOf};
ghost use Rattle.msgpack_bytes.specs.Names.{IsLastValue};

use crate::front::{is_text, map_of, next_item};

/// The value of the map's last key of this name, which may be a str or a bin.
pub fn last_value<'a>(map: &'a [u8], name: &[u8]) -> Option<&'a [u8]>
    ensures right { IfSome result (λ value. (pairs : List Pair) × IsMapOf IsItemWithin pairs map.now
        × IsLastValue name.now pairs value.now) }
    ensures only { (pairs : List Pair) (value : List ℕ) → IsMapOf IsItemWithin pairs map.now
        → IsLastValue name.now pairs value → IsSomeAnd result (λ found. found.now ≡ value) }
{
    let (count, mut rest) = map_of(map)?;
    let mut last = None;
    for _ in 0..count {
        let (key, behind) = next_item(rest)?;
        let (value, behind) = next_item(behind)?;
        if is_text(key, name) {
            last = Some(value);
        }
        rest = behind;
    }
    if rest.is_empty() { last } else { None }
}
