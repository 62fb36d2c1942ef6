//! The scopes that events go to, by their labels.

ghost use Rattle.std.specs.Prelude.{◌≡◌, ◌+◌, map};
ghost use Rattle.std.specs.List.{position_or_len};
ghost use Rattle.std.specs.Option.{option_copied};
ghost use Rattle.std.specs.Str.{bytes_eq};
ghost use Rattle.conf_text.specs.Views.{tree_of};
ghost use Rattle.relay_conf.specs.Labels.{labels_of};
ghost use Rattle.relay_conf.specs.Targets.{target_of};

use crate::element::{argument_of, is_named};
use crate::relay::ScopeNo;
use conf_text::Element;
use std::alloc::Allocator;

/// The scope that events go to: a label's, or the main one where none is named.
pub(crate) fn target<A: Allocator>(elements: &[Element<A>], name: Option<&str>) -> ScopeNo
    ensures { result.0 ≡ target_of (map tree_of elements.now) (option_copied name.entry) }
{
    match name {
        None => ScopeNo(0),
        Some(name) => ScopeNo(scope_of(elements, name)),
    }
}

// The place of a label's scope, behind the main one.
fn scope_of<A: Allocator>(elements: &[Element<A>], name: &str) -> usize
    ensures { result
        ≡ 1 + position_or_len (λ label. bytes_eq label name.now)
        (labels_of (map tree_of elements.now)) }
{
    let mut number = 1;
    for element in elements {
        if is_named(element, "label") {
            if argument_of(element) == name {
                return number;
            }
            number += 1;
        }
    }
    number
}
