//! The parts of an element.

ghost use Rattle.std.specs.Prelude.{◌≡◌, map, Bool, ◌==◌, length};
ghost use Rattle.std.specs.List.{list_any};
ghost use Rattle.std.specs.Option.{option_copied, option_map};
ghost use Rattle.conf_text.specs.Views.{setting, tree_of};
ghost use Rattle.relay_conf.specs.Elements.{heading_of, settings_of, children_of, last_child, value_of, is_named};

use conf_text::{Element, Pair};
use std::alloc::Allocator;

/// The name of an element.
pub(crate) fn name_of<A: Allocator>(element: &Element<A>) -> &str
    ensures { result.now ≡ (heading_of (tree_of element.now)).name }
{
    element.name.as_str()
}

/// What stands behind the name of an element; nothing, where it is empty.
pub fn argument_of<A: Allocator>(element: &Element<A>) -> &str
    ensures { result.now ≡ (heading_of (tree_of element.now)).argument }
{
    element.argument.as_str()
}

/// The line of an element's opening, from 1.
pub fn line_of<A: Allocator>(element: &Element<A>) -> usize
    ensures { result ≡ (heading_of (tree_of element.now)).line }
{
    element.line
}

/// The parameters of an element, in the order of the text.
pub fn pairs_of<A: Allocator>(element: &Element<A>) -> &[Pair<A>]
    ensures { map setting result.now ≡ settings_of (tree_of element.now) }
{
    element.pairs.as_slice()
}

/// The elements in an element, in the order of the text.
pub fn children_of<A: Allocator>(element: &Element<A>) -> &[Element<A>]
    ensures { map tree_of result.now ≡ children_of (tree_of element.now) }
{
    element.children.as_slice()
}

/// Whether an element has this name.
pub fn is_named<A: Allocator>(element: &Element<A>, name: &str) -> bool
    ensures { result ≡ is_named name.now (tree_of element.now) }
{
    name_of(element) == name
}

/// The value in the last line of this name among some parameters, if there is one.
pub fn value_of<'a, A: Allocator>(pairs: &'a [Pair<A>], name: &str) -> Option<&'a str>
    ensures { option_copied result ≡ value_of name.now (map setting pairs.now) }
{
    let mut found = None;
    for pair in pairs {
        if pair.name.as_str() == name {
            found = Some(pair.value.as_str());
        }
    }
    found
}

/// The last of the elements of this name, if there is one.
pub(crate) fn last_child<'a, A: Allocator>(
    children: &'a [Element<A>],
    name: &str,
) -> Option<&'a Element<A>>
    ensures { option_map (λ e. tree_of e.now) result
        ≡ last_child name.now (map tree_of children.now) }
{
    let mut found = None;
    for child in children {
        if is_named(child, name) {
            found = Some(child);
        }
    }
    found
}
