//! Names of labels.

use conf_text::Element;
use conf_values::is_label_name;
use std::alloc::{AllocError, Allocator};

/// The name of a label, with `_` in place of what no label's name has.
pub(crate) fn label_name<A: Allocator>(alloc: A, name: &[u8]) -> Result<Vec<u8, A>, AllocError> {
    let mut found = Vec::new(alloc);
    for (place, byte) in name.iter().enumerate() {
        let stands = byte.is_ascii_alphanumeric() || (place == 0 && *byte == b'@');
        found.push(if stands { *byte } else { b'_' })?;
    }
    Ok(found)
}

/// The label that is aimed at by this name: by its adapted name where it has one.
pub(crate) fn target<A: Allocator + Copy>(
    alloc: A,
    elements: &[Element<A>],
    name: &[u8],
) -> Result<Vec<u8, A>, AllocError> {
    if is_label_name(name) || !has_label(elements, name) {
        return Vec::from_slice(alloc, name);
    }
    label_name(alloc, name)
}

// Whether a label has this name.
fn has_label<A: Allocator>(elements: &[Element<A>], name: &[u8]) -> bool {
    for element in elements {
        if element.name.as_str() == "label" && element.argument.as_bytes() == name {
            return true;
        }
    }
    false
}
