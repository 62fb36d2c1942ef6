//! What holds of the definitions alone. These functions do nothing: each stands for its clause.

ghost use Rattle.tag_pattern.specs.Grammar.{SlotsAreUnique};
ghost use Rattle.tag_pattern.specs.Parts.{PartsAreUnique};
ghost use Rattle.tag_pattern.specs.Patterns.{CommonTagMeets, FitsIsSubset};
ghost use Rattle.tag_pattern.specs.Prefixes.{PrefixedTagsAreOfPrefixed};

/// Each tag has one list of parts, and each non-empty list of texts without dots is that of one
/// tag.
pub fn parts_are_unique()
    ensures { PartsAreUnique }
{}

/// Each text is spelled by one list of slots at most, so that it stands for one list of plain
/// patterns.
pub fn slots_are_unique()
    ensures { SlotsAreUnique }
{}

/// Each tag of a pattern that fits another is a tag of that other.
pub fn fits_is_subset()
    ensures { FitsIsSubset }
{}

/// Two patterns with a common tag meet.
pub fn common_tag_meets()
    ensures { CommonTagMeets }
{}

/// A tag is one of a pattern's exactly where the prefixed tag is one of the prefixed pattern's.
pub fn prefixed_tags_are_of_prefixed()
    ensures { PrefixedTagsAreOfPrefixed }
{}
