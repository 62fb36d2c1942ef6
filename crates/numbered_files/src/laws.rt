//! What the names come to: no two numbers have one name.

ghost use Rattle.numbered_files.specs.Names.{NamesDiffer};

/// No two numbers of 32 bits have one name.
pub fn names_differ()
    ensures { NamesDiffer }
{}
