//! What a first byte can say of its item, and the steps of a scan.

/// What a scalar is.
#[derive(Clone, Copy, Drop, PartialEq, Eq)]
pub enum Kind {
    Nil,
    Bool,
    PositiveFixint,
    NegativeFixint,
    Unsigned,
    Signed,
    Float,
    Str,
    Bin,
    Ext,
}

/// What holds other items.
#[derive(Clone, Copy, Drop, PartialEq, Eq)]
pub enum Container {
    Array,
    Map,
}

/// What follows a first byte.
#[derive(Clone, Copy, Drop, PartialEq, Eq)]
pub enum Shape {
    /// A scalar with a content of `size` bytes.
    Fixed {
        kind: Kind,
        size: usize,
    },
    /// A scalar with a length of `width` bytes, and `extra` bytes of content more than that length.
    Sized {
        kind: Kind,
        width: usize,
        extra: usize,
    },
    /// A container with so many entries.
    Holds {
        container: Container,
        count: u32,
    },
    /// A container with a count of `width` bytes.
    Counted {
        container: Container,
        width: usize,
    },
    /// Nothing: no item begins so.
    Never,
}

/// A part of the bytes, from the index `start` up to `end`.
#[derive(Clone, Copy, Drop, PartialEq, Eq)]
pub struct Span {
    pub start: usize,
    pub end: usize,
}

/// What a container's header says: how many entries it has, and where the first item begins.
#[derive(Clone, Copy, Drop, PartialEq, Eq)]
pub struct Count {
    pub count: u32,
    pub next: usize,
}

/// What the first bytes of an item tell, where those of its length or count that are missing count
/// as 0.
#[derive(Clone, Copy, Drop, PartialEq, Eq)]
pub enum Told {
    /// A scalar of so many bytes.
    Scalar(usize),
    /// A container of so many items, whose count has `width` bytes behind the first one.
    Container { items: u64, width: usize },
    /// No item.
    Nothing,
}

/// The next step of a scan; `size` and what is bare are counts of bytes.
#[derive(Clone, Copy, Drop, PartialEq, Eq)]
pub enum ScanStep {
    /// A whole scalar.
    Whole(usize),
    /// The header of a container of so many items.
    Opens { items: u64, size: usize },
    /// Not all of a scalar or a header; with its items it takes at least so many bytes.
    Lacks(usize),
    /// A container where none may stand.
    Deep,
    /// No item.
    Wrong,
}
