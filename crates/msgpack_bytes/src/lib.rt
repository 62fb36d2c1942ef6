//! MessagePack items in bytes: where one ends, what its header says, and how one is written.
#![tactic(auto)]

mod answers;
mod format;
mod front;
mod heads;
mod laws;
mod names;
mod number;
mod scanner;
mod steps;
mod table;
mod whole;
mod writer;

pub use answers::{Head, MsgFault, PieceScan, Scan};
pub use front::{
    after_text, array_of, is_item, is_text, map_of, next_bool, next_item, next_text, str_or_bin,
};
pub use heads::head;
pub use laws::{
    long_only, open_for_zeros, parts, prefix_free, read_by_recursion, spelled_shortest,
};
pub use names::last_value;
pub use scanner::Scanner;
pub use whole::{item_end, scan};
pub use writer::{put_array, put_bin, put_bool, put_map, put_str, put_uint};
