//! The audit of a buffer's book: whether what is left of the deliveries accounts for each append,
//! once.
#![tactic(auto)]

mod auditing;
mod fault;
mod line;
mod pages;

pub use auditing::audit;
pub use fault::{AuditError, BookFault};
pub use line::{Leaf, Line, Part, Stub};
pub use pages::OpenLines;
