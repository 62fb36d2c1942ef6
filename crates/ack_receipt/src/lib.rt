//! Receipts for what is stored: a message is acknowledged only where each buffer that it goes to
//! has stored it, and a chunk leaves its buffer only on evidence that it arrived. Behind the lock of
//! a shared buffer lies a buffer with its book.
#![tactic(auto)]

mod bell;
mod book_fault;
mod booked;
mod claim;
mod closed;
mod delivery;
mod evidence;
mod fault;
mod locked;
mod number;
mod past;
mod reserved;
mod shared;
mod takes;

pub use book_audit::{AuditError, BookFault, Leaf, Part, Stub};
pub use book_fault::PurgeFault;
pub use booked::{Booked, Noted, Waits};
pub use claim::Claim;
pub use closed::Closed;
pub use delivery::{Delivery, Unbegun};
pub use evidence::Evidence;
pub use fault::RedeemFault;
pub use locked::{GivenBack, GivenUp, Pending, Receipt, Unstaged};
pub use number::{DeliveryNo, Numbers};
pub use past::Written;
pub use reserved::Reserved;
pub use shared::SharedBuffer;
pub use takes::{Basis, Takes};
