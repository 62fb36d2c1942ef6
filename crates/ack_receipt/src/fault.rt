//! Why receipts aren't made.

use buffer_store::BufferFault;
use std::error::Error;
use std::fmt;

/// Why appends that wait for receipts get none.
#[derive(Clone, Copy, Debug, PartialEq, Eq)]
pub enum RedeemFault {
    /// `A1`: one of them is of another buffer.
    Stranger,
    /// What the buffer answers, by its code.
    Buffer(BufferFault),
}

impl fmt::Display for RedeemFault {
    fn fmt<W: fmt::Write>(&self, f: &mut fmt::Formatter<W>) -> fmt::Result {
        match self {
            RedeemFault::Stranger => write!(f, "A1"),
            RedeemFault::Buffer(fault) => write!(f, "{fault}"),
        }
    }
}

impl Error for RedeemFault {}
