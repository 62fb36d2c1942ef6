//! What is told of a state and of an answer, as one number.

// An odd number, so that two that are told one for the other always end in other sums.
const STRIDE: u64 = 0x9e37_79b9_7f4a_7c15;

/// A sum over numbers that tell something, in their order.
#[derive(Clone, Copy)]
pub struct Told {
    sum: u64,
}

impl Told {
    /// Nothing is told.
    pub fn new() -> Told {
        Told { sum: 0 }
    }

    /// Tells these bytes.
    pub fn bytes(&mut self, bytes: &[u8]) {
        self.number(bytes.len() as u64);
        for byte in bytes {
            self.number(u64::from(*byte));
        }
    }

    /// Tells a number.
    pub fn number(&mut self, number: u64) {
        self.sum = self
            .sum
            .wrapping_add(1)
            .wrapping_mul(STRIDE)
            .wrapping_add(number);
    }

    /// Whether the same is told here.
    pub fn is(self, other: Told) -> bool {
        self.sum == other.sum
    }
}
