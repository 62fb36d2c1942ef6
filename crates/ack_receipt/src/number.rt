//! The numbers of deliveries.

ghost use Rattle.std.specs.Prelude.{◌≡◌, ◌+◌, ◌<◌, ◌^◌, ◌↔◌, IsSome, IfSome, IfNone};

use std::marker::Model;

/// The number of one delivery, which no other delivery of the relay has. Contracts see the number.
///
/// It can't be copied, and `Numbers` alone makes one.
#[derive(Drop)]
pub struct DeliveryNo(u64);

impl Model for DeliveryNo {
    ghost use Rattle.std.specs.Prelude.{ℕ};

    ghost Value = { ℕ };

    ghost view = { λ n. n.0 };
}

impl DeliveryNo {
    /// The number itself.
    pub fn get(&self) -> u64
        ensures { result ≡ self.now }
    {
        self.0
    }
}

/// The numbers that deliveries still can have; a relay needs one such source. Contracts see how
/// many were given.
#[derive(Drop)]
pub struct Numbers {
    next: Option<u64>,
}

impl Model for Numbers {
    ghost use Rattle.std.specs.Prelude.{ℕ};
    ghost use Rattle.ack_receipt.specs.Drawing.{given_before};

    ghost Value = { ℕ };

    ghost view = { λ numbers. given_before numbers.next };
}

impl Numbers {
    /// None was given.
    pub fn new() -> Self
        ensures { result ≡ 0 }
    {
        Numbers { next: Some(0) }
    }

    /// The next number: they go up from 0 by one. There is none once 2^64 - 1 was given.
    pub fn draw(&mut self) -> Option<DeliveryNo>
        ensures next { IfSome result (λ number. (number ≡ self.old) × (self.new ≡ self.old + 1)) }
        ensures none { IfNone result (self.new ≡ self.old) }
        ensures until { IsSome result ↔ (self.old < 2 ^ 64) }
    {
        let number = self.next?;
        self.next = number.checked_add(1);
        Some(DeliveryNo(number))
    }
}
