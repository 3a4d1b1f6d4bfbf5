//! Numbers of 64 bits that are aligned to 32.
ghost use Rattle.std.specs.Prelude.{◌≡◌};

use std::marker::Model;

/// A number of 64 bits that lies where one of 32 bits may, so that no gap is left before it in a
/// slot.
#[derive(Clone, Copy)]
pub struct Packed {
    low: u32,
    high: u32,
}

impl Model for Packed {
    ghost use Rattle.std.specs.Prelude.{ℕ, ◌+◌, ◌*◌, ◌^◌, ◌%◌, ◌/◌, ◌<◌};
    ghost use Rattle.std.specs.Coded.{coded_ℕ};

    ghost Value = { ℕ };

    ghost coded = { coded_ℕ };

    ghost view = { λ a. a.low + a.high * 2 ^ 32 };

    ghost invariant = { λ a. a.low < 2 ^ 32 };

    ghost inverse = { λ n. record { low = n % 2 ^ 32; high = n / 2 ^ 32 } };
}

impl Packed {
    /// A number.
    pub fn of(number: u64) -> Packed
        ensures { result ≡ number }
    {
        Packed {
            low: (number & 0xFFFF_FFFF) as u32,
            high: (number >> 32) as u32,
        }
    }

    /// The number.
    pub fn get(self) -> u64
        ensures { result ≡ self }
    {
        self.low as u64 + ((self.high as u64) << 32)
    }
}
