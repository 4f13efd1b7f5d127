//! A 24-bit number kept in three bytes without alignment.
ghost use Rattle.std.specs.Prelude.{◌≡◌, ◌<◌};
ghost use Rattle.price_index.specs.ThreeBytes.{THREE_BYTE_NUMBERS};

use std::marker::Model;

/// How many numbers three bytes hold.
pub const THREE_BYTE_NUMBERS: u64 = 16_777_216;

/// A number in its three bytes, the lowest first: 0 to 16,777,215.
#[derive(Clone, Copy)]
pub struct ThreeBytes {
    low: u8,
    middle: u8,
    high: u8,
}

impl Model for ThreeBytes {
    ghost use Rattle.std.specs.Prelude.{ℕ, ◌+◌, ◌*◌, ◌<◌, ◌/◌, ◌%◌};

    ghost Value = { ℕ };

    ghost view = { λ t. t.low + 256 * (t.middle + 256 * t.high) };

    ghost invariant = { λ t. (t.low < 256) × (t.middle < 256) × (t.high < 256) };

    ghost inverse = { λ n. record { low = n % 256; middle = n / 256 % 256; high = n / 65536 } };
}

impl ThreeBytes {
    /// The number in its three bytes.
    #[inline(always)]
    pub fn new(number: u32) -> Self
        requires few { number < THREE_BYTE_NUMBERS }
        ensures value { result ≡ number }
    {
        ThreeBytes {
            low: (number % 256) as u8,
            middle: (number / 256 % 256) as u8,
            high: (number / 65_536) as u8,
        }
    }

    /// The number.
    #[inline(always)]
    pub fn value(self) -> u32
        ensures value { result ≡ self }
        ensures few { result < THREE_BYTE_NUMBERS }
    {
        u32::from(self.low) + 256 * u32::from(self.middle) + 65_536 * u32::from(self.high)
    }
}
