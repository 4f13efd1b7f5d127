//! A price in ten-thousandths of a dollar, kept in five bytes, and compared and hashed as a number.
ghost use Rattle.std.specs.Prelude.{◌≡◌, ◌==◌, Some, ◌↔◌, IsSome, IfSome};
ghost use Rattle.std.specs.Cmp.Rules.{comparing, hashing};
ghost use Rattle.std.specs.Hash as fed;
ghost use Rattle.std.specs.Ordering.{nat_cmp};
ghost use Rattle.std.proofs.Common.{rules};
ghost use Rattle.tape_types.specs.Ranges.{IsPrice};

use crate::PRICE_MOST;
use crate::four_bytes::{FOUR_BYTE_NUMBERS, FourBytes};
use std::cmp::Ordering;
use std::fmt;
use std::hash::{Hash, Hasher};
use std::marker::Model;

/// A price, in ten-thousandths of a dollar: 1 to `PRICE_MOST`.
///
/// Its forty bits are kept in five bytes, so that a price needs no alignment to eight bytes and a figure of a summary no
/// padding for it: a day keeps millions of them.
#[derive(Clone, Copy)]
pub struct Price {
    low: FourBytes,
    high: u8,
}

impl Model for Price {
    ghost use Rattle.std.specs.Prelude.{ℕ, ◌<◌};
    ghost use Rattle.tape_types.specs.Ranges.{IsPrice, FOUR_BYTE_NUMBERS, of_parts, low_part, high_part};

    ghost Value = { ℕ };

    ghost view = { λ p. of_parts p.low p.high };

    ghost invariant = { λ p. IsPrice (of_parts p.low p.high) × (p.low < FOUR_BYTE_NUMBERS) };

    ghost inverse = { λ n. record { low = low_part n; high = high_part n } };
}

impl Price {
    /// The price of this many ten-thousandths of a dollar, or `None` outside 1 to `PRICE_MOST`.
    pub fn try_new(ten_thousandths: u64) -> Option<Self>
        ensures valid { IsSome result ↔ IsPrice ten_thousandths }
        ensures value { IfSome result (λ p. p ≡ ten_thousandths) }
    {
        if (1..=PRICE_MOST).contains(&ten_thousandths) {
            Some(Price {
                low: FourBytes::new((ten_thousandths % FOUR_BYTE_NUMBERS) as u32),
                high: (ten_thousandths / FOUR_BYTE_NUMBERS) as u8,
            })
        } else {
            None
        }
    }

    /// The price in ten-thousandths of a dollar.
    pub fn value(self) -> u64
        ensures value { result ≡ self }
        ensures in_range { IsPrice self }
    {
        u64::from(self.low.value()) + FOUR_BYTE_NUMBERS * u64::from(self.high)
    }
}

impl PartialEq for Price {
    ghost eq = { λ a b. a == b };

    ghost laws = { Prim.search (comparing, rules) };

    fn eq(&self, other: &Price) -> bool {
        self.value() == other.value()
    }
}

impl Eq for Price {
    ghost laws = { Prim.search (comparing, rules) };
}

impl PartialOrd for Price {
    ghost partial_cmp = { λ a b. Some (nat_cmp a b) };

    ghost laws = { Prim.search (comparing, rules) };

    fn partial_cmp(&self, other: &Price) -> Option<Ordering> {
        Some(self.cmp(other))
    }
}

impl Ord for Price {
    ghost cmp = { nat_cmp };

    ghost total = { Prim.search (comparing, rules) };

    ghost matches_partial_cmp = { Prim.search (comparing, rules) };

    ghost matches_eq = { Prim.search (comparing, rules) };

    fn cmp(&self, other: &Price) -> Ordering {
        self.value().cmp(&other.value())
    }
}

impl Hash for Price {
    ghost hash_input = { fed.u64 };

    ghost respects_eq = { Prim.search (hashing, rules) };

    fn hash<H: Hasher>(&self, state: &mut H) {
        self.value().hash(state);
    }
}

impl fmt::Debug for Price {
    fn fmt<W: fmt::Write>(&self, f: &mut fmt::Formatter<W>) -> fmt::Result {
        write!(f, "Price({})", self.value())
    }
}
