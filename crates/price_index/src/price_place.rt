//! A price with a place, kept in eight bytes and compared as one number.
ghost use Rattle.std.specs.Prelude.{◌≡◌};
ghost use Rattle.std.specs.Ordering.{eq_by_cmp, as_partial_cmp};
ghost use Rattle.std.specs.Cmp.{eq_by_cmp_equiv, partial_equiv_from_equiv, partial_order_from_total};
ghost use Rattle.std.proofs.Common.{rules};
ghost use Rattle.price_index.specs.Pairs.{rank};
ghost use Rattle.tape_types.specs.Lemmas.Pairs.{pair_total};
ghost use Rattle.tape_types.specs.Pairs.{pair_cmp};
ghost use Rattle.tape_types.specs.Ranges.{IsTapeNumber};

use crate::three_bytes::{THREE_BYTE_NUMBERS, ThreeBytes};
use std::cmp::Ordering;
use std::marker::Model;
use tape_types::{Price, TapeNumber};

/// A price with a place where a report has it, ordered by price and then by place.
///
/// Both are kept in eight bytes, those of the place below those of the price, so that each pair is compared as one number.
#[derive(Clone, Copy)]
pub struct PricePlace {
    /// The number of places before this one.
    before: ThreeBytes,
    price: Price,
}

impl Model for PricePlace {
    ghost use Rattle.std.specs.Prelude.{ℕ, ◌+◌, ◌-◌};
    ghost use Rattle.tape_types.specs.Ranges.{IsTapeNumber};

    ghost Value = { ℕ × ℕ };

    ghost view = { λ k. (k.price, k.before + 1) };

    ghost invariant = { λ k. IsTapeNumber (k.before + 1) };

    ghost inverse = { λ p. record { before = p.1 - 1; price = p.0 } };
}

impl PricePlace {
    /// The price with the place.
    #[inline(always)]
    pub fn new(price: Price, place: TapeNumber) -> Self
        ensures value { result ≡ (price, place) }
    {
        PricePlace {
            before: ThreeBytes::new(place.value() - 1),
            price,
        }
    }

    /// The price and the place.
    pub fn pair(self) -> (Price, TapeNumber)
        ensures value { result ≡ self }
    {
        let place = TapeNumber::try_new(self.before.value() + 1).unwrap();
        (self.price, place)
    }

    /// The price.
    pub fn price(self) -> Price
        ensures value { result ≡ self.0 }
    {
        self.price
    }

    /// A number that is less for a lower price, and for an earlier place of the same price, since a place is a tape number.
    /// The compiler reads it as the eight bytes at once.
    #[inline(always)]
    fn rank(self) -> u64
        ensures value { result ≡ rank self }
        ensures placed { IsTapeNumber self.1 }
    {
        u64::from(self.before.value()) + THREE_BYTE_NUMBERS * self.price.value()
    }
}

impl PartialEq for PricePlace {
    ghost eq = { eq_by_cmp pair_cmp };

    ghost laws = { partial_equiv_from_equiv (eq_by_cmp_equiv pair_total) };

    fn eq(&self, other: &PricePlace) -> bool {
        self.rank() == other.rank()
    }
}

impl Eq for PricePlace {
    ghost laws = { eq_by_cmp_equiv pair_total };
}

impl PartialOrd for PricePlace {
    ghost partial_cmp = { as_partial_cmp pair_cmp };

    ghost laws = { partial_order_from_total pair_total };

    fn partial_cmp(&self, other: &PricePlace) -> Option<Ordering> {
        Some(self.cmp(other))
    }
}

impl Ord for PricePlace {
    ghost cmp = { pair_cmp };

    ghost total = { pair_total };

    ghost matches_partial_cmp = { Prim.search (rules) };

    ghost matches_eq = { Prim.search (rules) };

    #[inline(always)]
    fn cmp(&self, other: &PricePlace) -> Ordering {
        // Two tests of numbers, since the compiler would keep the result of `Ord::cmp` as a value and test it again.
        let rank = self.rank();
        let other_rank = other.rank();
        if rank > other_rank {
            Ordering::Greater
        } else if rank < other_rank {
            Ordering::Less
        } else {
            Ordering::Equal
        }
    }
}
