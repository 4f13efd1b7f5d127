//! A number of shares, kept in four bytes.
ghost use Rattle.std.specs.Prelude.{◌≡◌, ℕ, ◌↔◌, IsSome, IfSome};
ghost use Rattle.tape_types.specs.Ranges.{IsSize};

use crate::SIZE_MOST;
use crate::four_bytes::FourBytes;
use std::marker::Model;

/// A number of shares: 1 to `SIZE_MOST`.
#[derive(Clone, Copy, Debug, PartialEq, Eq, PartialOrd, Ord, Hash)]
pub struct Size {
    shares: FourBytes,
}

impl Model for Size {
    ghost Value = { ℕ };

    ghost view = { λ s. s.shares };

    ghost invariant = { λ s. IsSize s.shares };

    ghost inverse = { λ n. record { shares = n } };
}

impl Size {
    /// A size of this many shares, or `None` outside 1 to `SIZE_MOST`.
    pub fn try_new(shares: u32) -> Option<Self>
        ensures valid { IsSome result ↔ IsSize shares }
        ensures value { IfSome result (λ s. s ≡ shares) }
    {
        if (1..=SIZE_MOST).contains(&shares) {
            Some(Size {
                shares: FourBytes::new(shares),
            })
        } else {
            None
        }
    }

    /// The number of shares.
    pub fn value(self) -> u32
        ensures value { result ≡ self }
        ensures in_range { IsSize self }
    {
        self.shares.value()
    }
}
