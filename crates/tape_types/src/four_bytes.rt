//! A 32-bit number kept in four bytes without alignment, and compared and hashed as a number.
ghost use Rattle.std.specs.Prelude.{◌≡◌, ◌==◌, Some};
ghost use Rattle.std.specs.Cmp.Rules.{comparing, hashing};
ghost use Rattle.std.specs.Hash as fed;
ghost use Rattle.std.specs.Ordering.{nat_cmp};
ghost use Rattle.std.proofs.Common.{rules};

use std::cmp::Ordering;
use std::fmt;
use std::hash::{Hash, Hasher};
use std::marker::Model;

/// How many numbers four bytes hold.
pub const FOUR_BYTE_NUMBERS: u64 = 4_294_967_296;

/// A number of 32 bits in its four bytes, the lowest first.
///
/// It needs no alignment to four bytes, so that what holds it has no padding for it: a day keeps millions of them. Longer
/// numbers are kept in two parts, of which the low one is such a number.
#[derive(Clone, Copy)]
pub struct FourBytes {
    bytes: [u8; 4],
}

impl Model for FourBytes {
    ghost use Rattle.std.specs.Prelude.{◌≡◌, ℕ, ◌<◌, length, get_or};
    ghost use Rattle.std.specs.Int.{w32, from_le_bytes, to_le_bytes};
    ghost use Rattle.std.proofs.Common.{ap, refl};
    ghost use Rattle.std.proofs.lemmas.Nat.{le_bytes_4};

    ghost Value = { ℕ };

    ghost view = { λ f. from_le_bytes w32 f.bytes };

    ghost invariant = { λ f. (length f.bytes ≡ 4) × ((i : ℕ) → get_or f.bytes i 0 < 256) };

    ghost inverse = { λ n. record { bytes = to_le_bytes w32 n } };

    ghost inverse_ok = { λ f h. ap (λ bytes. record { bytes = bytes }) (le_bytes_4 f.bytes (from_le_bytes w32 f.bytes) h.0 h.1 refl) };
}

impl FourBytes {
    /// The number in its four bytes.
    pub fn new(number: u32) -> Self
        ensures value { result ≡ number }
    {
        FourBytes {
            bytes: number.to_le_bytes(),
        }
    }

    /// The number.
    pub fn value(self) -> u32
        ensures value { result ≡ self }
    {
        u32::from_le_bytes(self.bytes)
    }
}

// A number is compared and hashed whole, since a derive would go byte by byte, and the lowest byte comes first.
impl PartialEq for FourBytes {
    ghost eq = { λ a b. a == b };

    ghost laws = { Prim.search (comparing, rules) };

    fn eq(&self, other: &FourBytes) -> bool {
        self.value() == other.value()
    }
}

impl Eq for FourBytes {
    ghost laws = { Prim.search (comparing, rules) };
}

impl PartialOrd for FourBytes {
    ghost partial_cmp = { λ a b. Some (nat_cmp a b) };

    ghost laws = { Prim.search (comparing, rules) };

    fn partial_cmp(&self, other: &FourBytes) -> Option<Ordering> {
        Some(self.cmp(other))
    }
}

impl Ord for FourBytes {
    ghost cmp = { nat_cmp };

    ghost total = { Prim.search (comparing, rules) };

    ghost matches_partial_cmp = { Prim.search (comparing, rules) };

    ghost matches_eq = { Prim.search (comparing, rules) };

    fn cmp(&self, other: &FourBytes) -> Ordering {
        self.value().cmp(&other.value())
    }
}

impl Hash for FourBytes {
    ghost hash_input = { fed.u32 };

    ghost respects_eq = { Prim.search (hashing, rules) };

    fn hash<H: Hasher>(&self, state: &mut H) {
        self.value().hash(state);
    }
}

impl fmt::Debug for FourBytes {
    fn fmt<W: fmt::Write>(&self, f: &mut fmt::Formatter<W>) -> fmt::Result {
        write!(f, "{}", self.value())
    }
}
