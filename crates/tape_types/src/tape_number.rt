//! A position on the tape, kept in four bytes.
ghost use Rattle.std.specs.Prelude.{◌≡◌, ℕ, ◌↔◌, IsSome, IfSome};
ghost use Rattle.tape_types.specs.Ranges.{IsTapeNumber};

use crate::four_bytes::FourBytes;
use crate::{NumberKey, TAPE_MOST};
use std::marker::Model;

/// A position on the tape: 1 to `TAPE_MOST`. A report's place is the tape number of its admission.
#[derive(Clone, Copy, Debug, PartialEq, Eq, PartialOrd, Ord, Hash)]
pub struct TapeNumber {
    position: FourBytes,
}

impl Model for TapeNumber {
    ghost Value = { ℕ };

    ghost view = { λ t. t.position };

    ghost invariant = { λ t. IsTapeNumber t.position };

    ghost inverse = { λ n. record { position = n } };
}

impl TapeNumber {
    /// The tape number, or `None` outside 1 to `TAPE_MOST`.
    pub fn try_new(position: u32) -> Option<Self>
        ensures valid { IsSome result ↔ IsTapeNumber position }
        ensures value { IfSome result (λ t. t ≡ position) }
    {
        if (1..=TAPE_MOST).contains(&position) {
            Some(TapeNumber {
                position: FourBytes::new(position),
            })
        } else {
            None
        }
    }

    /// The position, from 1.
    pub fn value(self) -> u32
        ensures value { result ≡ self }
        ensures in_range { IsTapeNumber self }
    {
        self.position.value()
    }
}

impl NumberKey for TapeNumber {
    ghost number = { λ n. n };

    fn number(self) -> u32 {
        self.value()
    }
}
