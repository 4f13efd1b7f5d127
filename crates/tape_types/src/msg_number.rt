//! A message number, which a participant assigns to its message, kept in four bytes.
ghost use Rattle.std.specs.Prelude.{◌≡◌, ℕ, ◌↔◌, IsSome, IfSome};
ghost use Rattle.tape_types.specs.Ranges.{IsMessageNumber};

use crate::NumberKey;
use crate::four_bytes::FourBytes;
use std::marker::Model;

/// The number that a participant gave to its message, as the message's own number or as a target: any `u32` but 0.
#[derive(Clone, Copy, Debug, PartialEq, Eq, PartialOrd, Ord, Hash)]
pub struct MsgNumber {
    number: FourBytes,
}

impl Model for MsgNumber {
    ghost Value = { ℕ };

    ghost view = { λ m. m.number };

    ghost invariant = { λ m. IsMessageNumber m.number };

    ghost inverse = { λ n. record { number = n } };
}

impl MsgNumber {
    /// The message number, or `None` for 0.
    pub fn try_new(number: u32) -> Option<Self>
        ensures valid { IsSome result ↔ IsMessageNumber number }
        ensures value { IfSome result (λ m. m ≡ number) }
    {
        if number > 0 {
            Some(MsgNumber {
                number: FourBytes::new(number),
            })
        } else {
            None
        }
    }

    /// The number, from 1.
    pub fn value(self) -> u32
        ensures value { result ≡ self }
        ensures in_range { IsMessageNumber self }
    {
        self.number.value()
    }
}

impl NumberKey for MsgNumber {
    ghost number = { λ n. n };

    fn number(self) -> u32 {
        self.value()
    }
}
