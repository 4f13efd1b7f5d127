//! A participant, kept as its capital letter, and its index in a row by letter.
ghost use Rattle.std.specs.Prelude.{◌≡◌, ◌+◌, ◌<◌, ℕ, ◌↔◌, IsSome, IfSome};
ghost use Rattle.tape_types.specs.Ranges.{FIRST_PARTICIPANT, IsParticipant, PARTICIPANTS_MOST, row_index};

use std::marker::Model;

/// A participant, by its letter: `A` to `Z`.
#[derive(Clone, Copy, Debug, PartialEq, Eq, PartialOrd, Ord, Hash)]
pub struct Participant {
    letter: u8,
}

impl Model for Participant {
    ghost Value = { ℕ };

    ghost view = { λ p. p.letter };

    ghost invariant = { λ p. IsParticipant p.letter };

    ghost inverse = { λ n. record { letter = n } };
}

/// The participant `A`.
impl Default for Participant {
    fn default() -> Participant {
        Participant { letter: b'A' }
    }
}

impl Participant {
    /// The participant of the letter, or `None` if it is not a capital letter.
    pub fn try_new(letter: u8) -> Option<Self>
        ensures valid { IsSome result ↔ IsParticipant letter }
        ensures value { IfSome result (λ p. p ≡ letter) }
    {
        if letter.is_ascii_uppercase() {
            Some(Participant { letter })
        } else {
            None
        }
    }

    /// The letter, as its byte.
    pub fn value(self) -> u8
        ensures value { result ≡ self }
        ensures in_range { IsParticipant self }
    {
        self.letter
    }

    /// Its index in a row that has one element for each letter: 0 for `A`, up to 25.
    pub fn row_index(self) -> usize
        ensures index { result ≡ row_index self }
        ensures letter { result + FIRST_PARTICIPANT ≡ self }
        ensures within { result < PARTICIPANTS_MOST }
    {
        usize::from(self.letter - b'A')
    }
}
