//! Reads a name of a listing as a symbol or a participant.
ghost use Rattle.std.specs.Prelude.{◌≡◌, List, ℕ, Option};

use crate::{Participant, Symbol};

/// A symbol or a participant, as a text names it. The default fills unused room.
pub trait Named: Copy + Default {
    /// What a text names, if anything.
    ghost named: { List ℕ → Option Self };

    /// Returns what a text names, or `None` if it is no such name.
    fn of_name(name: &[u8]) -> Option<Self>
        ensures names { result ≡ named name.now };
}

/// A symbol's name lacks the spaces at the symbol's end.
impl Named for Symbol {
    ghost use Rattle.tape_types.specs.Names.{symbol_named};

    ghost named = { symbol_named };

    fn of_name(name: &[u8]) -> Option<Symbol> {
        Symbol::of_name(name)
    }
}

/// A participant's name is its letter.
impl Named for Participant {
    ghost use Rattle.tape_types.specs.Header.{participant_named};

    ghost named = { participant_named };

    fn of_name(name: &[u8]) -> Option<Participant> {
        match name {
            [letter] => Participant::try_new(*letter),
            _ => None,
        }
    }
}
