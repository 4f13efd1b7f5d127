//! A symbol in eight bytes, padded with spaces, and compared and hashed whole.
ghost use Rattle.std.specs.Prelude.{◌≡◌, ◌≤◌, ℕ, List, [], ◌∷◌, length, All, ◌↔◌, IsSome, IfSome, IsTrue};
ghost use Rattle.std.specs.Cmp.Rules.{comparing, hashing};
ghost use Rattle.std.proofs.Common.{rules};
ghost use Rattle.tape_types.specs.Names.{symbol_eq, symbol_named};
ghost use Rattle.tape_types.specs.Ranges.{IsSymbol, is_name_byte, name_of};

use std::hash::{Hash, Hasher};
use std::marker::Model;

/// A symbol: a name of one to eight characters, each `A` to `Z`, `0` to `9` or `.`, padded with spaces to eight bytes.
#[derive(Clone, Copy, Debug, Eq, PartialOrd, Ord)]
pub struct Symbol {
    bytes: [u8; 8],
}

impl Model for Symbol {
    ghost Value = { List ℕ };

    ghost view = { λ s. s.bytes };

    ghost invariant = { λ s. IsSymbol s.bytes };

    ghost inverse = { λ b. record { bytes = b } };
}

/// The symbol `A`.
impl Default for Symbol {
    fn default() -> Symbol {
        Symbol {
            bytes: *b"A       ",
        }
    }
}

impl Symbol {
    /// The symbol that the eight bytes spell, or `None` if they spell none.
    pub fn try_new(bytes: [u8; 8]) -> Option<Self>
        ensures valid { IsSome result ↔ IsSymbol bytes }
        ensures value { IfSome result (λ s. s ≡ bytes) }
    {
        let name_len = name_length(&bytes);
        if name_len > 0 && is_padding(&bytes[name_len..]) {
            Some(Symbol { bytes })
        } else {
            None
        }
    }

    /// The symbol of a name without padding, or `None` if it is not a name of one to eight bytes.
    pub fn of_name(name: &[u8]) -> Option<Self>
        ensures named { result ≡ symbol_named name.now }
    {
        if name.len() > 8 {
            return None;
        }
        let mut bytes = [b' '; 8];
        bytes[..name.len()].copy_from_slice(name);
        let Some(symbol) = Symbol::try_new(bytes) else {
            return None;
        };
        // A space at the end of the name would pass for padding.
        if symbol.name() != name {
            return None;
        }
        Some(symbol)
    }

    /// The eight bytes: the name, padded with spaces.
    pub fn value(self) -> [u8; 8]
        ensures value { result ≡ self }
        ensures in_range { IsSymbol self }
    {
        self.bytes
    }

    /// The name: the bytes before the padding.
    pub fn name(&self) -> &[u8]
        ensures name { result.now ≡ name_of self.now }
    {
        &self.bytes[..name_length(&self.bytes)]
    }
}

// A symbol is looked up for every message: it is compared and hashed whole, since a derive would go byte by byte.
impl PartialEq for Symbol {
    ghost eq = { symbol_eq };

    ghost laws = { Prim.search (comparing, rules) };

    fn eq(&self, other: &Symbol) -> bool {
        u64::from_be_bytes(self.value()) == u64::from_be_bytes(other.value())
    }
}

impl Hash for Symbol {
    ghost hash_input = { λ bytes. bytes ∷ [] };

    ghost respects_eq = { Prim.search (hashing, rules) };

    fn hash<H: Hasher>(&self, state: &mut H) {
        state.write(&self.bytes);
    }
}

/// The number of bytes before the padding.
fn name_length(bytes: &[u8]) -> usize
    ensures length { result ≡ length (name_of bytes.now) }
    ensures within { result ≤ length bytes.now }
{
    bytes.iter().take_while(|b| is_name(**b)).count()
}

/// Whether all bytes are spaces.
fn is_padding(bytes: &[u8]) -> bool
    ensures { IsTrue result ↔ All (λ b. b ≡ 32) bytes.now }
{
    bytes.iter().all(|b| *b == b' ')
}

/// Whether a byte may stand in a name.
fn is_name(byte: u8) -> bool
    ensures { result ≡ is_name_byte byte }
{
    byte.is_ascii_uppercase() || byte.is_ascii_digit() || byte == b'.'
}
