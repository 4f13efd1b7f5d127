//! The two versions of the format and their limits.
ghost use Rattle.std.specs.Prelude.{◌≡◌, ◌≤◌, ◌↔◌, IsTrue};
ghost use Rattle.tape_types.specs.Ranges.{TAPE_MOST};
ghost use Rattle.tape_frames.specs.Limits.{ENTRIES_MOST};
ghost use Rattle.tape_frames.specs.Versions.{CanBegin, entries_most, number_most, version_byte, version_of_byte};

use crate::limits::{ENTRIES_MOST, ENTRIES_MOST_ONE, NUMBER_MOST_ONE};
use tape_types::TAPE_MOST;

/// A version of the packet format. Both have the same fields; the second allows more entries in a packet and greater numbers.
#[derive(Clone, Copy, Debug, PartialEq, Eq)]
pub enum Version {
    /// Up to `ENTRIES_MOST_ONE` entries, and numbers up to `NUMBER_MOST_ONE`.
    One = 1,
    /// Up to `ENTRIES_MOST` entries, and numbers up to `TAPE_MOST`.
    Two = 2,
}

impl Version {
    /// The version as a packet's first byte.
    pub fn byte(self) -> u8
        ensures byte { result ≡ version_byte self }
    {
        self as u8
    }

    /// The version of a packet with this first byte, or `None` if it is neither 1 nor 2.
    pub(crate) fn of_byte(byte: u8) -> Option<Version>
        ensures version { result ≡ version_of_byte byte }
    {
        match byte {
            1 => Some(Version::One),
            2 => Some(Version::Two),
            _ => None,
        }
    }

    /// How many entries a packet has at most.
    pub fn entries_most(self) -> usize
        ensures value { result ≡ entries_most self }
        ensures some { 1 ≤ result }
        ensures few { result ≤ ENTRIES_MOST }
    {
        match self {
            Version::One => ENTRIES_MOST_ONE,
            Version::Two => ENTRIES_MOST,
        }
    }

    /// The greatest number in a packet: of an entry, a mark's place, a beat or an end.
    pub fn number_most(self) -> u32
        ensures value { result ≡ number_most self }
        ensures within { result ≤ TAPE_MOST }
    {
        match self {
            Version::One => NUMBER_MOST_ONE,
            Version::Two => TAPE_MOST,
        }
    }

    /// Whether a packet can begin with the entry of this tape number.
    pub fn can_begin(self, from: u32) -> bool
        ensures exact { IsTrue result ↔ CanBegin self from }
    {
        match self {
            Version::One => from <= NUMBER_MOST_ONE,
            Version::Two => true,
        }
    }
}
