//! The errors of a day's file, each with the text that it prints.
ghost use Rattle.std.specs.Prelude.{◌≡◌};
ghost use Rattle.day_terms.specs.declared.day_fault.DayFault.TheVariants.{OutOfMemory};

use crate::{DayKey, FilePlace, SyntaxFault, ValueKind};
use std::alloc::{AllocError, AllocFailed};
use tape_types::ListingFault;
use thiserror::Error;

/// Why a text is not a day's file, or names no day: the first fault. Unknown keys come first, in the order of their bytes, then
/// the keys of a day in the order of `DayKey`, then what two keys say together.
#[derive(Debug, Drop, Error)]
pub enum DayFault {
    /// The text is not TOML.
    #[error("{0}")]
    Syntax(SyntaxFault),
    /// The file has an unknown key.
    #[error("unknown key {0:?}")]
    Unknown(String),
    /// The file lacks a key.
    #[error("{0}: missing")]
    Missing(DayKey),
    /// A value is of another kind.
    #[error("{place}: {found}, not {wanted}", wanted = .place.kind_text())]
    OtherKind {
        /// Where the value stands.
        place: FilePlace,
        /// The kind of the value.
        found: ValueKind,
    },
    /// A value is out of its range, or a text is not a name of its kind.
    #[error("{0}: not {range}", range = .0.range_text())]
    OutOfRange(FilePlace),
    /// A list has no entry.
    #[error("{0}: empty")]
    Empty(DayKey),
    /// Line B does not have as many ports as line A.
    #[error("b: not as many ports as a")]
    Uneven,
    /// A port stands twice among those of lines A and B.
    #[error("a and b: a port stands twice")]
    PortTwice,
    /// The last participant's port would be past 65,535.
    #[error("port: the last participant's is past 65535")]
    PortPastLast,
    /// The symbols and the participants make no listing.
    #[error("{text}", text = names_text(*.0))]
    Names(ListingFault),
    /// The follower's place does not exist.
    #[error("follower {follower}: not 1 to {places}")]
    NoFollower {
        /// The place that was asked for.
        follower: u16,
        /// The number of places.
        places: usize,
    },
    /// Memory ran out.
    #[error("out of memory")]
    OutOfMemory,
}

/// Returns the text that says why names make no listing.
fn names_text(fault: ListingFault) -> &'static str {
    match fault {
        ListingFault::Empty => "no symbol or no participant",
        ListingFault::TooMany => "more than 4096 symbols or 26 participants",
        ListingFault::Repeated => "a symbol or a participant stands twice",
        ListingFault::OutOfMemory => "out of memory",
    }
}

impl From<AllocError> for DayFault {
    ghost from_gives = { λ _ fault. fault ≡ OutOfMemory };

    fn from(_refused: AllocError) -> DayFault {
        DayFault::OutOfMemory
    }
}

impl<T: Drop> From<AllocFailed<T>> for DayFault {
    ghost from_gives = { λ _ fault. fault ≡ OutOfMemory };

    fn from(_refused: AllocFailed<T>) -> DayFault {
        DayFault::OutOfMemory
    }
}
