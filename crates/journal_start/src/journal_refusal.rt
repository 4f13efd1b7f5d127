//! The reasons why a journal is not continued.

use crate::comma_numbers::WithCommas;
use days::OtherTerm;
use std::fmt;

/// Why a journal is not continued. It is left unchanged. It prints without a line feed.
#[derive(Clone, Copy, Debug, PartialEq, Eq)]
pub enum JournalRefusal {
    /// The bytes do not begin as every journal does.
    NoJournal,
    /// It is a journal of another version.
    OtherVersion,
    /// It is the journal of another day.
    OtherDay(OtherTerm),
    /// Its header is damaged.
    HeaderDamaged,
    /// A group behind its header is damaged.
    Damaged {
        /// The number of the first entry that the group should have.
        first: u32,
        /// How many entries it should have by its own end, if that can be told.
        count: Option<u32>,
    },
}

/// Prints which entries are damaged: those of a group with this first entry, and `count` of them if that is known.
fn print_damage<W: fmt::Write>(
    f: &mut fmt::Formatter<W>,
    first: u32,
    count: Option<u32>,
) -> fmt::Result {
    let from = WithCommas(u64::from(first));
    match count {
        Some(count) if count > 1 => {
            let to = WithCommas(u64::from(first) + u64::from(count) - 1);
            write!(f, "entries {from} to {to} are damaged")
        }
        Some(1) => write!(f, "entry {from} is damaged"),
        _ => write!(f, "entries from {from} on are damaged"),
    }
}

impl fmt::Display for JournalRefusal {
    fn fmt<W: fmt::Write>(&self, f: &mut fmt::Formatter<W>) -> fmt::Result {
        match self {
            JournalRefusal::NoJournal => f.write_str("no journal"),
            JournalRefusal::OtherVersion => f.write_str("another version"),
            JournalRefusal::OtherDay(term) => write!(f, "{term}"),
            JournalRefusal::HeaderDamaged => f.write_str("its header is damaged"),
            JournalRefusal::Damaged { first, count } => print_damage(f, *first, *count),
        }
    }
}
