//! The place of a value in a day's file, as a fault names it.

use crate::DayKey;
use std::fmt;

/// A place in a day's file, or in the file of its symbols.
#[derive(Clone, Copy, Debug, PartialEq, Eq)]
pub enum FilePlace {
    /// The value at a key.
    At(DayKey),
    /// An entry of the list at a key, from 1.
    Entry(DayKey, usize),
    /// A line of the file of the symbols, from 1.
    Line(usize),
}

impl FilePlace {
    /// Returns the key that the place belongs to.
    fn key(self) -> DayKey {
        match self {
            FilePlace::At(key) | FilePlace::Entry(key, _) => key,
            FilePlace::Line(_) => DayKey::Symbols,
        }
    }

    /// Returns the kind of value that has to stand there, in words.
    pub(crate) fn kind_text(self) -> &'static str {
        match self {
            FilePlace::At(DayKey::Symbols) => "a list or a file's name",
            FilePlace::At(DayKey::Control) => "a number or a path",
            FilePlace::At(DayKey::Journal) => "a path",
            FilePlace::At(DayKey::JournalSync) => "a boolean",
            FilePlace::At(DayKey::Participants | DayKey::A | DayKey::B) => "a list",
            FilePlace::Entry(DayKey::Symbols | DayKey::Participants, _) | FilePlace::Line(_) =>
                "a string",
            FilePlace::At(_) | FilePlace::Entry(_, _) => "a number",
        }
    }

    /// Returns the values that may stand there, in words.
    pub(crate) fn range_text(self) -> &'static str {
        self.key().range_text()
    }
}

impl fmt::Display for FilePlace {
    fn fmt<W: fmt::Write>(&self, f: &mut fmt::Formatter<W>) -> fmt::Result {
        match self {
            FilePlace::At(key) => write!(f, "{key}"),
            FilePlace::Entry(key, entry) => write!(f, "{key}, entry {entry}"),
            FilePlace::Line(line) => write!(f, "{}, line {line}", DayKey::Symbols),
        }
    }
}
