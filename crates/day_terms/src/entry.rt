//! Reads the lists of a day's file, entry by entry: symbols, participants and ports.
ghost use Rattle.std.specs.Prelude.{◌≡◌, Result};
ghost use Rattle.toml.specs.Data.{Data};
ghost use Rattle.toml.specs.View.{view};
ghost use Rattle.day_terms.specs.Faults.{Fault, Gives};
ghost use Rattle.day_terms.specs.declared.place.FilePlace.{FilePlace};
ghost use Rattle.day_terms.specs.Entries.{entries_at, text_at};

use crate::number::short_of;
use crate::{DayFault, DayKey, FilePlace, ValueKind};
use std::alloc::Global;
use tape_types::{Participant, Symbol};
use toml::Value;

/// What can stand in a list of a day's file.
pub(crate) trait ListEntry: Copy {
    /// The entry that a value is at a place, or its fault.
    ghost entry: { FilePlace → Data → Result Self Fault };

    /// Returns the entry that a value is, or its fault at the place.
    fn of_value(place: FilePlace, value: &Value) -> Result<Self, DayFault>
        ensures { Gives (λ entry. entry) result (entry place (view value.now)) };
}

impl ListEntry for Symbol {
    ghost use Rattle.day_terms.specs.Entries.{symbol_at};

    ghost entry = { symbol_at };

    fn of_value(place: FilePlace, value: &Value) -> Result<Symbol, DayFault> {
        Symbol::of_name(text_of(place, value)?.as_bytes()).ok_or(DayFault::OutOfRange(place))
    }
}

impl ListEntry for Participant {
    ghost use Rattle.day_terms.specs.Entries.{participant_at};

    ghost entry = { participant_at };

    fn of_value(place: FilePlace, value: &Value) -> Result<Participant, DayFault> {
        match text_of(place, value)?.as_bytes() {
            [letter] => Participant::try_new(*letter).ok_or(DayFault::OutOfRange(place)),
            _ => Err(DayFault::OutOfRange(place)),
        }
    }
}

/// A port.
impl ListEntry for u16 {
    ghost use Rattle.day_terms.specs.Entries.{port_at};

    ghost entry = { port_at };

    fn of_value(place: FilePlace, value: &Value) -> Result<u16, DayFault> {
        short_of(DayKey::Port, place, value)
    }
}

/// Returns the text that a value is.
pub(crate) fn text_of(place: FilePlace, value: &Value) -> Result<&str, DayFault>
    ensures { Gives (λ text. text.now) result (text_at place (view value.now)) }
{
    match value.as_str() {
        Some(text) => Ok(text),
        None => Err(DayFault::OtherKind {
            place,
            found: ValueKind::of(value),
        }),
    }
}

/// Returns the entries of the list at a key, of which there is one or more.
pub(crate) fn entries_of<E: ListEntry>(
    alloc: Global,
    key: DayKey,
    value: &Value,
) -> Result<Vec<E>, DayFault>
    ensures { Gives (λ entries. entries.items) result (entries_at E.entry key (view value.now)) }
{
    let Some(list) = value.as_array() else {
        return Err(DayFault::OtherKind {
            place: FilePlace::At(key),
            found: ValueKind::of(value),
        });
    };
    if list.is_empty() {
        return Err(DayFault::Empty(key));
    }
    let mut entries = Vec::new(alloc);
    for item in list {
        entries.push(E::of_value(FilePlace::Entry(key, entries.len() + 1), item)?)?;
    }
    Ok(entries)
}
