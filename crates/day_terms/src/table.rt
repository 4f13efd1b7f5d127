//! Reads the table of a day's file, checks its keys and finds the value at a key.
ghost use Rattle.std.specs.Prelude.{◌≡◌, IfErr, option_map};
ghost use Rattle.toml.specs.Data.{get_member};
ghost use Rattle.toml.specs.View.{table_view, view};
ghost use Rattle.day_terms.specs.Faults.{Gives};
ghost use Rattle.day_terms.specs.Keys.{key_text};
ghost use Rattle.day_terms.specs.Places.{IsPlaced};
ghost use Rattle.day_terms.specs.Tables.{known_keys, required, table_of};

use crate::day_key::is_key;
use crate::{DayFault, DayKey, SyntaxFault};
use std::alloc::Global;
use toml::{Table, Value};

/// Returns the table of a text.
#[tactic(auto, unfolding(crate::specs::Tables::table_of))]
pub(crate) fn table_of(alloc: Global, text: &[u8]) -> Result<Table, DayFault>
    ensures table { Gives table_view result (table_of text.now) }
    ensures place { IfErr result (IsPlaced text.now) }
{
    match toml::table_from_slice(alloc, text) {
        Ok(table) => Ok(table),
        Err(error) => match error.span() {
            Some(span) => Err(DayFault::Syntax(SyntaxFault::after(&text[..span.start], error))),
            None => Err(DayFault::OutOfMemory),
        },
    }
}

/// Checks that each key of a table is one of a day's file.
pub(crate) fn judge_keys(alloc: Global, table: &Table) -> Result<(), DayFault>
    ensures { Gives (λ all. all) result (known_keys (table_view table.now)) }
{
    for name in table.keys() {
        if !is_key(name.as_str()) {
            return Err(DayFault::Unknown(String::from_str(alloc, name.as_str())?));
        }
    }
    Ok(())
}

/// Returns the value at a key, if the table has it.
pub(crate) fn value_of(table: &Table, key: DayKey) -> Option<&Value>
    ensures { option_map (λ value. view value.now) result ≡ get_member (key_text key) (table_view table.now) }
{
    table.get(key.name())
}

/// Returns the value at a required key, or `Missing`.
#[tactic(auto, unfolding(crate::specs::Tables::required))]
pub(crate) fn required_of(table: &Table, key: DayKey) -> Result<&Value, DayFault>
    ensures { Gives (λ value. view value.now) result (required key (table_view table.now)) }
{
    value_of(table, key).ok_or(DayFault::Missing(key))
}
