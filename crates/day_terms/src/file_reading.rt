//! Reads a day's file key by key, and returns the day or the first fault.
ghost use Rattle.std.specs.Prelude.{◌≡◌, ◌<◌, ◌≤◌, ◌^◌, Err, IfErr, option_map, string_bytes};
ghost use Rattle.toml.specs.View.{table_view, view};
ghost use Rattle.day_terms.specs.Days.{control_at, control_in, control_view, day_in, day_of, day_view, journal_at, journal_in, limit_in, matrix_in, number_in, ports_in, seconds_in, symbols_at, symbols_view, sync_in};
ghost use Rattle.day_terms.specs.Faults.{Gives, syntax};
ghost use Rattle.day_terms.specs.Keys.{key_most};
ghost use Rattle.day_terms.specs.Places.{IsPlaced};
ghost use Rattle.day_terms.specs.Tables.{table_of};

use crate::boolean::boolean_of;
use crate::entry::{entries_of, text_of};
use crate::number::{number_of, short_of};
use crate::ports::share_a_port;
use crate::table::{judge_keys, required_of, table_of, value_of};
use crate::terms::{LIMIT_LEFT_OUT, PORTS};
use crate::{DayControl, DayFault, DayFile, DayKey, DaySymbols, FilePlace};
use sale_matrix::Matrix;
use std::alloc::Global;
use tape_types::TapeNumber;
use toml::{Table, Value};

/// Returns the symbols at their key.
#[tactic(auto, unfolding(crate::specs::Days::symbols_at))]
fn symbols_of(alloc: Global, value: &Value) -> Result<DaySymbols, DayFault>
    ensures { Gives symbols_view result (symbols_at (view value.now)) }
{
    match value.as_str() {
        Some(name) => Ok(DaySymbols::InFile(String::from_str(alloc, name)?)),
        None => Ok(DaySymbols::Listed(entries_of(alloc, DayKey::Symbols, value)?)),
    }
}

/// Returns the ports at a key.
#[tactic(auto, unfolding(crate::specs::Days::ports_in))]
fn ports_of(alloc: Global, table: &Table, key: DayKey) -> Result<Vec<u16>, DayFault>
    requires short { key_most key ≤ 65535 }
    ensures { Gives (λ ports. ports.items) result (ports_in key (table_view table.now)) }
{
    entries_of(alloc, key, required_of(table, key)?)
}

/// Returns the number of 16 bits at a key.
#[tactic(auto, unfolding(crate::specs::Days::number_in))]
fn short_in(table: &Table, key: DayKey) -> Result<u16, DayFault>
    requires short { key_most key ≤ 65535 }
    ensures { Gives (λ number. number) result (number_in key (table_view table.now)) }
{
    short_of(key, FilePlace::At(key), required_of(table, key)?)
}

/// Returns the session.
#[tactic(auto, unfolding(crate::specs::Days::number_in))]
fn session_in(table: &Table) -> Result<u64, DayFault>
    ensures { Gives (λ number. number) result (number_in DayKey.Session (table_view table.now)) }
{
    number_of(
        DayKey::Session,
        FilePlace::At(DayKey::Session),
        required_of(table, DayKey::Session)?,
    )
}

/// Returns the matrix, One if it is left out.
#[tactic(auto, unfolding(crate::specs::Days::matrix_in))]
fn matrix_in(table: &Table) -> Result<Matrix, DayFault>
    ensures { Gives (λ matrix. matrix) result (matrix_in (table_view table.now)) }
{
    let Some(value) = value_of(table, DayKey::Matrix) else {
        return Ok(Matrix::One);
    };
    match number_of(DayKey::Matrix, FilePlace::At(DayKey::Matrix), value)? {
        1 => Ok(Matrix::One),
        _ => Ok(Matrix::Two),
    }
}

/// Returns the limit, `LIMIT_LEFT_OUT` if it is left out.
#[tactic(auto, unfolding(crate::specs::Days::limit_in))]
fn limit_in(table: &Table) -> Result<TapeNumber, DayFault>
    ensures { Gives (λ limit. limit) result (limit_in (table_view table.now)) }
{
    let limit = match value_of(table, DayKey::Limit) {
        Some(value) => number_of(DayKey::Limit, FilePlace::At(DayKey::Limit), value)? as u32,
        None => LIMIT_LEFT_OUT,
    };
    TapeNumber::try_new(limit).ok_or(DayFault::OutOfRange(FilePlace::At(DayKey::Limit)))
}

/// Returns a number of seconds, if the table has its key.
#[tactic(auto, unfolding(crate::specs::Days::seconds_in))]
fn seconds_in(table: &Table, key: DayKey) -> Result<Option<u32>, DayFault>
    requires short { key_most key < 2 ^ 32 }
    ensures { Gives (λ seconds. seconds) result (seconds_in key (table_view table.now)) }
{
    match value_of(table, key) {
        Some(value) => Ok(Some(number_of(key, FilePlace::At(key), value)? as u32)),
        None => Ok(None),
    }
}

/// Returns where the control socket is, from the value at its key.
#[tactic(auto, unfolding(crate::specs::Days::control_at))]
fn control_at(alloc: Global, value: &Value) -> Result<DayControl, DayFault>
    ensures { Gives control_view result (control_at (view value.now)) }
{
    let place = FilePlace::At(DayKey::Control);
    match value.as_str() {
        Some("") => Err(DayFault::OutOfRange(place)),
        Some(path) => Ok(DayControl::Path(String::from_str(alloc, path)?)),
        None => Ok(DayControl::Port(short_of(DayKey::Control, place, value)?)),
    }
}

/// Returns where the control socket is, if the table has its key.
#[tactic(auto, unfolding(crate::specs::Days::control_in))]
fn control_in(alloc: Global, table: &Table) -> Result<Option<DayControl>, DayFault>
    ensures { Gives (λ control. option_map control_view control) result (control_in (table_view table.now)) }
{
    match value_of(table, DayKey::Control) {
        Some(value) => Ok(Some(control_at(alloc, value)?)),
        None => Ok(None),
    }
}

/// Returns the path of the journal, from the value at its key.
#[tactic(auto, unfolding(crate::specs::Days::journal_at))]
fn journal_at(alloc: Global, value: &Value) -> Result<String, DayFault>
    ensures { Gives string_bytes result (journal_at (view value.now)) }
{
    let place = FilePlace::At(DayKey::Journal);
    match text_of(place, value)? {
        "" => Err(DayFault::OutOfRange(place)),
        path => Ok(String::from_str(alloc, path)?),
    }
}

/// Returns the path of the journal, if the table has its key.
#[tactic(auto, unfolding(crate::specs::Days::journal_in))]
fn journal_in(alloc: Global, table: &Table) -> Result<Option<String>, DayFault>
    ensures { Gives (λ path. option_map string_bytes path) result (journal_in (table_view table.now)) }
{
    match value_of(table, DayKey::Journal) {
        Some(value) => Ok(Some(journal_at(alloc, value)?)),
        None => Ok(None),
    }
}

/// Returns whether the journal is synced, which it is if the key is left out.
#[tactic(auto, unfolding(crate::specs::Days::sync_in))]
fn sync_in(table: &Table) -> Result<bool, DayFault>
    ensures { Gives (λ is_synced. is_synced) result (sync_in (table_view table.now)) }
{
    match value_of(table, DayKey::JournalSync) {
        Some(value) => boolean_of(FilePlace::At(DayKey::JournalSync), value),
        None => Ok(true),
    }
}

/// Returns the day of a table of known keys.
#[tactic(auto, unfolding(crate::specs::Days::day_in))]
fn day_in(alloc: Global, table: &Table) -> Result<DayFile, DayFault>
    ensures { Gives day_view result (day_in (table_view table.now)) }
{
    let symbols = symbols_of(alloc, required_of(table, DayKey::Symbols)?)?;
    let participants = entries_of(
        alloc,
        DayKey::Participants,
        required_of(table, DayKey::Participants)?,
    )?;
    let port = short_in(table, DayKey::Port)?;
    let a = ports_of(alloc, table, DayKey::A)?;
    let b = ports_of(alloc, table, DayKey::B)?;
    let retransmission = short_in(table, DayKey::Retransmission)?;
    let followers = short_in(table, DayKey::Followers)?;
    let session = session_in(table)?;
    let matrix = matrix_in(table)?;
    let limit = limit_in(table)?;
    let connect_within = seconds_in(table, DayKey::ConnectWithin)?;
    let followers_wait = seconds_in(table, DayKey::FollowersWait)?;
    let control = control_in(alloc, table)?;
    let journal = journal_in(alloc, table)?;
    let journal_sync = sync_in(table)?;
    if b.len() != a.len() {
        return Err(DayFault::Uneven);
    }
    if share_a_port(alloc, &a, &b)? {
        return Err(DayFault::PortTwice);
    }
    if participants.len() > PORTS - usize::from(port) {
        return Err(DayFault::PortPastLast);
    }
    Ok(DayFile {
        symbols,
        participants,
        port,
        a,
        b,
        retransmission,
        followers,
        session,
        matrix,
        limit,
        connect_within,
        followers_wait,
        control,
        journal,
        journal_sync,
    })
}

/// Returns what the text of a day's file says, or its first fault. The fault of a text that is not TOML names a place in it.
#[tactic(auto, unfolding(crate::specs::Days::day_of))]
pub fn read_day(alloc: Global, text: &[u8]) -> Result<DayFile, DayFault>
    ensures day { Gives day_view result (day_of text.now) }
    ensures place { table_of text.now ≡ Err syntax → IfErr result (IsPlaced text.now) }
{
    let table = table_of(alloc, text)?;
    judge_keys(alloc, &table)?;
    day_in(alloc, &table)
}
