//! Finds the columns of a table by the names in its header row, and a row's fields by their columns.
ghost use Rattle.std.specs.Prelude.{◌≡◌};
ghost use Rattle.csv.specs.Records.{fields_of};
ghost use Rattle.csv_messages.specs.ColumnNames.{column_name};
ghost use Rattle.csv_messages.specs.Columns.{header_columns, header_fault, is_before, is_passed_over, is_remark, name_fault, place_of, required, row_text_of, text_at, text_or};
ghost use Rattle.csv_messages.specs.Laws.{IsFirstPlace};
ghost use Rattle.csv_messages.specs.RowTexts.{text_of_row};

use crate::tape_column::is_tape_column;
use crate::{Column, ColumnFault, FaultText, TableRow};
use csv::ByteRecord;

/// The place of each column of a table, by the names in its header row.
#[derive(Clone, Copy, Debug, PartialEq, Eq)]
pub struct Columns {
    kind: Option<usize>,
    participant: usize,
    number: usize,
    moment: Option<usize>,
    symbol: usize,
    target: Option<usize>,
    price: usize,
    size: usize,
    condition: usize,
    width: usize,
}

/// Whether a column of this name is a remark.
fn is_remark(name: &[u8]) -> bool
    ensures { result ≡ is_remark name.now }
{
    match name {
        [first, ..] => *first == b'#',
        [] => false,
    }
}

/// Returns whether a column of this name is skipped: a remark, or a column that only a readable tape has.
fn is_passed_over(name: &[u8]) -> bool
    ensures { result ≡ is_passed_over name.now }
{
    is_remark(name) || is_tape_column(name)
}

/// The first place of a name in a header row.
fn place_of(names: &ByteRecord, name: &[u8]) -> Option<usize>
    ensures { result ≡ place_of (fields_of names.now) name.now }
{
    for place in 0..names.len() {
        let Some(other) = names.get(place) else {
            return None;
        };
        if other == name {
            return Some(place);
        }
    }
    None
}

/// A name's place in a header row is that of its first occurrence, and it has none exactly if it does not occur. A law, which
/// does nothing.
pub fn first_place()
    ensures holds { IsFirstPlace }
{}

/// Returns whether a name occurs in a header row before a place.
fn stands_before(names: &ByteRecord, place: usize, name: &[u8]) -> bool
    ensures { result ≡ is_before place (place_of (fields_of names.now) name.now) }
{
    match place_of(names, name) {
        Some(first) => first < place,
        None => false,
    }
}

/// What is wrong with the name at a place of a header row, if anything.
#[tactic(auto, unfolding(crate::specs::Columns::name_fault))]
fn name_fault(names: &ByteRecord, place: usize, name: &[u8]) -> Option<ColumnFault>
    ensures { result ≡ name_fault (fields_of names.now) place name.now }
{
    if is_passed_over(name) {
        return None;
    }
    let Some(column) = Column::of_name(name) else {
        return Some(ColumnFault::Unknown(FaultText::new(name)));
    };
    if stands_before(names, place, name) {
        return Some(ColumnFault::Repeated(column));
    }
    None
}

/// What is wrong with the names of a header row, if anything: the first fault from the left.
fn header_fault(names: &ByteRecord) -> Option<ColumnFault>
    ensures { result ≡ header_fault (fields_of names.now) }
{
    for place in 0..names.len() {
        let Some(name) = names.get(place) else {
            return None;
        };
        if let Some(fault) = name_fault(names, place, name) {
            return Some(fault);
        }
    }
    None
}

/// The place of a column, if the table has it.
fn optional(names: &ByteRecord, column: Column) -> Option<usize>
    ensures { result ≡ place_of (fields_of names.now) (column_name column) }
{
    place_of(names, column.name().as_bytes())
}

/// The place of a column that every table has.
fn required(names: &ByteRecord, column: Column) -> Result<usize, ColumnFault>
    ensures { result ≡ required (fields_of names.now) column }
{
    optional(names, column).ok_or(ColumnFault::Missing(column))
}

impl Columns {
    /// Returns the columns of a header row: each name once, in any order; only `kind`, `moment` and `target` may be missing. A
    /// name that begins with `#` is a remark's. It is skipped, and so are the names of the columns that only a readable tape
    /// has; such a name may occur several times.
    ///
    /// Errors: the first name from the left that is no column's (`Unknown`) or occurs twice (`Repeated`), and else the first
    /// required column that is missing (`Missing`).
    #[tactic(auto, unfolding(crate::specs::Columns::header_columns))]
    pub fn of_header(names: &ByteRecord) -> Result<Columns, ColumnFault>
        ensures columns { result ≡ header_columns (fields_of names.now) }
    {
        if let Some(fault) = header_fault(names) {
            return Err(fault);
        }
        let participant = required(names, Column::Participant)?;
        let number = required(names, Column::Number)?;
        let symbol = required(names, Column::Symbol)?;
        let price = required(names, Column::Price)?;
        let size = required(names, Column::Size)?;
        let condition = required(names, Column::Condition)?;
        Ok(Columns {
            kind: optional(names, Column::Kind),
            participant,
            number,
            moment: optional(names, Column::Moment),
            symbol,
            target: optional(names, Column::Target),
            price,
            size,
            condition,
            width: names.len(),
        })
    }

    /// Returns how many fields a row of the table has, including those that are skipped.
    pub fn width(&self) -> usize
        ensures width { result ≡ self.now.width }
    {
        self.width
    }

    /// Returns the fields of a record. If the table has no `kind` column each row is a report; a field of any other missing
    /// column is empty.
    pub fn row<'r>(&self, fields: &'r ByteRecord) -> TableRow<'r>
        ensures row { text_of_row result ≡ row_text_of self.now (fields_of fields.now) }
    {
        TableRow {
            kind: field_or(fields, self.kind, b"report"),
            participant: field_at(fields, self.participant),
            number: field_at(fields, self.number),
            moment: field_or(fields, self.moment, b""),
            symbol: field_at(fields, self.symbol),
            target: field_or(fields, self.target, b""),
            price: field_at(fields, self.price),
            size: field_at(fields, self.size),
            condition: field_at(fields, self.condition),
        }
    }
}

/// Returns the field at a place, or an empty text behind the last.
pub fn field_at(fields: &ByteRecord, place: usize) -> &[u8]
    ensures { result.now ≡ text_at (fields_of fields.now) place }
{
    match fields.get(place) {
        Some(field) => field,
        None => b"",
    }
}

/// Returns the field at the place of a column, or `absent` if the table has no such column.
fn field_or<'r>(fields: &'r ByteRecord, place: Option<usize>, absent: &'static [u8]) -> &'r [u8]
    ensures { result.now ≡ text_or (fields_of fields.now) absent.now place }
{
    match place {
        Some(place) => field_at(fields, place),
        None => absent,
    }
}
