//! The kinds of rows' faults, by which they are counted.
ghost use Rattle.std.specs.Prelude.{◌≡◌, ◌<◌, Some};
ghost use Rattle.csv_days.specs.Checks.{column_place, kind_of, kind_place, kind_text};

use csv_messages::{Column, RowFault};
use std::fmt;

/// How many kinds there are.
pub const FAULT_KINDS: usize = 19;

/// A kind of faults of rows, by which they are counted.
#[derive(Clone, Copy, Debug, PartialEq, Eq)]
pub enum FaultKind {
    /// A row has another number of fields than the header row.
    OtherFields,
    /// A field of this column is not one of the column's values.
    BadField(Column),
    /// A field of this column has to be empty in a row of its kind.
    UnusedField(Column),
}

/// Returns the place of a column among all, from 0.
fn column_place(column: Column) -> usize
    ensures place { result ≡ column_place column }
    ensures within { result < 9 }
{
    match column {
        Column::Kind => 0,
        Column::Participant => 1,
        Column::Number => 2,
        Column::Moment => 3,
        Column::Symbol => 4,
        Column::Target => 5,
        Column::Price => 6,
        Column::Size => 7,
        Column::Condition => 8,
    }
}

impl FaultKind {
    /// Returns the kind of a row's fault.
    pub fn of(fault: &RowFault) -> FaultKind
        ensures { result ≡ kind_of fault.now }
    {
        match fault {
            RowFault::Fields { .. } => FaultKind::OtherFields,
            RowFault::Bad(column, _) => FaultKind::BadField(*column),
            RowFault::Unused(column, _) => FaultKind::UnusedField(*column),
        }
    }

    /// Returns the place of the kind among all, from 0.
    pub fn place(self) -> usize
        ensures place { result ≡ kind_place self }
        ensures within { result < FAULT_KINDS }
    {
        match self {
            FaultKind::OtherFields => 18,
            FaultKind::BadField(column) => column_place(column),
            FaultKind::UnusedField(column) => column_place(column) + 9,
        }
    }
}

impl fmt::Display for FaultKind {
    ghost output = { λ kind. Some (kind_text kind) };

    fn fmt<W: fmt::Write>(&self, f: &mut fmt::Formatter<W>) -> fmt::Result {
        match self {
            FaultKind::OtherFields => {
                f.write_str("another number of fields than the header row has")
            }
            FaultKind::BadField(column) => {
                let rule = column.rule();
                write!(f, "{column} is not {rule}")
            }
            FaultKind::UnusedField(column) => {
                write!(f, "{column} has to be empty in a row of this kind")
            }
        }
    }
}
