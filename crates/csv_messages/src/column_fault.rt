//! Why a header row does not name the columns of a table.
ghost use Rattle.std.specs.Prelude.{Some};
ghost use Rattle.csv_messages.specs.FaultLines.{column_fault_text};

use crate::fault_text::Quoted;
use crate::unknown_hint::UnknownHint;
use crate::{Column, FaultText};
use std::fmt;
use thiserror::Error;

/// Why a header row does not name the columns: the first wrong name from the left, and else the first column that is missing.
#[derive(Clone, Copy, Debug, PartialEq, Eq, Error)]
pub enum ColumnFault {
    /// This name is no column's, and does not begin with `#`.
    Unknown(FaultText),
    /// The name of this column occurs a second time.
    Repeated(Column),
    /// This required column is missing.
    Missing(Column),
}

impl fmt::Display for ColumnFault {
    ghost output = { λ fault. Some (column_fault_text fault) };

    fn fmt<W: fmt::Write>(&self, f: &mut fmt::Formatter<W>) -> fmt::Result {
        match self {
            ColumnFault::Unknown(name) => {
                let (field, hint) = (Quoted(*name), UnknownHint(*name));
                write!(f, "column {field} is unknown{hint}")
            }
            ColumnFault::Repeated(column) => write!(f, "column {column} stands twice"),
            ColumnFault::Missing(column) => write!(f, "column {column} is missing"),
        }
    }
}
