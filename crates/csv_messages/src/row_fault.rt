//! Why a row is no message.
ghost use Rattle.std.specs.Prelude.{Some};
ghost use Rattle.csv_messages.specs.FaultLines.{row_fault_text};

use crate::fault_text::{LineEnd, Quoted};
use crate::wrong_code::Detail;
use crate::{Column, FaultText};
use std::fmt;
use thiserror::Error;

/// Why a row is no message: the first thing wrong, in the order of the columns.
#[derive(Clone, Copy, Debug, PartialEq, Eq, Error)]
pub enum RowFault {
    /// The row has another number of fields than the header row.
    Fields {
        /// How many fields the row has.
        found: usize,
        /// How many the header row has.
        wanted: usize,
        /// Whether its last field has a line end, as behind a quotation mark that is not closed.
        over: bool,
    },
    /// The field of this column is not one of the column's values.
    Bad(Column, FaultText),
    /// The field of this column has to be empty in a row of this kind.
    Unused(Column, FaultText),
}

impl fmt::Display for RowFault {
    ghost output = { λ fault. Some (row_fault_text fault) };

    fn fmt<W: fmt::Write>(&self, f: &mut fmt::Formatter<W>) -> fmt::Result {
        match self {
            RowFault::Fields {
                found,
                wanted,
                over,
            } => {
                let end = LineEnd(*over);
                write!(f, "{found} fields, and the header row has {wanted}{end}")
            }
            RowFault::Bad(column, text) => {
                let (field, rule) = (Quoted(*text), column.rule());
                let (detail, end) = (Detail(*column, *text), LineEnd(text.has_line_end()));
                write!(f, "{column} {field} is not {rule}{detail}{end}")
            }
            RowFault::Unused(column, text) => {
                let (field, end) = (Quoted(*text), LineEnd(text.has_line_end()));
                write!(
                    f,
                    "{column} {field} has to be empty in a row of this kind{end}"
                )
            }
        }
    }
}
