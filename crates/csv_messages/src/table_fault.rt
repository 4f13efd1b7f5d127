//! Why a table was not read.
ghost use Rattle.std.specs.Prelude.{◌≡◌, Some};
ghost use Rattle.csv_messages.specs.FaultLines.{table_fault_text};
ghost use Rattle.csv_messages.specs.declared.table_fault.TableFault.TheVariants.{Header, OutOfMemory};

use crate::{ColumnFault, RowFault};
use std::alloc::AllocError;
use std::fmt;
use thiserror::Error;

/// Why a table was not read.
#[derive(Clone, Copy, Debug, PartialEq, Eq, Error)]
pub enum TableFault {
    /// The header row does not name the columns.
    Header(ColumnFault),
    /// There is no row below the header row, or no header row.
    NoRow,
    /// The row of this number is no message. The row below the header row has the number `FIRST_ROW`, and a blank line has
    /// none.
    Row(u64, RowFault),
    /// A read failed.
    ReadFault,
    /// Memory ran out.
    OutOfMemory,
}

impl From<AllocError> for TableFault {
    ghost from_gives = { λ _ table. table ≡ OutOfMemory };

    fn from(_error: AllocError) -> TableFault {
        TableFault::OutOfMemory
    }
}

impl From<ColumnFault> for TableFault {
    ghost from_gives = { λ fault table. table ≡ Header fault };

    fn from(fault: ColumnFault) -> TableFault {
        TableFault::Header(fault)
    }
}

impl fmt::Display for TableFault {
    ghost output = { λ fault. Some (table_fault_text fault) };

    fn fmt<W: fmt::Write>(&self, f: &mut fmt::Formatter<W>) -> fmt::Result {
        match self {
            TableFault::Header(fault) => write!(f, "header row: {fault}"),
            TableFault::NoRow => f.write_str("the table has no row"),
            TableFault::Row(number, fault) => write!(f, "row {number}: {fault}"),
            TableFault::ReadFault => f.write_str("a read failed"),
            TableFault::OutOfMemory => f.write_str("out of memory"),
        }
    }
}
