//! Why a table's text was not written whole, and the status that the program then ends with.
ghost use Rattle.csv_days.specs.EndTexts.{end_status, listing_fault_status, table_fault_status};
ghost use Rattle.csv_days.specs.TableEnds.{read_end, write_end};
ghost use Rattle.std.specs.Io.KnownBytes.{Keeps};
ghost use Rattle.std.specs.Prelude.{◌≡◌, Err, IfErr, IfOk};
ghost use Rattle.csv_days.specs.declared.table_end.TableEnd.TheVariants.{Listing, OutOfMemory, Table, WriteFault as FailedWrite};
ghost use Rattle.day_report.specs.declared.report_fault.ReportFault.TheVariants.{WriteFault as FailedReport};

use crate::Refusals;
use csv_messages::TableFault;
use day_report::ReportFault;
use std::alloc::AllocError;
use std::io::Write;
use tape_types::ListingFault;
use whole_io::{ReadFault, WriteFault, WritingFault, flush};

/// Why a table has no report, no readable tape or no explanation.
#[derive(Clone, Copy, Debug, PartialEq, Eq)]
pub enum TableEnd {
    /// The table was not read.
    Table(TableFault),
    /// The names in the table make no listing: there are none, or too many.
    Listing(ListingFault),
    /// Memory ran out.
    OutOfMemory,
    /// A write or the flush failed.
    WriteFault,
}

/// Returns the status of a table's fault.
fn table_fault_status(fault: TableFault) -> u8
    ensures { result ≡ table_fault_status fault }
{
    match fault {
        TableFault::Header(_) | TableFault::NoRow | TableFault::Row(_, _) => 2,
        TableFault::ReadFault => 3,
        TableFault::OutOfMemory => 5,
    }
}

/// Returns the status of names that make no listing.
fn listing_fault_status(fault: ListingFault) -> u8
    ensures { result ≡ listing_fault_status fault }
{
    match fault {
        ListingFault::Empty | ListingFault::TooMany | ListingFault::Repeated => 2,
        ListingFault::OutOfMemory => 5,
    }
}

impl TableEnd {
    /// Returns the status that the program ends with.
    pub fn status(self) -> u8
        ensures status { result ≡ end_status self }
    {
        match self {
            TableEnd::Table(fault) => table_fault_status(fault),
            TableEnd::Listing(fault) => listing_fault_status(fault),
            TableEnd::OutOfMemory => 5,
            TableEnd::WriteFault => 4,
        }
    }
}

impl From<AllocError> for TableEnd {
    ghost use Rattle.std.specs.Prelude.{◌≡◌};

    ghost from_gives = { λ _ end. end ≡ OutOfMemory };

    fn from(_error: AllocError) -> TableEnd {
        TableEnd::OutOfMemory
    }
}

impl From<TableFault> for TableEnd {
    ghost use Rattle.std.specs.Prelude.{◌≡◌};

    ghost from_gives = { λ fault end. end ≡ Table fault };

    fn from(fault: TableFault) -> TableEnd {
        TableEnd::Table(fault)
    }
}

impl From<ListingFault> for TableEnd {
    ghost use Rattle.std.specs.Prelude.{◌≡◌};

    ghost from_gives = { λ fault end. end ≡ Listing fault };

    fn from(fault: ListingFault) -> TableEnd {
        TableEnd::Listing(fault)
    }
}

impl From<WritingFault> for TableEnd {
    ghost use Rattle.std.specs.Prelude.{◌≡◌};

    ghost from_gives = { λ fault end. end ≡ write_end fault };

    fn from(fault: WritingFault) -> TableEnd {
        match fault {
            WritingFault::OutOfMemory => TableEnd::OutOfMemory,
            WritingFault::WriteFault => TableEnd::WriteFault,
        }
    }
}

impl From<ReportFault> for TableEnd {
    ghost use Rattle.std.specs.Prelude.{◌≡◌, ◌≢◌};

    ghost from_gives = { λ fault end. (fault ≡ FailedReport → end ≡ FailedWrite) × (fault ≢ FailedReport → end ≡ OutOfMemory) };

    fn from(fault: ReportFault) -> TableEnd {
        TableEnd::from(WritingFault::from(fault))
    }
}

impl From<ReadFault> for TableEnd {
    ghost use Rattle.std.specs.Prelude.{◌≡◌};

    ghost from_gives = { λ fault end. end ≡ read_end fault };

    fn from(fault: ReadFault) -> TableEnd {
        match fault {
            ReadFault::Failed => TableEnd::Table(TableFault::ReadFault),
            ReadFault::OutOfMemory => TableEnd::OutOfMemory,
        }
    }
}

impl From<WriteFault> for TableEnd {
    ghost use Rattle.std.specs.Prelude.{◌≡◌};

    ghost from_gives = { λ _ end. end ≡ FailedWrite };

    fn from(_fault: WriteFault) -> TableEnd {
        TableEnd::WriteFault
    }
}

/// Flushes what was written, and then returns what was refused.
pub fn flushed<W: Write>(writer: &mut W, refusals: &Refusals) -> Result<Refusals, TableEnd>
    ensures kept { Keeps (W.contents writer.old) (W.contents writer.new) }
    ensures ok { IfOk result (λ flushed. flushed ≡ refusals.now) }
    ensures err { IfErr result (λ end. end ≡ FailedWrite) }
{
    flush(writer)?;
    Ok(*refusals)
}
