//! Puts into words why a table has no text.
ghost use Rattle.std.specs.Prelude.{◌≡◌, IfOk};
ghost use Rattle.csv_messages.specs.FaultLines.{table_fault_text};
ghost use Rattle.csv_days.specs.EndTexts.{end_text, listing_fault_text};

use csv_days::TableEnd;
use csv_messages::TableFault;
use std::alloc::{AllocError, Global};
use tape_types::ListingFault;

/// Returns what is wrong with a table, in words.
pub(crate) fn fault_text(alloc: Global, fault: &TableFault) -> Result<Vec<u8>, AllocError>
    ensures { IfOk result (λ text. text.items ≡ table_fault_text fault.now) }
{
    let line = format!(in alloc; "{fault}")?;
    Ok(line.into_bytes())
}

/// What is wrong with names that make no listing, in words.
fn listing_text(fault: ListingFault) -> &'static [u8]
    ensures { result.now ≡ listing_fault_text fault }
{
    match fault {
        ListingFault::Empty => b"the table has no row",
        ListingFault::TooMany => b"the table has more than 4096 symbols",
        ListingFault::Repeated => b"a name stands twice in the listing",
        ListingFault::OutOfMemory => b"out of memory",
    }
}

/// Returns why a table has no text, in words; an error if memory runs out for these.
pub(crate) fn end_text(alloc: Global, end: &TableEnd) -> Result<Vec<u8>, AllocError>
    ensures { IfOk result (λ text. text.items ≡ end_text end.now) }
{
    match end {
        TableEnd::Table(fault) => fault_text(alloc, fault),
        TableEnd::Listing(fault) => Vec::from_slice(alloc, listing_text(*fault)),
        TableEnd::OutOfMemory => Vec::from_slice(alloc, b"out of memory"),
        TableEnd::WriteFault => Vec::from_slice(alloc, b"a write failed"),
    }
}
