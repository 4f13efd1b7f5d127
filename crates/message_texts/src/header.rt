//! Checks the two lines of a header, so that a fault names the line that has it.
ghost use Rattle.std.specs.Prelude.{◌≡◌, ◌≢◌, ◌⊎◌, None, Some, Err, IfErr, OnOk};
ghost use Rattle.message_texts.specs.DecodedTexts.{fault_beside, header_fault};
ghost use Rattle.message_texts.specs.declared.line_fault.LineFault.TheVariants.{Header};
ghost use Rattle.message_texts.specs.declared.text_end.TextEnd.TheVariants.{Line, OutOfMemory, WriteFault};
ghost use Rattle.tape_types.specs.declared.header_fault.HeaderFault.TheVariants.{BadListing};
ghost use Rattle.tape_types.specs.declared.listing_fault.ListingFault.TheVariants.{OutOfMemory as ListingOutOfMemory};

use crate::{LineFault, TextEnd};
use batch::read_header;
use std::alloc::Global;
use tape_types::{HeaderFault, ListingFault};

/// A line of participants without a fault.
const ANY_PARTICIPANTS: &[u8] = b"A";

/// The end for a header's fault: running out of memory, or the fault of the line of this number.
fn header_end(number: u64, fault: HeaderFault) -> TextEnd
    ensures told { (result ≡ OutOfMemory) ⊎ (result ≡ Line number (Header fault)) }
    ensures memory { fault ≡ BadListing ListingOutOfMemory → result ≡ OutOfMemory }
{
    match fault {
        HeaderFault::BadListing(ListingFault::OutOfMemory) => TextEnd::OutOfMemory,
        fault => TextEnd::Line(number, LineFault::Header(fault)),
    }
}

/// Checks two lines as a header. A fault is returned as that of the line of this number.
fn check_beside(alloc: Global, number: u64, first: &[u8], second: &[u8]) -> Result<(), TextEnd>
    ensures ok { OnOk result (fault_beside number first.now second.now ≡ None) }
    ensures end { IfErr result (λ end. (end ≡ OutOfMemory) ⊎ (fault_beside number first.now second.now ≡ Some end)) }
    ensures read { result ≢ Err WriteFault }
{
    match read_header(alloc, first, second) {
        Ok(_) => Ok(()),
        Err(fault) => Err(header_end(number, fault)),
    }
}

/// Checks the two lines of a header. The error is the fault of the first, or else that of the second.
#[tactic(auto, unfolding(crate::specs::DecodedTexts::header_fault))]
pub fn check_header(alloc: Global, first: &[u8], second: &[u8]) -> Result<(), TextEnd>
    ensures ok { OnOk result (header_fault first.now second.now ≡ None) }
    ensures end { IfErr result (λ end. (end ≡ OutOfMemory) ⊎ (header_fault first.now second.now ≡ Some end)) }
    ensures read { result ≢ Err WriteFault }
{
    check_beside(alloc, 1, first, ANY_PARTICIPANTS)?;
    check_beside(alloc, 2, first, second)
}
