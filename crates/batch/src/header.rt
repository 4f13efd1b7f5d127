//! Reads the listing of a batch from its header.
ghost use Rattle.std.specs.Prelude.{◌≡◌, IfOk, IfErr, Ok, unwrap_or};
ghost use Rattle.std.specs.Result.{result_err};
ghost use Rattle.tape_types.specs.declared.header_fault.HeaderFault.TheVariants.{BadListing};
ghost use Rattle.tape_types.specs.declared.listing_fault.ListingFault.TheVariants.{OutOfMemory};
ghost use Rattle.batch.specs.Header.{header_listing};

use std::alloc::Global;
use tape_types::{HeaderFault, Listing, read_names};

/// Returns the listing of a batch, from the symbols of its first line and the participants of its second, with single spaces
/// between names. The errors are those of `read_names`.
pub fn read_header(alloc: Global, first: &[u8], second: &[u8]) -> Result<Listing, HeaderFault>
    ensures ok { IfOk result (λ listing. header_listing first.now second.now ≡ Ok listing) }
    ensures err { IfErr result (λ fault. fault ≡ unwrap_or (result_err (header_listing first.now second.now)) (BadListing OutOfMemory)) }
{
    read_names(alloc, b' ', first, second)
}
