//! Reads the symbols and the participants of a running day from two arguments.
ghost use Rattle.std.specs.Prelude.{◌≡◌, ◌≤◌, IfOk, Ok, Err, None, length};
ghost use Rattle.std.specs.Result.{result_err};
ghost use Rattle.tape_types.specs.Header.{names_listing};
ghost use Rattle.day_terms.specs.Values.{COMMA};
ghost use Rattle.day_terms.specs.declared.words_fault.WordsFault.TheVariants.{OutOfMemory};

use crate::WordsFault;
use std::alloc::Global;
use tape_types::{HeaderFault, Listing, ListingFault, read_names};

/// The separator between two names and between two ports.
pub(crate) const SEPARATOR: u8 = b',';

/// Returns the listing of the symbols and the participants in two arguments, with at most `most` participants. It returns
/// `OutOfMemory` only if nothing is wrong with either argument.
pub fn listing(
    alloc: Global,
    symbols: &[u8],
    participants: &[u8],
    most: usize,
) -> Result<Listing, WordsFault>
    ensures listing { IfOk result (λ listing. names_listing COMMA symbols.now participants.now ≡ Ok listing) }
    ensures few { IfOk result (λ listing. length listing.participants ≤ most) }
    ensures memory { result ≡ Err OutOfMemory → result_err (names_listing COMMA symbols.now participants.now) ≡ None }
{
    let count = participants.split(|byte| *byte == SEPARATOR).count();
    match read_names(alloc, SEPARATOR, symbols, participants) {
        Ok(listing) if listing.participants().len() <= most => Ok(listing),
        Err(HeaderFault::BadListing(ListingFault::OutOfMemory)) if count <= most => {
            Err(WordsFault::OutOfMemory)
        }
        Ok(_) | Err(_) => Err(WordsFault::BadArguments),
    }
}
