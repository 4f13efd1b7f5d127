//! Reads the listing of a day from a text of symbols and a text of participants.
ghost use Rattle.std.specs.Prelude.{◌≡◌, IfOk, IfErr, Ok, take, unwrap_or};
ghost use Rattle.std.specs.Option.{option_map};
ghost use Rattle.std.specs.Result.{result_err};
ghost use Rattle.tape_types.specs.Header.{all_named, name_texts, names_listing};
ghost use Rattle.tape_types.specs.declared.header_fault.HeaderFault.TheVariants.{BadListing};
ghost use Rattle.tape_types.specs.declared.listing_fault.ListingFault.TheVariants.{OutOfMemory};

use crate::named::Named;
use crate::pieces::Pieces;
use crate::{HeaderFault, Listing, Participant, Symbol};
use arrayvec::ArrayVec;
use std::alloc::Global;

/// The number of names of a text that are kept: one more than a listing may have, so that too many names are still too many.
const NAMES_KEPT: usize = 4_097;

/// Returns the first names of a text, or `None` if a piece is no such name. They lie in the value itself, so that memory does
/// not run out before all else is judged.
fn kept_names<N: Named>(separator: u8, text: &[u8]) -> Option<ArrayVec<N, NAMES_KEPT>>
    ensures { option_map (λ names. names.items) result ≡ option_map (take NAMES_KEPT) (all_named N.named (name_texts separator text.now)) }
{
    let mut names = ArrayVec::new();
    if text.is_empty() {
        return Some(names);
    }
    for piece in Pieces::new(separator, text) {
        let name = N::of_name(piece)?;
        let _is_kept = names.try_push(name);
    }
    Some(names)
}

/// Returns the listing of a text of symbols and one of participants, with this byte between two names.
///
/// Errors, the first that applies: `BadHeader` if a text is not names with single separators between them, and `BadListing`
/// with the error of `Listing::new`, which is `OutOfMemory` only if nothing else is wrong with either text.
pub fn read_names(
    alloc: Global,
    separator: u8,
    symbols: &[u8],
    participants: &[u8],
) -> Result<Listing, HeaderFault>
    ensures ok { IfOk result (λ listing. names_listing separator symbols.now participants.now ≡ Ok listing) }
    ensures err { IfErr result (λ fault. fault ≡ unwrap_or (result_err (names_listing separator symbols.now participants.now)) (BadListing OutOfMemory)) }
{
    let Some(known) = kept_names::<Symbol>(separator, symbols) else {
        return Err(HeaderFault::BadHeader);
    };
    let Some(who) = kept_names::<Participant>(separator, participants) else {
        return Err(HeaderFault::BadHeader);
    };
    Listing::new(alloc, known.as_slice(), who.as_slice()).map_err(HeaderFault::BadListing)
}
