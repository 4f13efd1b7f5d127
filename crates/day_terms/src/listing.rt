//! Makes the listing of a day, whose symbols stand in its file or in a file of their own.
ghost use Rattle.std.specs.Prelude.{◌≡◌, IfOk};
ghost use Rattle.day_terms.specs.Days.{symbols_view};
ghost use Rattle.day_terms.specs.Faults.{Gives};
ghost use Rattle.day_terms.specs.Listings.{file_symbols, listing_in, listing_of};

use crate::lines::TextLines;
use crate::{DayFault, DaySymbols, FilePlace};
use std::alloc::Global;
use tape_types::{Listing, ListingFault, Participant, Symbol};

/// Returns the symbols of a file, one per line. The last line may lack its line feed.
fn symbols_in_file(alloc: Global, text: &[u8]) -> Result<Vec<Symbol>, DayFault>
    ensures { Gives (λ symbols. symbols.items) result (file_symbols text.now) }
{
    let mut symbols = Vec::new(alloc);
    for name in (TextLines { rest: text }) {
        match Symbol::of_name(name) {
            Some(symbol) => symbols.push(symbol)?,
            None => return Err(DayFault::OutOfRange(FilePlace::Line(symbols.len() + 1))),
        }
    }
    Ok(symbols)
}

/// Returns the listing of these symbols and participants.
#[tactic(auto, unfolding(crate::specs::Listings::listing_of))]
fn listing_of(
    alloc: Global,
    symbols: &[Symbol],
    participants: &[Participant],
) -> Result<Listing, DayFault>
    ensures listing { Gives (λ listing. listing) result (listing_of symbols.now participants.now) }
    ensures participants { IfOk result (λ listing. listing.participants ≡ participants.now) }
{
    match Listing::new(alloc, symbols, participants) {
        Ok(listing) => Ok(listing),
        Err(ListingFault::OutOfMemory) => Err(DayFault::OutOfMemory),
        Err(fault) => Err(DayFault::Names(fault)),
    }
}

/// Returns the listing of a day, whose symbols may stand in a file of this text.
pub(crate) fn listing_in(
    alloc: Global,
    symbols: &DaySymbols,
    participants: &[Participant],
    text: &[u8],
) -> Result<Listing, DayFault>
    ensures listing { Gives (λ listing. listing) result (listing_in (symbols_view symbols.now) participants.now text.now) }
    ensures participants { IfOk result (λ listing. listing.participants ≡ participants.now) }
{
    match symbols {
        DaySymbols::Listed(symbols) => listing_of(alloc, symbols, participants),
        DaySymbols::InFile(_) => listing_of(alloc, &symbols_in_file(alloc, text)?, participants),
    }
}
