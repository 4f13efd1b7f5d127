//! Tests how a listing is made.

use std::alloc::Global;
use std::process::Abort;
use std::test::Fail;
use tape_types::{Listing, ListingFault, Participant, Symbol};

/// How many symbols are listed.
const SYMBOLS: u8 = 26;

/// The symbols `A` to `Z`.
fn symbols(alloc: Global) -> Option<Vec<Symbol>> {
    let mut symbols = Vec::with_capacity(alloc, SYMBOLS as usize).ok()?;
    for index in 0..SYMBOLS {
        let name = [b'A' + index, b' ', b' ', b' ', b' ', b' ', b' ', b' '];
        symbols.push(Symbol::try_new(name)?).ok()?;
    }
    Some(symbols)
}

/// The listing, made again if memory was refused for it.
fn made<A: Abort>(
    rt: &A,
    alloc: Global,
    symbols: &[Symbol],
    participants: &[Participant],
) -> Option<Listing> {
    match Listing::new(alloc, symbols, participants) {
        Ok(listing) => Some(listing),
        Err(fault) => {
            assert_eq!(rt; fault, ListingFault::OutOfMemory);
            let again = Listing::new(alloc, symbols, participants);
            assert!(rt; again.is_ok());
            again.ok()
        }
    }
}

/// Whether the listing of `A` to `Z`, and of Q and N, has these names in this order. `None` if memory was refused for the names.
fn has_names<A: Abort>(rt: &A, alloc: Global) -> Option<bool> {
    let symbols = symbols(alloc)?;
    let participants = [Participant::try_new(b'Q')?, Participant::try_new(b'N')?];
    let listing = made(rt, alloc, &symbols, &participants)?;
    Some(
        listing.symbols().as_slice() == symbols.as_slice()
            && listing.participants().as_slice() == participants.as_slice(),
    )
}

#[test]
fn a_listing_is_made_again(rt: HostRuntime) -> Result<(), Fail> {
    let has_names = has_names(&rt, rt.alloc()).ok_or("names")?;
    assert!(rt; has_names);
    Ok(())
}
