//! The symbol and the participants of the day, and their listing.

use anyhow::Context;
use std::alloc::Global;
use tape_types::{Listing, ListingFault, Participant, Symbol};

/// One symbol, AB, and two participants, N and Q.
#[derive(Clone, Copy)]
pub struct Names {
    /// The symbol AB.
    pub symbol: Symbol,
    /// The participant N.
    pub n: Participant,
    /// The participant Q.
    pub q: Participant,
}

impl Names {
    /// The names, each in its type.
    pub fn new() -> anyhow::Result<Names> {
        Ok(Names {
            symbol: Symbol::of_name(b"AB").context("AB is no symbol")?,
            n: Participant::try_new(b'N').context("N is no participant")?,
            q: Participant::try_new(b'Q').context("Q is no participant")?,
        })
    }

    /// The listing of these names. It fails only if memory runs out.
    pub fn listing(&self, alloc: Global) -> Result<Listing, ListingFault> {
        Listing::new(alloc, &[self.symbol], &[self.n, self.q])
    }
}
