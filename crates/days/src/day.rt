//! What a day is, and how two days are compared.
ghost use Rattle.std.specs.Prelude.{◌≡◌, ◌↔◌, IsTrue};
ghost use Rattle.days.specs.Days.{Differs};

use crate::OtherTerm;
use sale_matrix::Matrix;
use tape_types::{Listing, Participant, Symbol, TapeNumber};

/// What a day is.
#[derive(Drop)]
pub struct Day {
    /// The symbols and the participants, in their order.
    pub listing: Listing,
    /// The sale condition matrix.
    pub matrix: Matrix,
    /// The most entries that the tape takes.
    pub limit: TapeNumber,
    /// The session under which the tape is sent.
    pub session: u64,
}

/// Returns whether two lists of symbols are the same.
fn same_symbols(one: &[Symbol], other: &[Symbol]) -> bool
    ensures { IsTrue result ↔ (one.now ≡ other.now) }
{
    one == other
}

/// Returns whether two lists of participants are the same.
fn same_participants(one: &[Participant], other: &[Participant]) -> bool
    ensures { IsTrue result ↔ (one.now ≡ other.now) }
{
    one == other
}

impl Day {
    /// Returns the first term, in the order of `OtherTerm`, in which another day differs, if there is one.
    #[tactic(auto, using(crate::proofs::DayLemmas::same_terms))]
    pub fn other_term(&self, other: &Day) -> Option<OtherTerm>
        ensures { Differs result self.now other.now }
    {
        if self.session != other.session {
            Some(OtherTerm::Session)
        } else if self.matrix != other.matrix {
            Some(OtherTerm::Matrix)
        } else if self.limit != other.limit {
            Some(OtherTerm::Limit)
        } else if !same_symbols(
            self.listing.symbols().as_slice(),
            other.listing.symbols().as_slice(),
        ) {
            Some(OtherTerm::Symbols)
        } else if !same_participants(
            self.listing.participants().as_slice(),
            other.listing.participants().as_slice(),
        ) {
            Some(OtherTerm::Participants)
        } else {
            None
        }
    }
}
