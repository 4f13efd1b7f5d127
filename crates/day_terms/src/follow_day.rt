//! The day of `follow`, and its reading from arguments.
ghost use Rattle.std.specs.Prelude.{IfOk};
ghost use Rattle.tape_types.specs.Ranges.{IsTapeNumber};
ghost use Rattle.day_terms.specs.Arguments.{words_of};
ghost use Rattle.day_terms.specs.NamedDays.{NameFollow};

use crate::argument_reading::Words;
use crate::names::listing;
use crate::{FollowTerms, WordsFault};
use days::Day;
use std::alloc::Global;
use tape_types::PARTICIPANTS_MOST;

/// A day of `follow`: its terms and its ports.
#[derive(Drop)]
pub struct FollowDay {
    /// The terms.
    pub terms: FollowTerms,
    /// The ports on which the packets of the two lines arrive.
    pub ports: [u16; 2],
    /// The port of the retransmission.
    pub retransmission: u16,
}

impl FollowDay {
    /// Reads the arguments after `follow`, each ended by a zero byte. It allocates for the names once all else is right.
    pub fn read(alloc: Global, words: &[u8]) -> Result<FollowDay, WordsFault>
        ensures day { IfOk result (λ day. NameFollow (words_of words.now) day) }
        ensures limit { IfOk result (λ day. IsTapeNumber day.terms.day.limit) }
    {
        let mut words = Words { rest: words };
        let (symbols, participants) = words.names()?;
        let (ports, retransmission) = words.feed_ports()?;
        let session = words.number()?;
        let matrix = words.matrix()?;
        let limit = words.limit()?;
        let listing = listing(alloc, symbols, participants, PARTICIPANTS_MOST)?;
        let day = Day {
            listing,
            matrix,
            limit,
            session,
        };
        let terms = FollowTerms {
            day,
            connect_within: None,
        };
        Ok(FollowDay {
            terms,
            ports,
            retransmission,
        })
    }
}
