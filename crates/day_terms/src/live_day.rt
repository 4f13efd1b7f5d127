//! The day of `live`, and its reading from arguments.
ghost use Rattle.std.specs.Prelude.{◌+◌, ◌^◌, ◌≡◌, ◌≤◌, Err, IfOk, length};
ghost use Rattle.tape_types.specs.Ranges.{IsTapeNumber};
ghost use Rattle.day_terms.specs.Arguments.{words_of};
ghost use Rattle.day_terms.specs.NamedDays.{LiveView, NameLive, live_view};
ghost use Rattle.day_terms.specs.declared.words_fault.WordsFault.TheVariants.{OutOfMemory};

use crate::argument_reading::{Words, ports_of};
use crate::names::listing;
use crate::terms::PORTS;
use crate::{LiveTerms, WordsFault};
use days::Day;
use std::alloc::Global;
use tape_types::PARTICIPANTS_MOST;

/// A day of `live`: its terms and its ports.
#[derive(Drop)]
pub struct LiveDay {
    /// The terms.
    pub terms: LiveTerms,
    /// The port of the first participant's line. Each further participant has the next port.
    pub first_port: u16,
    /// The ports that line A is sent to.
    pub a: Vec<u16>,
    /// The ports that line B is sent to.
    pub b: Vec<u16>,
    /// The port of the retransmission.
    pub retransmission: u16,
}

impl LiveDay {
    /// Reads the arguments after `live`, each ended by a zero byte. It allocates for the names once all else is right,
    /// including a port for the last participant's line, and then for the ports of the lines. So it returns `OutOfMemory` only
    /// if no argument is bad.
    pub fn read(alloc: Global, words: &[u8]) -> Result<LiveDay, WordsFault>
        ensures day { IfOk result (λ day. NameLive (words_of words.now) (live_view day)) }
        ensures limit { IfOk result (λ day. IsTapeNumber day.terms.day.limit) }
        ensures ports { IfOk result (λ day. day.first_port + length day.terms.day.listing.participants ≤ 2 ^ 16) }
        ensures memory { result ≡ Err OutOfMemory → (day : LiveView) × NameLive (words_of words.now) day }
    {
        let mut words = Words { rest: words };
        let (symbols, participants) = words.names()?;
        let first_port = words.port()?;
        let a = words.port_list()?;
        let b = words.port_list()?;
        let retransmission = words.port()?;
        let serves = words.short()?;
        let session = words.number()?;
        let matrix = words.matrix()?;
        let limit = words.limit()?;
        let most = (PORTS - usize::from(first_port)).min(PARTICIPANTS_MOST);
        let listing = listing(alloc, symbols, participants, most)?;
        let a = ports_of(alloc, a)?;
        let b = ports_of(alloc, b)?;
        let day = Day {
            listing,
            matrix,
            limit,
            session,
        };
        let terms = LiveTerms {
            day,
            serves,
            connect_within: None,
            followers_wait: None,
        };
        Ok(LiveDay {
            terms,
            first_port,
            a,
            b,
            retransmission,
        })
    }
}
