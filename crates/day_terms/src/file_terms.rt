//! Makes the days of `live` and of `follow` from what a day's file says.
ghost use Rattle.std.specs.Prelude.{◌≡◌};
ghost use Rattle.day_terms.specs.Terms.{port_of_place};

use crate::listing::listing_in;
use crate::{DayFault, DayFile, FollowDay, FollowTerms, LiveDay, LiveTerms};
use days::Day;
use std::alloc::Global;

/// Returns the port of a follower's place, from 1, or `None` if there is no such place.
fn port_of_place(ports: &[u16], follower: u16) -> Option<u16>
    ensures { result ≡ port_of_place ports.now follower }
{
    ports.get(usize::from(follower).checked_sub(1)?).copied()
}

impl DayFile {
    ghost use Rattle.std.specs.Prelude.{◌≡◌, ◌+◌, ◌≤◌, ◌^◌, [], IfOk, length, option_map, unwrap_or};
    ghost use Rattle.day_terms.specs.Days.{day_view};
    ghost use Rattle.day_terms.specs.Faults.{Gives};
    ghost use Rattle.day_terms.specs.NamedDays.{live_view};
    ghost use Rattle.day_terms.specs.Terms.{follow_of, live_of, text_or_none};

    /// Returns the day of `live`. `symbols_text` is the text of the symbols' file, if they stand in one: one symbol per line,
    /// the last line feed optional. `None` is an empty text. Any other line is a fault, even an empty one.
    #[tactic(auto, unfolding(crate::specs::Terms::live_of))]
    pub fn into_live(self, alloc: Global, symbols_text: Option<&[u8]>) -> Result<LiveDay, DayFault>
        ensures day { Gives live_view result (live_of (day_view self) (text_or_none symbols_text.entry)) }
        ensures ports { IfOk result (λ day. day.first_port + length day.terms.day.listing.participants ≤ 2 ^ 16) }
    {
        let listing = listing_in(
            alloc,
            &self.symbols,
            &self.participants,
            symbols_text.unwrap_or(&[]),
        )?;
        let day = Day {
            listing,
            matrix: self.matrix,
            limit: self.limit,
            session: self.session,
        };
        let terms = LiveTerms {
            day,
            serves: self.followers,
            connect_within: self.connect_within,
            followers_wait: self.followers_wait,
        };
        Ok(LiveDay {
            terms,
            first_port: self.port,
            a: self.a,
            b: self.b,
            retransmission: self.retransmission,
        })
    }

    /// Returns the day of `follow` for a follower's place, from 1, or `NoFollower` if there is no such place. `symbols_text` is
    /// as in `into_live`.
    #[tactic(auto, unfolding(crate::specs::Terms::follow_of))]
    pub fn into_follow(
        self,
        alloc: Global,
        symbols_text: Option<&[u8]>,
        follower: u16,
    ) -> Result<FollowDay, DayFault>
        ensures day { Gives (λ day. day) result (follow_of (day_view self) (text_or_none symbols_text.entry) follower) }
    {
        let (Some(a), Some(b)) = (
            port_of_place(&self.a, follower),
            port_of_place(&self.b, follower),
        ) else {
            return Err(DayFault::NoFollower {
                follower,
                places: self.a.len(),
            });
        };
        let listing = listing_in(
            alloc,
            &self.symbols,
            &self.participants,
            symbols_text.unwrap_or(&[]),
        )?;
        let day = Day {
            listing,
            matrix: self.matrix,
            limit: self.limit,
            session: self.session,
        };
        let terms = FollowTerms {
            day,
            connect_within: self.connect_within,
        };
        Ok(FollowDay {
            terms,
            ports: [a, b],
            retransmission: self.retransmission,
        })
    }
}
