//! What is known of the retransmission's connections at one moment, and how it prints.
ghost use Rattle.std.specs.Prelude.{◌≡◌};
ghost use Rattle.live_feed.specs.Followers.{is_served, left_in, missing_in, served_in};

use std::fmt;

/// Whether a connection is served.
#[derive(Clone, Copy)]
pub(crate) enum FollowerState {
    /// It is served.
    Served,
    /// It has ended, by its peer or by a fault.
    Ended,
    /// It was ended when followers were waited for no longer.
    GivenUp,
}

/// What a connection asked for and was given, as it was at one moment.
#[derive(Clone, Copy)]
pub(crate) struct FollowerCounts {
    /// Its place among those that came, from 1.
    pub(crate) place: u64,
    /// Since when it was served, in whole seconds after the day's start.
    pub(crate) since: u64,
    /// How many whole requests were read.
    pub(crate) asked: u64,
    /// How many answers were written whole.
    pub(crate) answered: u64,
    /// How many bytes of answers were written.
    pub(crate) bytes: u64,
    /// Whether it is served.
    pub(crate) state: FollowerState,
}

/// A day's followers, as they were at one moment.
#[derive(Drop)]
pub(crate) struct SeenFollowers {
    /// How many connections the day serves.
    pub(crate) serves: u16,
    /// How many of these have come.
    pub(crate) came: u32,
    /// Whether nobody is waited for any longer.
    pub(crate) is_given_up: bool,
    /// The connections that came and are counted, in their order.
    pub(crate) counts: Vec<FollowerCounts>,
}

impl FollowerState {
    /// Whether the connection is served.
    fn is_served(self) -> bool
        ensures { result ≡ is_served self }
    {
        matches!(self, FollowerState::Served)
    }
}

impl SeenFollowers {
    /// How many connections are served.
    fn served(&self) -> u64
        ensures { result ≡ served_in self.now }
    {
        let counts = self.counts.as_slice();
        counts.iter().filter(|c| c.state.is_served()).count() as u64
    }

    /// How many connections have still to come.
    fn missing(&self) -> u64
        ensures { result ≡ missing_in self.now }
    {
        u64::from(u32::from(self.serves).saturating_sub(self.came))
    }

    /// How many connections the day's end waits for.
    fn left(&self) -> u64
        ensures { result ≡ left_in self.now }
    {
        self.missing().saturating_add(self.served())
    }
}

impl fmt::Display for FollowerState {
    fn fmt<W: fmt::Write>(&self, f: &mut fmt::Formatter<W>) -> fmt::Result {
        f.write_str(match self {
            FollowerState::Served => "served",
            FollowerState::Ended => "ended",
            FollowerState::GivenUp => "given up",
        })
    }
}

impl fmt::Display for FollowerCounts {
    fn fmt<W: fmt::Write>(&self, f: &mut fmt::Formatter<W>) -> fmt::Result {
        let FollowerCounts {
            place,
            since,
            asked,
            answered,
            bytes,
            state,
        } = *self;
        write!(
            f,
            "follower {place}: since {since} s, asked {asked} times, answered {answered} times, {bytes} bytes, {state}\n"
        )
    }
}

impl fmt::Display for SeenFollowers {
    fn fmt<W: fmt::Write>(&self, f: &mut fmt::Formatter<W>) -> fmt::Result {
        let (serves, left, missing, served) = (
            self.serves,
            self.left(),
            self.missing(),
            self.served(),
        );
        if serves == 0 {
            Ok(())
        } else if self.is_given_up {
            f.write_str("followers are waited for no longer\n")
        } else if left == 0 {
            f.write_str("all followers have ended\n")
        } else {
            write!(
                f,
                "the end waits for {left} of {serves} followers: {missing} not connected, {served} served\n"
            )
        }
    }
}
