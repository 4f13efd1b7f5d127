//! The status of a day that runs, and how it prints.
ghost use Rattle.std.specs.Prelude.{◌≡◌, ◌<◌, ◌^◌};
ghost use Rattle.std.specs.List.{list_any};
ghost use Rattle.live_feed.specs.Accounts.{is_awaited};
ghost use Rattle.live_feed.specs.Status.{AreFigures, admitted_in_all, messages_of, refused_in_all, restored_in_all};

use crate::follower_counts::{FollowerCounts, SeenFollowers};
use crate::line_counts::SeenLine;
use std::fmt;

/// The figures of a day's lines.
#[derive(Clone, Copy, Debug, PartialEq, Eq)]
pub(crate) struct DayFigures {
    /// How many messages were admitted: the tape's last number.
    pub(crate) admitted: u64,
    /// How many were refused.
    pub(crate) refused: u64,
    /// How many of those that were admitted the day's journal had when the day began.
    pub(crate) restored: u64,
}

/// How many messages of all lines were admitted.
fn admitted_in_all(lines: &[SeenLine]) -> u64
    ensures { admitted_in_all lines.now < 2 ^ 64 → result ≡ admitted_in_all lines.now }
{
    let mut sum: u64 = 0;
    for line in lines {
        sum = sum.saturating_add(u64::from(line.counts.admitted));
    }
    sum
}

/// How many messages of all lines were refused.
fn refused_in_all(lines: &[SeenLine]) -> u64
    ensures { refused_in_all lines.now < 2 ^ 64 → result ≡ refused_in_all lines.now }
{
    let mut sum: u64 = 0;
    for line in lines {
        sum = sum.saturating_add(u64::from(line.counts.tally.refused()));
    }
    sum
}

/// How many messages of all lines the day's journal had when the day began.
fn restored_in_all(lines: &[SeenLine]) -> u64
    ensures { restored_in_all lines.now < 2 ^ 64 → result ≡ restored_in_all lines.now }
{
    let mut sum: u64 = 0;
    for line in lines {
        sum = sum.saturating_add(u64::from(line.before));
    }
    sum
}

impl DayFigures {
    /// The figures of these lines.
    pub(crate) fn of(lines: &[SeenLine]) -> DayFigures
        ensures { AreFigures lines.now result }
    {
        DayFigures {
            admitted: admitted_in_all(lines),
            refused: refused_in_all(lines),
            restored: restored_in_all(lines),
        }
    }

    /// How many messages came since the day began or went on: what was restored came before.
    fn messages(self) -> u64
        ensures { result ≡ messages_of self }
    {
        self.admitted
            .saturating_sub(self.restored)
            .saturating_add(self.refused)
    }
}

/// A day as it was at one moment. It prints as lines.
#[derive(Drop)]
pub(crate) struct DayStatus {
    /// For how many seconds it runs.
    seconds: u64,
    /// Whether it was ended.
    is_ended: bool,
    figures: DayFigures,
    lines: Vec<SeenLine>,
    followers: SeenFollowers,
    ghost figures_are: { AreFigures lines.items figures },
}

impl DayStatus {
    /// The status of a day with these lines and followers.
    pub(crate) fn new(
        seconds: u64,
        is_ended: bool,
        lines: Vec<SeenLine>,
        followers: SeenFollowers,
    ) -> DayStatus
        ensures time { (result.seconds ≡ seconds) × (result.is_ended ≡ is_ended) }
        ensures parts { (result.lines ≡ lines) × (result.followers ≡ followers) }
    {
        DayStatus {
            seconds,
            is_ended,
            figures: DayFigures::of(&lines),
            lines,
            followers,
        }
    }
}

/// Whether a line is waited for.
fn is_any_awaited(lines: &[SeenLine]) -> bool
    ensures { result ≡ list_any (λ l. is_awaited l.stage) lines.now }
{
    for line in lines {
        if line.stage.is_awaited() {
            return true;
        }
    }
    false
}

/// Prints the participants whose lines the day's end waits for.
fn print_awaited<W: fmt::Write>(f: &mut fmt::Formatter<W>, lines: &[SeenLine]) -> fmt::Result {
    if !is_any_awaited(lines) {
        return f.write_str("all lines have ended\n");
    }
    f.write_str("the end waits for the lines of")?;
    for line in lines {
        if line.stage.is_awaited() {
            let who = char::from(line.who.value());
            write!(f, " {who}")?;
        }
    }
    f.write_str("\n")
}

/// Prints the lines of all participants.
fn print_lines<W: fmt::Write>(f: &mut fmt::Formatter<W>, lines: &[SeenLine]) -> fmt::Result {
    for line in lines {
        write!(f, "{line}")?;
    }
    Ok(())
}

/// Prints the lines of all connections of the retransmission.
fn print_followers<W: fmt::Write>(
    f: &mut fmt::Formatter<W>,
    followers: &[FollowerCounts],
) -> fmt::Result {
    for follower in followers {
        write!(f, "{follower}")?;
    }
    Ok(())
}

impl fmt::Display for DayStatus {
    fn fmt<W: fmt::Write>(&self, f: &mut fmt::Formatter<W>) -> fmt::Result {
        let (seconds, admitted) = (self.seconds, self.figures.admitted);
        let rate = self.figures.messages() / seconds.max(1);
        write!(
            f,
            "since {seconds} s, tape number {admitted}, {rate} messages a second\n"
        )?;
        if self.is_ended {
            f.write_str("the day was ended\n")?;
        }
        print_awaited(f, &self.lines)?;
        write!(f, "{}", self.followers)?;
        print_lines(f, &self.lines)?;
        print_followers(f, &self.followers.counts)
    }
}
