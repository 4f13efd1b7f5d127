//! What is known of a participant's line at one moment, and how it prints.
ghost use Rattle.std.specs.Prelude.{◌≡◌, ◌+◌, ◌-◌, ◌^◌, [], min};
ghost use Rattle.live_feed.specs.Accounts.{has_connected, is_awaited, is_counted};
ghost use Rattle.live_feed.specs.declared.line_counts.LineStage.TheVariants.{Awaited};
ghost use Rattle.participant_lines.specs.Tallies.{AreCounted};

use participant_lines::{ALL_REASONS, Reason, RefusedFrames, Tally};
use std::fmt;
use tape_types::Participant;

/// What became of a line's messages.
#[derive(Clone, Copy, Debug, PartialEq, Eq)]
pub(crate) struct MessageCounts {
    /// How many were admitted.
    pub(crate) admitted: u32,
    /// The number of the last one that was, 0 for none.
    pub(crate) last: u32,
    /// Those that were refused.
    pub(crate) tally: Tally,
}

/// How far a line has come.
#[derive(Clone, Copy, Debug, PartialEq, Eq)]
pub(crate) enum LineStage {
    /// Its connection is waited for.
    Awaited,
    /// Its connection did not come within this many seconds.
    Absent(u32),
    /// The day was ended before its connection came.
    Unawaited,
    /// It is open since this many whole seconds after the day's start.
    Open(u64),
    /// It has ended, and was open since then.
    Closed(u64),
}

/// A participant's line as it was at one moment.
#[derive(Clone, Copy, Debug, PartialEq, Eq)]
pub(crate) struct SeenLine {
    /// Whose line it is.
    pub(crate) who: Participant,
    /// How far it has come.
    pub(crate) stage: LineStage,
    /// What became of its messages.
    pub(crate) counts: MessageCounts,
    /// How many of its messages the day's journal had when the day began, which are counted too.
    pub(crate) before: u32,
}

impl MessageCounts {
    /// Nothing came yet.
    pub(crate) fn none() -> MessageCounts
        ensures { (result.admitted ≡ 0) × (result.last ≡ 0) × AreCounted [] result.tally }
    {
        MessageCounts {
            admitted: 0,
            last: 0,
            tally: Tally::none(),
        }
    }

    /// The counts of a line of which this many messages were admitted before the day goes on, the last with this number.
    pub(crate) fn before(admitted: u32, last: u32) -> MessageCounts
        ensures numbers { (result.admitted ≡ admitted) × (result.last ≡ last) }
        ensures tally { AreCounted [] result.tally }
    {
        MessageCounts {
            admitted,
            last,
            ..MessageCounts::none()
        }
    }

    /// What became of a line's messages once this many were done and these of them refused, after those of a day that goes on.
    pub(crate) fn so_far(before: u32, done: u32, last: u32, tally: &Tally) -> MessageCounts
        ensures admitted { result.admitted ≡ min (before + (done - tally.now.refused)) (2 ^ 32 - 1) }
        ensures others { (result.last ≡ last) × (result.tally ≡ tally.now) }
    {
        MessageCounts {
            admitted: before.saturating_add(done.saturating_sub(tally.refused())),
            last,
            tally: *tally,
        }
    }
}

impl LineStage {
    /// Whether the participant connected.
    pub(crate) fn has_connected(self) -> bool
        ensures { result ≡ has_connected self }
    {
        matches!(self, LineStage::Open(_) | LineStage::Closed(_))
    }

    /// Whether a line's counts are said: its participant has connected, or the day goes on after some of its messages.
    pub(crate) fn is_counted(self, counts: &MessageCounts) -> bool
        ensures { result ≡ is_counted self counts.now }
    {
        self.has_connected() || counts.admitted != 0
    }

    /// Whether the day's end waits for the line.
    pub(crate) fn is_awaited(self) -> bool
        ensures { result ≡ is_awaited self }
    {
        matches!(self, LineStage::Awaited | LineStage::Open(_))
    }
}

impl SeenLine {
    /// The line of a participant that has not connected, of which nothing came.
    pub(crate) fn awaited(who: Participant) -> SeenLine
        ensures line { (result.who ≡ who) × (result.stage ≡ Awaited) × (result.before ≡ 0) }
        ensures counts { (result.counts.admitted ≡ 0) × (result.counts.last ≡ 0) × AreCounted [] result.counts.tally }
    {
        SeenLine {
            who,
            stage: LineStage::Awaited,
            counts: MessageCounts::none(),
            before: 0,
        }
    }

    /// The line once it is known to go on after this many messages of the day's journal, the last with this number.
    pub(crate) fn going_on(self, admitted: u32, last: u32) -> SeenLine
        ensures line { (result.who ≡ self.who) × (result.stage ≡ self.stage) × (result.before ≡ admitted) }
        ensures counts { (result.counts.admitted ≡ admitted) × (result.counts.last ≡ last) × AreCounted [] result.counts.tally }
    {
        SeenLine {
            counts: MessageCounts::before(admitted, last),
            before: admitted,
            ..self
        }
    }

    /// The line once this many messages were done after those that it goes on after, and these of them refused.
    pub(crate) fn after(self, done: u32, last: u32, tally: &Tally) -> SeenLine
        ensures line { (result.who ≡ self.who) × (result.stage ≡ self.stage) × (result.before ≡ self.before) }
        ensures admitted { result.counts.admitted ≡ min (self.before + (done - tally.now.refused)) (2 ^ 32 - 1) }
        ensures others { (result.counts.last ≡ last) × (result.counts.tally ≡ tally.now) }
    {
        SeenLine {
            counts: MessageCounts::so_far(self.before, done, last, tally),
            ..self
        }
    }
}

/// The messages of a line that were refused for a reason. It prints as how many they are, and why.
#[derive(Clone, Copy)]
pub(crate) struct RefusedFor {
    pub(crate) reason: Reason,
    pub(crate) frames: RefusedFrames,
}

impl fmt::Display for RefusedFor {
    fn fmt<W: fmt::Write>(&self, f: &mut fmt::Formatter<W>) -> fmt::Result {
        let RefusedFor { reason, frames } = *self;
        let (code, name) = (reason.code(), reason.name());
        let RefusedFrames { count, first } = frames;
        write!(f, "{count} refused by {code} {name}")?;
        match reason {
            Reason::Unspelled(_) => Ok(()),
            Reason::Refused(_) => write!(f, ", the first with number {first}"),
        }
    }
}

impl fmt::Display for MessageCounts {
    fn fmt<W: fmt::Write>(&self, f: &mut fmt::Formatter<W>) -> fmt::Result {
        let MessageCounts { admitted, last, .. } = *self;
        let messages = u64::from(admitted) + u64::from(self.tally.refused());
        write!(
            f,
            "{messages} messages, {admitted} admitted, last number {last}"
        )
    }
}

impl fmt::Display for LineStage {
    fn fmt<W: fmt::Write>(&self, f: &mut fmt::Formatter<W>) -> fmt::Result {
        match *self {
            LineStage::Awaited => f.write_str("not connected"),
            LineStage::Absent(seconds) => write!(f, "did not connect within {seconds} seconds"),
            LineStage::Unawaited => f.write_str("did not connect before the day was ended"),
            LineStage::Open(since) => write!(f, "connected since {since} s"),
            LineStage::Closed(since) => write!(f, "ended, connected since {since} s"),
        }
    }
}

/// Prints the lines of the reasons for which messages were refused, by rising number.
fn print_refused<W: fmt::Write>(
    f: &mut fmt::Formatter<W>,
    who: Participant,
    tally: &Tally,
) -> fmt::Result {
    let who = char::from(who.value());
    for reason in ALL_REASONS {
        if let Some(frames) = tally.of(reason) {
            let refused = RefusedFor { reason, frames };
            write!(f, "{who}: {refused}\n")?;
        }
    }
    Ok(())
}

impl fmt::Display for SeenLine {
    fn fmt<W: fmt::Write>(&self, f: &mut fmt::Formatter<W>) -> fmt::Result {
        let (who, stage, counts) = (char::from(self.who.value()), self.stage, self.counts);
        if !stage.is_counted(&counts) {
            return write!(f, "{who}: {stage}\n");
        }
        write!(f, "{who}: {stage}, {counts}\n")?;
        print_refused(f, self.who, &counts.tally)
    }
}
