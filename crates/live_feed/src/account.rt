//! The account of a day's lines: what became of each participant's messages.

use crate::line_counts::{LineStage, MessageCounts, RefusedFor};
use participant_lines::{ALL_REASONS, LineOutcome};
use std::alloc::{AllocError, Global};
use std::fmt;
use tape_types::Participant;
use whole_io::Lines;

/// How a participant's line came out.
#[derive(Clone, Copy, Debug, PartialEq, Eq)]
pub(crate) struct LineAccount {
    /// Whose line it is.
    pub(crate) who: Participant,
    /// How far it came.
    pub(crate) stage: LineStage,
    /// What became of its messages.
    pub(crate) counts: MessageCounts,
    /// Why no more were done.
    pub(crate) ended: LineOutcome,
    /// Whether it was open when the day was ended, which is no fault of its participant.
    pub(crate) was_cut: bool,
}

/// What is said of a participant in a line.
#[derive(Clone, Copy)]
enum Said {
    /// What became of its messages.
    Counts(MessageCounts),
    /// Its messages that were refused for a reason.
    Refused(RefusedFor),
    /// Why it did not connect.
    Absent(LineStage),
    /// Why no more of its messages were done.
    Ended(&'static str),
}

/// A line about a participant.
#[derive(Clone, Copy)]
struct Of(Participant, Said);

/// How many followers were waited for no longer.
#[derive(Clone, Copy)]
struct GivenUp(u32);

impl fmt::Display for Said {
    fn fmt<W: fmt::Write>(&self, f: &mut fmt::Formatter<W>) -> fmt::Result {
        match *self {
            Said::Counts(counts) => write!(f, "{counts}"),
            Said::Refused(refused) => write!(f, "{refused}"),
            Said::Absent(stage) => write!(f, "{stage}"),
            Said::Ended(words) => f.write_str(words),
        }
    }
}

impl fmt::Display for Of {
    fn fmt<W: fmt::Write>(&self, f: &mut fmt::Formatter<W>) -> fmt::Result {
        let Of(who, said) = *self;
        let who = char::from(who.value());
        write!(f, "{who}: {said}")
    }
}

impl fmt::Display for GivenUp {
    fn fmt<W: fmt::Write>(&self, f: &mut fmt::Formatter<W>) -> fmt::Result {
        let given_up = self.0;
        let followers = if given_up == 1 {
            "follower was"
        } else {
            "followers were"
        };
        write!(f, "{given_up} {followers} waited for no longer")
    }
}

/// What is said of a line that did not end cleanly, or that was open when the day was ended.
fn end_words(ended: LineOutcome, was_cut: bool) -> Option<&'static str> {
    match (ended, was_cut) {
        (LineOutcome::Clean, false) => None,
        (LineOutcome::Clean, true) => Some("the day was ended while the line was open"),
        (LineOutcome::Truncated, false) => Some("the line ended within a message"),
        (LineOutcome::Truncated, true) => Some("the day was ended within a message"),
        (LineOutcome::Oversize, _) => Some("the line ended at a length that no message has"),
        (LineOutcome::ReadFault, _) => Some("the line ended at a read that failed"),
        (LineOutcome::TooMany, _) => {
            Some("the line ended after as many messages as one may have")
        }
        (LineOutcome::OutOfMemory, _) => Some("the line ended for want of memory"),
        (LineOutcome::Behind, _) => Some("the line ended at a tape that disagrees"),
    }
}

/// Appends what became of a participant's messages.
fn push_messages(lines: &mut Lines, account: &LineAccount) -> Result<(), AllocError> {
    lines.push(&Of(account.who, Said::Counts(account.counts)))?;
    for reason in ALL_REASONS {
        if let Some(frames) = account.counts.tally.of(reason) {
            let refused = Said::Refused(RefusedFor { reason, frames });
            lines.push(&Of(account.who, refused))?;
        }
    }
    Ok(())
}

/// Appends the lines of a participant.
fn push_account(lines: &mut Lines, account: &LineAccount) -> Result<(), AllocError> {
    if account.stage.is_counted(&account.counts) {
        push_messages(lines, account)?;
    }
    if !account.stage.has_connected() {
        return lines.push(&Of(account.who, Said::Absent(account.stage)));
    }
    match end_words(account.ended, account.was_cut) {
        Some(words) => lines.push(&Of(account.who, Said::Ended(words))),
        None => Ok(()),
    }
}

/// The account of a day: the lines of each participant, in listing order, and how many followers were given up.
pub(crate) fn account_of(
    alloc: Global,
    accounts: &[LineAccount],
    given_up: u32,
) -> Result<Lines, AllocError> {
    let mut lines = Lines::new(alloc);
    for account in accounts {
        push_account(&mut lines, account)?;
    }
    if given_up > 0 {
        lines.push(&GivenUp(given_up))?;
    }
    Ok(lines)
}
