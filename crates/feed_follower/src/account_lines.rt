//! The account of a follower's day, as lines for standard error.

use crate::{FollowAccount, FollowEnd, FollowFault, LineCounts};
use feed_ends::Fault;
use std::alloc::{AllocError, Global};
use std::fmt;
use whole_io::Lines;

/// How many there are of something, with the word for one and for any other number.
#[derive(Clone, Copy)]
struct Counted(u64, &'static str, &'static str);

/// How many packets came by a line, and how many of them were dropped for which reason.
#[derive(Clone, Copy)]
struct Packets(LineCounts);

/// A line of an account.
#[derive(Clone, Copy)]
enum AccountLine {
    /// What came by the line of this name.
    Line(&'static str, LineCounts),
    /// How many requests were made, and what came by retransmission.
    Asked(u64, LineCounts),
    /// How many entries came first by each line and by retransmission.
    Entries(FollowAccount),
    /// Another session is heard.
    OtherSession { heard: u64, wanted: u64 },
    /// The session has two senders: this number was told of in two ways.
    TwoSenders { session: u64, number: u32 },
    /// The retransmission has another entry under this number.
    OtherEntry(u32),
    /// The report is of so many entries, the first of the day.
    Part(u32),
}

impl fmt::Display for Counted {
    fn fmt<W: fmt::Write>(&self, f: &mut fmt::Formatter<W>) -> fmt::Result {
        let Counted(count, one, more) = *self;
        let word = if count == 1 { one } else { more };
        write!(f, "{count} {word}")
    }
}

/// Prints how many packets were dropped, and for which reasons, if any were.
fn print_drops<W: fmt::Write>(f: &mut fmt::Formatter<W>, counts: &LineCounts) -> fmt::Result {
    let dropped = counts.dropped();
    let mut is_first = true;
    for (count, reason) in [
        (counts.no_packet, "no packet"),
        (counts.foreign, "of another session"),
        (counts.conflict, "with another entry"),
        (counts.past_end, "past the end"),
    ] {
        if count > 0 && is_first {
            write!(f, ", {dropped} dropped: {count} {reason}")?;
            is_first = false;
        } else if count > 0 {
            write!(f, ", {count} {reason}")?;
        }
    }
    Ok(())
}

impl fmt::Display for Packets {
    fn fmt<W: fmt::Write>(&self, f: &mut fmt::Formatter<W>) -> fmt::Result {
        let packets = Counted(self.0.packets, "packet", "packets");
        write!(f, "{packets}")?;
        print_drops(f, &self.0)
    }
}

impl fmt::Display for AccountLine {
    fn fmt<W: fmt::Write>(&self, f: &mut fmt::Formatter<W>) -> fmt::Result {
        match *self {
            AccountLine::Line(name, counts) => {
                let packets = Packets(counts);
                write!(f, "line {name}: {packets}")
            }
            AccountLine::Asked(asked, counts) => {
                let (requests, packets) = (Counted(asked, "request", "requests"), Packets(counts));
                write!(f, "retransmission: {requests}, {packets}")
            }
            AccountLine::Entries(account) => {
                let (a, b) = (account.a.entries, account.b.entries);
                let others = account.retransmission.entries;
                write!(
                    f,
                    "entries: {a} by line A, {b} by line B, {others} by retransmission"
                )
            }
            AccountLine::OtherSession { heard, wanted } => {
                write!(
                    f,
                    "session {heard} is heard, and session {wanted} was asked for"
                )
            }
            AccountLine::TwoSenders { session, number } => {
                write!(
                    f,
                    "two senders of session {session}: number {number} was told of in two ways"
                )
            }
            AccountLine::OtherEntry(number) => {
                write!(f, "number {number} is not what the retransmission has")
            }
            AccountLine::Part(count) => {
                let entries = Counted(u64::from(count), "entry", "entries");
                write!(f, "the report is of the first {entries}")
            }
        }
    }
}

/// Appends what came by both lines and by retransmission.
fn push_lines(lines: &mut Lines, account: &FollowAccount) -> Result<(), AllocError> {
    lines.push(&AccountLine::Line("A", account.a))?;
    lines.push(&AccountLine::Line("B", account.b))?;
    lines.push(&AccountLine::Asked(account.asked, account.retransmission))?;
    lines.push(&AccountLine::Entries(*account))
}

/// Appends which senders were heard besides the day's.
fn push_heard(lines: &mut Lines, account: &FollowAccount) -> Result<(), AllocError> {
    let session = account.session;
    if let Some(heard) = account.other_session {
        let wanted = session;
        lines.push(&AccountLine::OtherSession { heard, wanted })?;
    }
    if let Some(number) = account.conflict {
        lines.push(&AccountLine::TwoSenders { session, number })?;
    }
    Ok(())
}

/// Appends how a day ended that did not end well.
fn push_end(
    lines: &mut Lines,
    fault: FollowFault,
    report: Option<Result<u32, Fault>>,
) -> Result<(), AllocError> {
    if let FollowFault::OtherEntry(number) = fault {
        lines.push(&AccountLine::OtherEntry(number))?;
    }
    if let Some(Ok(count)) = report {
        lines.push(&AccountLine::Part(count))?;
    }
    Ok(())
}

/// Returns the lines that a follower's day is accounted for with on standard error: how many packets came by each line, and how
/// many were dropped for which reason; how many requests were made; by which line the entries came first; another session that
/// is heard; that two senders have the session; and if the day did not end well, under which number the retransmission has
/// another entry, and of how many entries the report is. That the retransmission could not be reached is not among them.
/// `AllocError` if memory runs out.
pub fn account_of(alloc: Global, end: &FollowEnd) -> Result<Lines, AllocError> {
    let mut lines = Lines::new(alloc);
    push_lines(&mut lines, &end.account)?;
    push_heard(&mut lines, &end.account)?;
    if let Err(fault) = end.ended {
        push_end(&mut lines, fault, end.report)?;
    }
    Ok(lines)
}
