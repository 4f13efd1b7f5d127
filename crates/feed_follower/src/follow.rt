//! Follows a day: reads both lines, asks for what is missing, and writes the report of the tape that it comes to hold.
ghost use Rattle.std.specs.Prelude.{◌≡◌, ◌≢◌, ◌⊎◌, ◌≤◌, [], Err, IfErr, IfOk, IfSome, IsSome, None, OnOk, Some, length, true};
ghost use Rattle.std.specs.Io.KnownBytes.{Appends};
ghost use Rattle.day_report.specs.ReportText.{report_text};
ghost use Rattle.day_report.specs.Rows.{report_rows};
ghost use Rattle.feed_ends.specs.Faults.{fault_status};
ghost use Rattle.feed_ends.specs.Reports.{IsListing, WritesItsReport, WritesOneReport};
ghost use Rattle.feed_follower.specs.Accounts.{new_account};
ghost use Rattle.feed_follower.specs.Followers.{HasAllOf};
ghost use Rattle.feed_follower.specs.Reported.{follow_fault};
ghost use Rattle.feed_follower.specs.Sinks.{GivesItsReport, GivesPart, GivesTape, IsTapeOf, rows_of};
ghost use Rattle.feed_ends.specs.declared.fault.Fault.TheVariants.{Write as WriteFault};
ghost use Rattle.tape_core.specs.Tape.{IsLegal};

use crate::followed::Followed;
use crate::follower::{Follower, subscribe};
use crate::held_name::HeldName;
use crate::requester::Requester;
use crate::run::{ReadyRun, Run, follow_at_once};
use crate::{EntrySink, FollowAccount, FollowFault, FollowSockets};
use day_terms::FollowTerms;
use days::Day;
use feed_ends::{Fault, write_day};
use sale_matrix::Matrix;
use std::alloc::Global;
use std::io::Write;
use std::marker::Brand;
use std::net::{Net, TcpListener, TcpStream};
use std::sync::Wait;
use std::thread::Threads;
use subscriber::Subscriber;
use tape_types::{Listing, TapeNumber};

/// What a run does besides its terms.
#[derive(Clone, Copy)]
pub(crate) struct Ways {
    /// Whether it settles conflicts: it asks for each number of which packets did not agree.
    settles: bool,
    /// The number of entries held at which it restarts.
    restart_after: Option<u32>,
}

impl Ways {
    /// Those of a day that is given by a file: it settles conflicts and does not restart.
    pub(crate) fn of_day() -> Ways
        ensures { result ≡ record { settles = true; restart_after = None } }
    {
        Ways {
            settles: true,
            restart_after: None,
        }
    }
}

/// What a run has once it is connected, before it has a sink.
#[derive(Drop)]
struct StartedRun<'a> {
    requester: Requester,
    subscriber: Subscriber,
    ready: ReadyRun<'a>,
}

/// Returns the lines of a run, with another handle of the requester's connection.
fn ready<'a>(
    alloc: Global,
    sockets: &'a FollowSockets,
    requester: &Requester,
) -> Result<ReadyRun<'a>, Fault> {
    ReadyRun::new(alloc, sockets, requester.handle()?)
}

/// Connects to the retransmission and makes a subscriber that holds nothing. It connects before it allocates, so that a sender
/// that awaits it does not wait in vain if memory runs out.
fn start<'a, R: Net<Listener = TcpListener, Stream = TcpStream> + Wait>(
    rt: &R,
    alloc: Global,
    terms: FollowTerms,
    sockets: &'a FollowSockets,
) -> Result<StartedRun<'a>, FollowFault>
    ensures listed { IfOk result (λ started. started.subscriber.tape.listing ≡ terms.day.listing) }
    ensures by_matrix { IfOk result (λ started. started.subscriber.tape.matrix ≡ terms.day.matrix) }
    ensures limited { IfOk result (λ started. started.subscriber.tape.limit ≡ terms.day.limit) }
    ensures nothing { IfOk result (λ started. started.subscriber.tape.entries ≡ []) }
    ensures session { IfOk result (λ started. started.subscriber.window.session ≡ terms.day.session) }
{
    let FollowTerms {
        day,
        connect_within,
    } = terms;
    let requester = Requester::new(rt, alloc, sockets.retransmission, connect_within)?;
    let Day {
        listing,
        matrix,
        limit,
        session,
    } = day;
    let subscriber = subscribe(alloc, listing, limit.value(), matrix, session)?;
    let ready = ready(alloc, sockets, &requester)?;
    Ok(StartedRun {
        requester,
        subscriber,
        ready,
    })
}

/// Returns what is left if no run began.
#[tactic(auto, using(crate::proofs::Rows::part_of_nothing))]
fn not_begun<S: EntrySink>(session: u64, fault: FollowFault, sink: S) -> Followed<S>
    ensures subscriber { result.subscriber ≡ None }
    ensures ended { result.ended ≡ Err (follow_fault fault) }
    ensures sink { result.sink ≡ sink }
    ensures account { result.account ≡ new_account session }
    ensures why { result.why ≡ Some fault }
{
    Followed {
        subscriber: None,
        ended: Err(fault.fault()),
        why: Some(fault),
        account: FollowAccount::nothing(session),
        sink,
    }
}

/// Follows the day under the name of its tape: reads both lines, asks for what they lack until everything is held, and gives
/// the sink each entry as soon as it is held. Returns what is held, how the run ended, and the sink. The connection is closed
/// by then.
#[tactic(auto, using(crate::proofs::Rows::part_of_nothing))]
pub(crate) fn follow<
    N: HeldName + Send,
    S: EntrySink + Send,
    R: Threads + Wait + Net<Listener = TcpListener, Stream = TcpStream> + Sync,
>(
    rt: &R,
    alloc: Global,
    terms: FollowTerms,
    sockets: &FollowSockets,
    ways: Ways,
    sink: S,
) -> Followed<S>
    requires listing { terms.day.listing ≡ N.listing }
    requires matrix { terms.day.matrix ≡ N.matrix }
    requires limit { terms.day.limit ≡ N.limit }
    requires session { terms.day.session ≡ N.session }
    requires before { S.contents sink ≡ N.before }
    ensures tape { IfSome result.subscriber (λ subscriber. IsTapeOf terms.day.listing terms.day.matrix terms.day.limit subscriber.tape) }
    ensures some { OnOk result.ended (IsSome result.subscriber) }
    ensures session { IfSome result.subscriber (λ subscriber. subscriber.window.session ≡ terms.day.session) }
    ensures given { OnOk result.ended (IfSome result.subscriber (λ subscriber. Appends (S.contents sink) (S.contents result.sink) (rows_of S.text subscriber.tape))) }
    ensures part { GivesPart S.text terms.day.listing terms.day.matrix terms.day.limit (S.contents sink) (S.contents result.sink) }
    ensures whole { OnOk result.ended (IfSome result.subscriber HasAllOf) }
    ensures settled { OnOk result.ended (result.account.unsettled ≡ 0) }
    ensures unbegun { result.subscriber ≡ None → result.account ≡ new_account terms.day.session }
    ensures account { result.account.session ≡ terms.day.session }
    ensures held { IfSome result.subscriber (λ subscriber. result.account.held ≡ length subscriber.tape.entries) }
{
    let session = terms.day.session;
    let started = match start(rt, alloc, terms, sockets) {
        Ok(started) => started,
        Err(fault) => return not_begun(session, fault, sink),
    };
    let follower: Follower<N, S> = Follower::new(
        alloc,
        started.subscriber,
        session,
        ways.restart_after,
        ways.settles,
        sink,
    );
    let run = Run::new(alloc, follower, started.ready);
    follow_at_once(rt, &run, started.requester);
    run.into_follower().into_followed()
}

/// Follows the day as its arguments in a row say: it does not settle conflicts, so packets with another entry are dropped.
/// Returns the subscriber that holds everything, or the run's fault, and the sink.
fn follow_plainly<
    N: HeldName + Send,
    S: EntrySink + Send,
    R: Threads + Wait + Net<Listener = TcpListener, Stream = TcpStream> + Sync,
>(
    rt: &R,
    alloc: Global,
    terms: FollowTerms,
    sockets: &FollowSockets,
    restart_after: Option<u32>,
    sink: S,
) -> (Result<Subscriber, Fault>, S)
    requires listing { terms.day.listing ≡ N.listing }
    requires matrix { terms.day.matrix ≡ N.matrix }
    requires limit { terms.day.limit ≡ N.limit }
    requires session { terms.day.session ≡ N.session }
    requires before { S.contents sink ≡ N.before }
    ensures tape { IfOk result.0 (λ subscriber. IsTapeOf terms.day.listing terms.day.matrix terms.day.limit subscriber.tape) }
    ensures session { IfOk result.0 (λ subscriber. subscriber.window.session ≡ terms.day.session) }
    ensures given { IfOk result.0 (λ subscriber. Appends (S.contents sink) (S.contents result.1) (rows_of S.text subscriber.tape)) }
    ensures part { GivesPart S.text terms.day.listing terms.day.matrix terms.day.limit (S.contents sink) (S.contents result.1) }
    ensures whole { IfOk result.0 HasAllOf }
{
    let ways = Ways {
        settles: false,
        restart_after,
    };
    let followed = follow::<N, S, R>(rt, alloc, terms, sockets, ways, sink);
    followed.into_held()
}

/// Writes the report of what a subscriber holds.
pub(crate) fn report<R: Threads + Sync, W: Write>(
    rt: &R,
    alloc: Global,
    subscriber: &Subscriber,
    writer: &mut W,
) -> Result<(), Fault>
    ensures legal { IsLegal subscriber.now.tape }
    ensures names { IsListing subscriber.now.tape.listing }
    ensures written { OnOk result (Appends (W.contents writer.old) (W.contents writer.new) (report_text (report_rows subscriber.now.tape))) }
    ensures unwritten { IfErr result (λ fault. fault ≢ WriteFault → writer.new ≡ writer.old) }
{
    // For the proof alone: by the clauses of this call what is held is a legal tape, whatever came.
    let _ = subscriber.held();
    write_day(rt, alloc, subscriber.tape(), writer)
}

/// Returns the status of a run: 0 if it ended well.
fn status_of(ended: Result<(), Fault>) -> u8
    ensures done { OnOk ended (result ≡ 0) }
    ensures fault { IfErr ended (λ fault. result ≡ fault_status fault) }
    ensures range { IfErr ended (λ fault. (3 ≤ result) × (result ≤ 7)) }
{
    match ended {
        Ok(()) => 0,
        Err(fault) => fault.status(),
    }
}

/// Returns the status of a run whose limit is out of range. It connects first, so that a sender that awaits it does not wait in
/// vain.
fn status_without_limit<R: Net<Listener = TcpListener, Stream = TcpStream> + Wait>(
    rt: &R,
    alloc: Global,
    sockets: &FollowSockets,
) -> u8
    ensures { (3 ≤ result) × (result ≤ 7) }
{
    match Requester::new(rt, alloc, sockets.retransmission, None) {
        Ok(requester) => {
            drop(requester);
            Fault::Disagrees.status()
        }
        Err(fault) => fault.fault().status(),
    }
}

/// Follows a day as `follow_over` does, for these terms. It returns well only if the report was written whole and flushed, and
/// the sink was given each entry of the same tape. Otherwise it returns the fault whose status `follow_over` returns.
pub fn follow_ended<
    R: Threads + Wait + Net<Listener = TcpListener, Stream = TcpStream> + Sync,
    S: EntrySink + Send,
    W: Write,
>(
    rt: &R,
    alloc: Global,
    terms: FollowTerms,
    sockets: FollowSockets,
    restart_after: Option<u32>,
    sink: S,
    writer: &mut W,
) -> (Result<(), Fault>, S)
    ensures report { OnOk result.0 (WritesOneReport (W.contents writer.old) (W.contents writer.new)) }
    ensures listed { OnOk result.0 (WritesItsReport terms.day.listing terms.day.matrix terms.day.limit (W.contents writer.old) (W.contents writer.new)) }
    ensures given { OnOk result.0 (GivesItsReport S.text terms.day.listing terms.day.matrix terms.day.limit (S.contents sink) (S.contents result.1) (W.contents writer.old) (W.contents writer.new)) }
    ensures part { GivesPart S.text terms.day.listing terms.day.matrix terms.day.limit (S.contents sink) (S.contents result.1) }
    ensures unwritten { IfErr result.0 (λ fault. fault ≢ WriteFault → writer.new ≡ writer.old) }
{
    let (held, sink) = follow_plainly::<Brand, S, R>(
        rt,
        alloc,
        terms,
        &sockets,
        restart_after,
        sink,
    );
    let subscriber = match held {
        Ok(subscriber) => subscriber,
        Err(fault) => return (Err(fault), sink),
    };
    let written = report(rt, alloc, &subscriber, writer);
    drop(subscriber);
    (written, sink)
}

/// Follows a day over sockets until its end is known and all of it is held, and writes the report of what is held to `writer`.
/// A sink is given each entry as soon as it is held. Returns the status and the sink.
///
/// It connects to the retransmission, reads lines A and B, and asks for what is missing beside them, so that both lines are
/// read while an answer is awaited. Bytes that are no packet of the day are dropped. With `restart_after` the first subscriber
/// is dropped once it holds so many entries or more, which is looked at before the end is: its connection is closed, and a new
/// subscriber starts with nothing, on a connection of its own. A sink that was given entries is told so, and if it refuses, its
/// fault ends the run. That the run ends is not claimed: it does not if both lines lose all that is left while the connection
/// stays open.
///
/// The status is 0 only if the report was written whole and flushed, and the sink was given each entry of the same tape.
/// Otherwise nothing was written to `writer`, or part of the report before a write that failed: 3 if a socket cannot be opened
/// or read, or if the connection was closed and nothing more came; 4 if a write fails, the sink's too; 5 if memory runs out,
/// the sink's too; 6 if no thread can be started; 7 if the feed is no tape, carries other summaries, refuses or falsifies what
/// is asked for, and for a limit outside 1 to `TAPE_MOST`. Whatever the status, the sink has the rows of entries of a legal
/// tape, up to some byte of them.
pub fn follow_over<
    R: Threads + Wait + Net<Listener = TcpListener, Stream = TcpStream> + Sync,
    S: EntrySink + Send,
    W: Write,
>(
    rt: &R,
    alloc: Global,
    listing: Listing,
    limit: u32,
    matrix: Matrix,
    session: u64,
    sockets: FollowSockets,
    restart_after: Option<u32>,
    sink: S,
    writer: &mut W,
) -> (u8, S)
    ensures report { result.0 ≡ 0 → WritesOneReport (W.contents writer.old) (W.contents writer.new) }
    ensures listed { result.0 ≡ 0 → WritesItsReport listing matrix limit (W.contents writer.old) (W.contents writer.new) }
    ensures given { result.0 ≡ 0 → GivesItsReport S.text listing matrix limit (S.contents sink) (S.contents result.1) (W.contents writer.old) (W.contents writer.new) }
    ensures part { GivesPart S.text listing matrix limit (S.contents sink) (S.contents result.1) }
    ensures unwritten { result.0 ≢ 0 → result.0 ≢ 4 → writer.new ≡ writer.old }
    ensures status { (result.0 ≡ 0) ⊎ ((3 ≤ result.0) × (result.0 ≤ 7)) }
{
    let Some(limit) = TapeNumber::try_new(limit) else {
        return (status_without_limit(rt, alloc, &sockets), sink);
    };
    let day = Day {
        listing,
        matrix,
        limit,
        session,
    };
    let terms = FollowTerms {
        day,
        connect_within: None,
    };
    let (ended, sink) = follow_ended(rt, alloc, terms, sockets, restart_after, sink, writer);
    (status_of(ended), sink)
}

/// Follows a day as `follow_ended` does, without a report and without a restart. A sink is given each entry as soon as it is
/// held, and is returned.
///
/// It returns well only if the day's end is known and the sink was given all entries. Otherwise the fault is one of those of
/// `follow_ended`: `Write` and `Memory` if the sink failed, or if a request to the retransmission did. However it ends, the
/// sink has the rows of entries of a legal tape, up to some byte of them.
pub fn follow_tape<
    R: Threads + Wait + Net<Listener = TcpListener, Stream = TcpStream> + Sync,
    S: EntrySink + Send,
>(
    rt: &R,
    alloc: Global,
    terms: FollowTerms,
    sockets: FollowSockets,
    sink: S,
) -> (Result<(), Fault>, S)
    ensures given { OnOk result.0 (GivesTape S.text terms.day.listing terms.day.matrix terms.day.limit (S.contents sink) (S.contents result.1)) }
    ensures part { GivesPart S.text terms.day.listing terms.day.matrix terms.day.limit (S.contents sink) (S.contents result.1) }
{
    let (held, sink) = follow_plainly::<Brand, S, R>(rt, alloc, terms, &sockets, None, sink);
    match held {
        Ok(subscriber) => {
            drop(subscriber);
            (Ok(()), sink)
        }
        Err(fault) => (Err(fault), sink),
    }
}
