//! Follows a day that is given by a file: it settles conflicts, does not restart, and returns an account.
ghost use Rattle.std.specs.Prelude.{◌≡◌, ◌≢◌, Err, IfErr, IfOk, IfSome, IsOk, IsSome, IsSomeAnd, None, OnOk, false, length, true};
ghost use Rattle.std.specs.Io.KnownBytes.{Appends};
ghost use Rattle.day_report.specs.ReportText.{report_text};
ghost use Rattle.day_report.specs.Rows.{report_rows};
ghost use Rattle.feed_ends.specs.Reports.{IsListing, WritesItsReport, WritesOneReport};
ghost use Rattle.feed_ends.specs.declared.fault.Fault.TheVariants.{Read as ReadFault, Write as WriteFault};
ghost use Rattle.feed_follower.specs.Accounts.{new_account};
ghost use Rattle.feed_follower.specs.Reported.{IsNamed, WritesReportOf, follow_fault};
ghost use Rattle.feed_follower.specs.Sinks.{GivesItsReport, GivesPart, GivesTape};
ghost use Rattle.feed_follower.specs.declared.follow_fault.FollowFault.TheVariants.{Ended};
ghost use Rattle.tape_core.specs.Tape.{IsLegal};

use crate::follow::{Ways, follow, report};
use crate::followed::Followed;
use crate::follower::held_count;
use crate::{EntrySink, FollowEnd, FollowFault, FollowSockets};
use day_terms::FollowTerms;
use feed_ends::Fault;
use std::alloc::Global;
use std::io::Write;
use std::marker::Brand;
use std::net::{Net, TcpListener, TcpStream};
use std::sync::Wait;
use std::thread::Threads;
use subscriber::Subscriber;

/// Writes the report of what is held, if it is wanted and a run began, and returns of how many entries it is, or its fault.
fn report_held<R: Threads + Sync, W: Write>(
    rt: &R,
    alloc: Global,
    held: &Option<Subscriber>,
    is_wanted: bool,
    writer: &mut W,
) -> Option<Result<u32, Fault>>
    ensures none { result ≡ None → writer.new ≡ writer.old }
    ensures unwanted { is_wanted ≡ false → result ≡ None }
    ensures wanted { is_wanted ≡ true → IsSome held.now → IsSome result }
    ensures held { IsSome result → IsSome held.now }
    ensures written { IfSome result (λ made. IfOk made (λ count. IfSome held.now (λ s. IsListing s.tape.listing × IsLegal s.tape
        × (length s.tape.entries ≡ count) × Appends (W.contents writer.old) (W.contents writer.new) (report_text (report_rows s.tape))))) }
    ensures unwritten { IfSome result (λ made. IfErr made (λ fault. fault ≢ WriteFault → writer.new ≡ writer.old)) }
{
    match held {
        Some(subscriber) if is_wanted => match report(rt, alloc, subscriber, writer) {
            Ok(()) => Some(Ok(held_count(subscriber))),
            Err(fault) => Some(Err(fault)),
        },
        Some(_) | None => None,
    }
}

/// Returns how a day without a report ended: as its run did, with the name of the fault.
fn named_end(ended: Result<(), Fault>, why: Option<FollowFault>) -> Result<(), FollowFault>
    ensures well { IsOk result → IsOk ended }
    ensures done { IsOk ended → IsOk result }
    ensures fault { IfErr ended (λ fault. IfErr result (λ named. (follow_fault named ≡ fault) × IsNamed why fault named)) }
{
    ended.map_err(|fault| FollowFault::naming(fault, why))
}

/// Returns how a day with a report ended: by the fault of its run, if it has one, otherwise by that of the report.
fn ended_by(
    ended: Result<(), Fault>,
    why: Option<FollowFault>,
    report: Option<Result<u32, Fault>>,
) -> Result<(), FollowFault>
    ensures well { IsOk result → IsOk ended }
    ensures reported { IsOk result → IsSomeAnd report (λ made. IsOk made) }
    ensures done { IsOk ended → IsSomeAnd report (λ made. IsOk made) → IsOk result }
    ensures fault { IfErr ended (λ fault. IfErr result (λ named. (follow_fault named ≡ fault) × IsNamed why fault named)) }
    ensures unmade { IsOk ended → IfSome report (λ made. IfErr made (λ fault. result ≡ Err (Ended fault))) }
    ensures unreported { IsOk ended → report ≡ None → result ≡ Err (Ended ReadFault) }
{
    match (ended, report) {
        (Err(fault), _) => Err(FollowFault::naming(fault, why)),
        (Ok(()), Some(Ok(_))) => Ok(()),
        (Ok(()), Some(Err(fault))) => Err(FollowFault::Ended(fault)),
        (Ok(()), None) => Err(FollowFault::Ended(Fault::Read)),
    }
}

/// Follows a day as `follow_over` does, without a restart, and returns how it ended and what was heard.
///
/// It tries to connect to the retransmission for `connect_within` seconds, at the start and after a connection that has ended.
/// A packet of the session with another entry than the one known is dropped, and the retransmission is asked for the number of
/// that entry once nothing is missing: if it has another entry, or none below the known end, the run ends by `OtherEntry`. So
/// the day ends well only if what is held is what the retransmission has, at each number on which packets did not agree.
///
/// The day ends well only if the report was written whole and flushed, and the sink was given each entry of the same tape. With
/// `is_partial` the report of what is held is also written if the day ended by a fault, unless no run began; the fault stays
/// what it is. The faults are those whose statuses `follow_over` returns. However it ends, the sink has the rows of entries of
/// a legal tape, up to some byte of them.
pub fn follow_day<
    R: Threads + Wait + Net<Listener = TcpListener, Stream = TcpStream> + Sync,
    S: EntrySink + Send,
    W: Write,
>(
    rt: &R,
    alloc: Global,
    terms: FollowTerms,
    sockets: FollowSockets,
    is_partial: bool,
    sink: S,
    writer: &mut W,
) -> (FollowEnd, S)
    ensures report { OnOk result.0.ended (WritesOneReport (W.contents writer.old) (W.contents writer.new)) }
    ensures listed { OnOk result.0.ended (WritesItsReport terms.day.listing terms.day.matrix terms.day.limit (W.contents writer.old) (W.contents writer.new)) }
    ensures given { OnOk result.0.ended (GivesItsReport S.text terms.day.listing terms.day.matrix terms.day.limit (S.contents sink) (S.contents result.1) (W.contents writer.old) (W.contents writer.new)) }
    ensures part { GivesPart S.text terms.day.listing terms.day.matrix terms.day.limit (S.contents sink) (S.contents result.1) }
    ensures counted { IfSome result.0.report (λ made. IfOk made (λ count. WritesReportOf terms.day.listing terms.day.matrix terms.day.limit count (W.contents writer.old) (W.contents writer.new))) }
    ensures unwritten { result.0.report ≡ None → writer.new ≡ writer.old }
    ensures unmade { IfSome result.0.report (λ made. IfErr made (λ fault. fault ≢ WriteFault → writer.new ≡ writer.old)) }
    ensures whole { is_partial ≡ false → IfSome result.0.report (λ made. IfOk made (λ count. IsOk result.0.ended)) }
    ensures partial { is_partial ≡ true → result.0.report ≡ None → result.0.account ≡ new_account terms.day.session }
    ensures held { IfSome result.0.report (λ made. IfOk made (λ count. count ≡ result.0.account.held)) }
    ensures settled { OnOk result.0.ended (result.0.account.unsettled ≡ 0) }
    ensures session { result.0.account.session ≡ terms.day.session }
{
    let followed = follow::<Brand, S, R>(rt, alloc, terms, &sockets, Ways::of_day(), sink);
    let Followed {
        subscriber,
        ended,
        why,
        account,
        sink,
    } = followed;
    let is_wanted = is_partial || ended.is_ok();
    let report = report_held(rt, alloc, &subscriber, is_wanted, writer);
    drop(subscriber);
    let ended = ended_by(ended, why, report);
    let end = FollowEnd {
        ended,
        report,
        account,
    };
    (end, sink)
}

/// Follows a day as `follow_day` does, without a report.
pub fn follow_tape_day<
    R: Threads + Wait + Net<Listener = TcpListener, Stream = TcpStream> + Sync,
    S: EntrySink + Send,
>(rt: &R, alloc: Global, terms: FollowTerms, sockets: FollowSockets, sink: S) -> (FollowEnd, S)
    ensures given { OnOk result.0.ended (GivesTape S.text terms.day.listing terms.day.matrix terms.day.limit (S.contents sink) (S.contents result.1)) }
    ensures part { GivesPart S.text terms.day.listing terms.day.matrix terms.day.limit (S.contents sink) (S.contents result.1) }
    ensures report { result.0.report ≡ None }
    ensures settled { OnOk result.0.ended (result.0.account.unsettled ≡ 0) }
    ensures session { result.0.account.session ≡ terms.day.session }
{
    let followed = follow::<Brand, S, R>(rt, alloc, terms, &sockets, Ways::of_day(), sink);
    let Followed {
        subscriber,
        ended,
        why,
        account,
        sink,
    } = followed;
    drop(subscriber);
    let ended = named_end(ended, why);
    let end = FollowEnd {
        ended,
        report: None,
        account,
    };
    (end, sink)
}
