//! Serves the retransmission: all subscribers at once, each in a thread of its own.
ghost use Rattle.std.specs.Prelude.{◌≡◌, ◌≢◌, ◌⊎◌, IfErr, IfSome, None, Some};
ghost use Rattle.feed_ends.specs.declared.fault.Fault.TheVariants.{Memory, Read};
ghost use Rattle.retransmit.specs.declared.serve_end.Ended.TheVariants.{OutOfMemory};

use crate::accepting::next_connection;
use crate::counted::{CountedAnswers, CountedRequests};
use crate::feed::Feed;
use crate::followers::ServedFollower;
use crate::request_flag::Requests;
use crate::serving::Serving;
use feed_ends::Fault;
use line_ledger::{DayName, Published, SharedTape};
use retransmit::{Ended, serve};
use std::net::TcpStream;
use std::rt::Clock;
use std::sync::{Arc, Wait};
use std::thread;
use std::thread::Threads;
use tape_frames::{Source, Version};

/// The day's fault for the end of a connection. A peer that misbehaves ends its own connection alone.
fn fault_of_serving(ended: Ended) -> Option<Fault>
    ensures memory { ended ≡ OutOfMemory → result ≡ Some Memory }
    ensures other { ended ≢ OutOfMemory → result ≡ None }
{
    match ended {
        Ended::OutOfMemory => Some(Fault::Memory),
        Ended::Clean | Ended::Truncated | Ended::ReadFault | Ended::WriteFault | Ended::TooMany =>
            None,
    }
}

/// Answers what a connection asks for until it ends, however many requests come: `serve` is called again after the most that it
/// answers. What is asked for and answered is counted for `follower`, if there is one.
fn answer_all<D: DayName, R: Wait, L>(
    rt: &R,
    feed: &Feed<'_, L>,
    shared: &SharedTape<D>,
    serving: &Serving<'_>,
    connection: &TcpStream,
    follower: Option<&ServedFollower>,
) -> Option<Fault>
    ensures few { IfSome result (λ fault. fault ≡ Memory) }
{
    // Each answer is one write, which need not wait for the one before to be acknowledged.
    let _ = connection.set_nodelay(true);
    let mut published = Published::new(shared);
    // What is published is looked at before the first request comes. If that fails, the request will find out.
    let _ = published.refresh();
    let mut requests = CountedRequests {
        requests: Requests {
            connection,
            flag: &serving.requested,
        },
        follower,
    };
    let mut answers = CountedAnswers {
        connection,
        follower,
    };
    for _ in rt.forever() {
        let end = serve(
            feed.alloc,
            &mut published,
            feed.session,
            Version::Two,
            &mut requests,
            &mut answers,
        );
        if !matches!(end.ended, Ended::TooMany) {
            return fault_of_serving(end.ended);
        }
    }
    unreachable!()
}

/// Does the same, and counts what the connection asks for if someone looks on.
fn answer_counted<D: DayName, R: Wait + Clock, L>(
    rt: &R,
    feed: &Feed<'_, L>,
    shared: &SharedTape<D>,
    serving: &Serving<'_>,
    connection: &TcpStream,
) -> Option<Fault>
    ensures few { IfSome result (λ fault. fault ≡ Memory) }
{
    let Some(followers) = serving.followers else {
        return answer_all(rt, feed, shared, serving, connection, None);
    };
    let Some(follower) = followers.enter(rt) else {
        return answer_all(rt, feed, shared, serving, connection, None);
    };
    let met = answer_all(rt, feed, shared, serving, connection, Some(&follower));
    follower.end();
    met
}

/// Serves a connection until it ends. However its peer behaves, that ends the connection alone.
fn serve_connection<D: DayName, R: Wait + Clock, L>(
    rt: &R,
    feed: &Feed<'_, L>,
    shared: &SharedTape<D>,
    serving: &Serving<'_>,
    stream: TcpStream,
) -> Option<Fault>
    ensures few { IfSome result (λ fault. fault ≡ Memory) }
{
    let Ok(connection) = Arc::new(feed.alloc, stream) else {
        return Some(Fault::Memory);
    };
    let Ok(shared_connection) = Arc::try_clone(&connection) else {
        return Some(Fault::Memory);
    };
    let place = match serving.enter(rt, shared_connection) {
        Ok(Some(place)) => place,
        Ok(None) => return None,
        Err(fault) => return Some(fault),
    };
    let met = answer_counted(rt, feed, shared, serving, &connection);
    serving.leave(rt, place);
    met
}

/// Does the same, and notes the fault.
fn serve_and_note<D: DayName, R: Wait + Clock, L>(
    rt: &R,
    feed: &Feed<'_, L>,
    shared: &SharedTape<D>,
    serving: &Serving<'_>,
    stream: TcpStream,
) {
    serving.note(serve_connection(rt, feed, shared, serving, stream));
}

/// Waits for as many connections as are awaited, and serves each in a thread of its own as soon as it comes. Returns the fault
/// of the least status that a wait met. If no thread can be started, the connection is served before the next one is waited
/// for.
fn serve_each<D: DayName + Send + Sync, R: Threads + Wait + Clock + Sync, L: Sync>(
    rt: &R,
    feed: &Feed<'_, L>,
    shared: &SharedTape<D>,
    serving: &Serving<'_>,
) -> Option<Fault>
    ensures few { IfSome result (λ fault. fault ≡ Read) }
{
    // The scope's closure states no clause, so it returns only whether the listener is gone.
    let is_gone = thread::scope(thread::scope_env(), rt, move |scope| {
        let mut is_gone = false;
        for _ in 0..feed.serves {
            match next_connection(rt, feed, serving) {
                Ok(Some(stream)) => {
                    let started = scope.spawn(move || serve_and_note(
                        rt, feed, shared, serving, stream,
                    ));
                    if let Err(refused) = started {
                        let serve_here = refused.value;
                        serve_here();
                    }
                }
                Ok(None) => {}
                // The listener is gone, which is a fault of reading.
                Err(_) => is_gone = true,
            }
        }
        is_gone
    });
    if is_gone { Some(Fault::Read) } else { None }
}

/// What serving met. Only this module makes one, and it can't be dropped, so it gets to the day's end.
pub(crate) struct Served {
    fault: Option<Fault>,
}

impl Served {
    /// The fault of the least status, if one was met.
    pub(crate) fn into_fault(self) -> Option<Fault>
        ensures { result ≡ self.fault }
    {
        let Served { fault } = self;
        fault
    }
}

/// Serves as many connections as are awaited, all at once, and returns the fault of the least status after the last one has
/// ended. After a fault the others are served all the same, but none after the sender gave the day up.
pub(crate) fn serve_all<D: DayName + Send + Sync, R: Threads + Wait + Clock + Sync, L: Sync>(
    rt: &R,
    feed: &Feed<'_, L>,
    shared: &SharedTape<D>,
    serving: &Serving<'_>,
) -> Served
    ensures few { IfSome result.fault (λ fault. (fault ≡ Read) ⊎ (fault ≡ Memory)) }
    ensures none { feed.now.serves ≡ 0 → result.fault ≡ None }
{
    if feed.serves == 0 {
        return Served { fault: None };
    }
    serving.begin();
    let fault = serve_each(rt, feed, shared, serving);
    serving.end();
    Served {
        fault: Fault::least(fault, serving.fault()),
    }
}
