//! Accepts subscribers' connections, and decides which failures to accept one are only for now.
ghost use Rattle.std.specs.Prelude.{◌≡◌, Ok, Err, IfErr, true, false};
ghost use Rattle.std.specs.IoError.{raw_os_error};
ghost use Rattle.live_feed.specs.Accepting.{is_transient};
ghost use Rattle.feed_ends.specs.declared.fault.Fault.TheVariants.{Read};

use crate::feed::Feed;
use crate::serving::Serving;
use feed_ends::Fault;
use std::io::Error;
use std::net::TcpStream;
use std::rt::Clock;
use std::sync::Wait;
use std::thread;
use std::time::Duration;

/// The call was interrupted.
const EINTR: i32 = 4;

/// Memory ran out.
const ENOMEM: i32 = 12;

/// The system has too many open files.
const ENFILE: i32 = 23;

/// The process has too many open files.
const EMFILE: i32 = 24;

/// The peer gave the connection up before it was accepted.
const ECONNABORTED: i32 = 103;

/// There is no room for another socket's buffers.
const ENOBUFS: i32 = 105;

/// How long to rest after a connection that could not be accepted for now, in milliseconds: what is short may be there again
/// then.
const REST: u64 = 50;

/// Whether another connection may be accepted after this error.
pub(crate) fn is_transient(error: &Error) -> bool
    ensures { result ≡ is_transient (raw_os_error error.now) }
{
    matches!(
        error.raw_os_error(),
        Some(EINTR | ENOMEM | ENFILE | EMFILE | ECONNABORTED | ENOBUFS)
    )
}

/// Returns whether to try again after a connection that was not accepted: not if the sender gave the day up, which ends the
/// listener. A listener that is gone without that is a fault.
fn tries_again(error: &Error, is_given_up: bool) -> Result<bool, Fault>
    ensures given_up { is_given_up ≡ true → result ≡ Ok false }
    ensures transient { is_given_up ≡ false → is_transient (raw_os_error error.now) ≡ true → result ≡ Ok true }
    ensures gone { is_given_up ≡ false → is_transient (raw_os_error error.now) ≡ false → result ≡ Err Read }
{
    if is_given_up {
        Ok(false)
    } else if is_transient(error) {
        Ok(true)
    } else {
        Err(Fault::Read)
    }
}

/// Waits for the next connection, however often one can't be accepted for now. Returns `None` if the sender gave the day up.
pub(crate) fn next_connection<R: Wait + Clock, L>(
    rt: &R,
    feed: &Feed<'_, L>,
    serving: &Serving<'_>,
) -> Result<Option<TcpStream>, Fault>
    ensures { IfErr result (λ fault. fault ≡ Read) }
{
    for _ in rt.forever() {
        let error = match feed.retransmission.accept() {
            Ok((stream, _)) => return Ok(Some(stream)),
            Err(error) => error,
        };
        if !tries_again(&error, serving.is_given_up(rt))? {
            return Ok(None);
        }
        thread::sleep(rt, Duration::from_millis(REST));
    }
    unreachable!()
}
