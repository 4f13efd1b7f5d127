//! Writes the program's own lines to standard error, such as those about a running day that a file describes.
ghost use Rattle.std.specs.Prelude.{◌≡◌, IfOk, IsTrue, OnOk};
ghost use Rattle.feed_ends.specs.SocketFaults.{socket_fault_text};
ghost use Rattle.whole_io.specs.Writing.{WritesPrefix};
ghost use Rattle.desk_words.specs.Tellings.{told_line};

use crate::saying::say;
use feed_ends::{SocketFault, SocketPlace};
use feed_follower::{FollowEnd, FollowFault, account_of};
use std::alloc::{AllocError, Global};
use std::io::Write;

/// Returns a line of the program's own: `tapebox: `, the text and a line feed.
fn told_line(alloc: Global, what: &[u8]) -> Result<Vec<u8>, AllocError>
    ensures { IfOk result (λ line. line.items ≡ told_line what.now) }
{
    let mut line = Vec::from_slice(alloc, b"tapebox: ")?;
    line.extend_from_slice(what)?;
    line.extend_from_slice(b"\n")?;
    Ok(line)
}

/// Says a text in a line of the program's own, unless there is no memory for the line.
pub fn say_told<E: Write>(alloc: Global, errors: &mut E, what: &[u8])
    ensures { WritesPrefix (told_line what.now) (E.contents errors.old) (E.contents errors.new) }
{
    if let Ok(line) = told_line(alloc, what) {
        say(errors, &line);
    }
}

/// Says which socket could not be opened, unless there is no memory for the line.
pub fn say_socket_fault<E: Write>(alloc: Global, errors: &mut E, fault: SocketFault)
    ensures { WritesPrefix (told_line (socket_fault_text fault)) (E.contents errors.old) (E.contents errors.new) }
{
    if let Ok(text) = fault.text(alloc) {
        say_told(alloc, errors, &text);
    }
}

/// Says what was heard of a day, unless there is no memory for it, and which socket ended it, if one did. It returns whether a
/// socket did.
pub fn say_followed<E: Write>(alloc: Global, errors: &mut E, end: &FollowEnd) -> bool
    ensures { OnOk end.now.ended (IsTrue result → ⊥) }
{
    if let Ok(account) = account_of(alloc, end) {
        let _said = account.write(errors);
    }
    let Err(FollowFault::Unreachable { port, kind }) = end.ended else {
        return false;
    };
    let fault = SocketFault::new(SocketPlace::Retransmission, port, kind);
    say_socket_fault(alloc, errors, fault);
    true
}
