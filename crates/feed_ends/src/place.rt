//! The sockets of a day, by what they are for, and their text.
ghost use Rattle.std.specs.Prelude.{◌≡◌, ◌++◌, OnOk, decimal};
ghost use Rattle.feed_ends.specs.SocketFaults.{place_text};

use std::alloc::AllocError;
use tape_types::Participant;
use whole_io::push_number;

/// A socket of a day, by what it is for.
#[derive(Clone, Copy, Debug, PartialEq, Eq)]
pub enum SocketPlace {
    /// A participant's line.
    Line(Participant),
    /// Line A of a follower.
    A,
    /// Line B of a follower.
    B,
    /// The retransmission.
    Retransmission,
    /// The socket that the packets of both lines are sent from. It takes any free port.
    Sender,
    /// The control socket.
    Control,
}

/// Adds what a port is for, and the port.
fn push_port(text: &mut Vec<u8>, what: &[u8], port: u16) -> Result<(), AllocError>
    ensures { OnOk result (text.new.items ≡ text.old.items ++ (what.now ++ decimal port)) }
{
    text.extend_from_slice(what)?;
    push_number(text, u64::from(port))
}

/// Adds a participant's port, and the participant.
fn push_line(text: &mut Vec<u8>, participant: Participant, port: u16) -> Result<(), AllocError>
    ensures { OnOk result (text.new.items ≡ text.old.items ++ place_text (SocketPlace.Line participant) port) }
{
    push_port(text, b"port ", port)?;
    text.extend_from_slice(b" (")?;
    text.push(participant.value())?;
    text.extend_from_slice(b")")
}

impl SocketPlace {
    /// Adds the place in words, with its port.
    pub(crate) fn push(self, text: &mut Vec<u8>, port: u16) -> Result<(), AllocError>
        ensures { OnOk result (text.new.items ≡ text.old.items ++ place_text self port) }
    {
        match self {
            SocketPlace::Line(participant) => push_line(text, participant, port),
            SocketPlace::A => push_port(text, b"line A ", port),
            SocketPlace::B => push_port(text, b"line B ", port),
            SocketPlace::Retransmission => push_port(text, b"retransmission ", port),
            SocketPlace::Sender => text.extend_from_slice(b"the sender's socket"),
            SocketPlace::Control => push_port(text, b"control ", port),
        }
    }
}
