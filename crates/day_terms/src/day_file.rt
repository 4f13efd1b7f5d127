//! What a day's file says, a field for each key.
ghost use Rattle.std.specs.Prelude.{◌+◌, ◌≤◌, ◌^◌, length};

use sale_matrix::Matrix;
use tape_types::{Participant, Symbol, TapeNumber};

/// The symbols of a day, as its file names them.
#[derive(Drop)]
pub enum DaySymbols {
    /// They stand in the file.
    Listed(Vec<Symbol>),
    /// They stand in a file of this name, one per line. A name that is not an absolute path starts at the folder of the day's
    /// file.
    InFile(String),
}

/// Where the control socket of a day is.
#[derive(Drop)]
pub enum DayControl {
    /// At this port on 127.0.0.1, 1 to 65,535.
    Port(u16),
    /// At this path, a UNIX socket. A path that is not absolute starts at the folder of the day's file.
    Path(String),
}

/// What a day's file says.
#[derive(Drop)]
pub struct DayFile {
    /// The symbols.
    pub symbols: DaySymbols,
    /// The participants, one or more, in their order.
    pub participants: Vec<Participant>,
    /// The port of the first participant's line, 1 to 65,535. Each further participant has the next port.
    pub port: u16,
    /// The ports that line A is sent to, 1 to 65,535: one for each follower's place. None stands twice in `a` and `b`.
    pub a: Vec<u16>,
    /// The ports that line B is sent to, as many as for line A.
    pub b: Vec<u16>,
    /// The port of the retransmission, 1 to 65,535.
    pub retransmission: u16,
    /// The number of retransmission connections that are served.
    pub followers: u16,
    /// The session of the tape's packets.
    pub session: u64,
    /// The matrix of the tape.
    pub matrix: Matrix,
    /// The limit of the tape, in entries.
    pub limit: TapeNumber,
    /// The number of seconds to wait for a peer that is not there yet, 1 to 86,400. If it is left out, `live` waits for its
    /// participants forever, and a follower does not wait for `live`.
    pub connect_within: Option<u32>,
    /// The number of seconds after the day's end in which followers may still ask, 0 to 86,400. If it is left out, `live` waits
    /// for all of them.
    pub followers_wait: Option<u32>,
    /// Where the control socket is, if there is one.
    pub control: Option<DayControl>,
    /// The path of the file that `live` keeps the day in, if it keeps one. A path that is not absolute starts at the folder of
    /// the day's file.
    pub journal: Option<String>,
    /// Whether the journal is synced before what it has is sent, which it is if this is left out.
    pub journal_sync: bool,
    /// Each participant has a port.
    pub ghost ports: { port + length participants.items ≤ 2 ^ 16 },
}
