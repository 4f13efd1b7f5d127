//! The place of a control socket: a path or a port.
ghost use Rattle.day_control.specs.Places.{IsHere};

use std::fmt;
use std::net::{Ipv4Addr, SocketAddr};

/// Where a control socket is. It prints as the path, or as the port.
#[derive(Debug, Drop, PartialEq, Eq)]
pub enum ControlPlace {
    /// A socket of this path, in a folder that only its owner can enter.
    Path(String),
    /// A port on 127.0.0.1, which every user of the machine reaches.
    Port(u16),
}

impl fmt::Display for ControlPlace {
    fn fmt<W: fmt::Write>(&self, f: &mut fmt::Formatter<W>) -> fmt::Result {
        match self {
            ControlPlace::Path(path) => f.write_str(path),
            ControlPlace::Port(port) => write!(f, "port {port}"),
        }
    }
}

/// The address of a port on 127.0.0.1, which no other machine reaches.
pub(crate) fn here(port: u16) -> SocketAddr
    ensures { IsHere result port }
{
    SocketAddr::from((Ipv4Addr::LOCALHOST, port))
}
