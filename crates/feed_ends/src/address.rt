//! The address at which the two sides of a day meet, on this machine alone.
ghost use Rattle.feed_ends.specs.Addresses.{IsHere};

use std::net::{Ipv4Addr, SocketAddr};

/// Returns the address of a port of this machine, on 127.0.0.1, which no other machine reaches.
pub fn here(port: u16) -> SocketAddr
    ensures { IsHere result port }
{
    SocketAddr::from((Ipv4Addr::LOCALHOST, port))
}
