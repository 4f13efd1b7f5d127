//! A flag by which the sender learns that something was asked for.

use std::io;
use std::io::Read;
use std::net::TcpStream;
use std::sync::atomic::{AtomicBool, Ordering};

/// Whether a subscriber sent something: the retransmission raises it, and the sender looks at it.
#[derive(Drop)]
pub(crate) struct RequestFlag {
    is_raised: AtomicBool,
}

impl RequestFlag {
    /// Nothing was asked for yet.
    pub(crate) fn new() -> RequestFlag {
        RequestFlag {
            is_raised: AtomicBool::new(false),
        }
    }

    /// Raises the flag.
    fn raise(&self) {
        self.is_raised.store(true, Ordering::SeqCst)
    }

    /// Lowers the flag, and returns whether something was asked for since the last call.
    pub(crate) fn take(&self) -> bool {
        self.is_raised.swap(false, Ordering::SeqCst)
    }
}

/// A subscriber's connection, from which requests are read. Each read that brings bytes raises the flag.
#[derive(Drop)]
pub(crate) struct Requests<'a> {
    pub(crate) connection: &'a TcpStream,
    pub(crate) flag: &'a RequestFlag,
}

impl Read for Requests<'_> {
    fn read(&mut self, buf: &mut [u8]) -> io::Result<usize> {
        let mut connection = self.connection;
        let len = connection.read(buf)?;
        if len > 0 {
            self.flag.raise();
        }
        Ok(len)
    }
}
