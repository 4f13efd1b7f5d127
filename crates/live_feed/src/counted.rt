//! A subscriber's connection whose requests and answers are counted.

use crate::followers::ServedFollower;
use crate::request_flag::Requests;
use std::io;
use std::io::{Read, Write};
use std::net::TcpStream;

/// What requests are read from. What is read is counted if the connection is counted.
#[derive(Drop)]
pub(crate) struct CountedRequests<'a> {
    pub(crate) requests: Requests<'a>,
    pub(crate) follower: Option<&'a ServedFollower>,
}

/// What answers are written to. What is written is counted if the connection is counted, and a flush ends an answer.
#[derive(Drop)]
pub(crate) struct CountedAnswers<'a> {
    pub(crate) connection: &'a TcpStream,
    pub(crate) follower: Option<&'a ServedFollower>,
}

impl Read for CountedRequests<'_> {
    fn read(&mut self, buf: &mut [u8]) -> io::Result<usize> {
        let len = self.requests.read(buf)?;
        if let Some(follower) = self.follower {
            follower.count_asked(len);
        }
        Ok(len)
    }
}

impl Write for CountedAnswers<'_> {
    fn write(&mut self, buf: &[u8]) -> io::Result<usize> {
        let mut connection = self.connection;
        let len = connection.write(buf)?;
        if let Some(follower) = self.follower {
            follower.count_bytes(len);
        }
        Ok(len)
    }

    fn flush(&mut self) -> io::Result<()> {
        let mut connection = self.connection;
        connection.flush()?;
        if let Some(follower) = self.follower {
            follower.count_answer();
        }
        Ok(())
    }
}
