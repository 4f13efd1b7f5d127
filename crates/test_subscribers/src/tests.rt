//! A tape that is sent, its subscriber and its requests, which several tests use, and the tests by what goes on: greatest numbers,
//! a seed, refused memory, failing reads and writes.

mod faults;
mod feed;
mod limits;
mod refused;
mod requests;
mod seeds;
