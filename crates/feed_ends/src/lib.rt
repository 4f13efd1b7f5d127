//! How both sides of a running day end: with the report of a tape, or with a fault and its status. It also has the address at
//! which they meet, and the error of a socket that could not be opened.
#![tactic(auto)]

mod address;
mod cause;
mod fault;
mod place;
mod report;
mod socket_fault;

pub use address::here;
pub use cause::Cause;
pub use fault::Fault;
pub use place::SocketPlace;
pub use report::write_day;
pub use socket_fault::SocketFault;
