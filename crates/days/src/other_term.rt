//! Names a term in which two days differ.

use std::fmt;

/// A term in which another day differs. It prints as what is other.
#[derive(Clone, Copy, Debug, PartialEq, Eq)]
pub enum OtherTerm {
    /// The session.
    Session,
    /// The matrix.
    Matrix,
    /// The limit.
    Limit,
    /// The symbols, or their order.
    Symbols,
    /// The participants, or their order.
    Participants,
}

impl fmt::Display for OtherTerm {
    fn fmt<W: fmt::Write>(&self, f: &mut fmt::Formatter<W>) -> fmt::Result {
        f.write_str(match self {
            OtherTerm::Session => "another session",
            OtherTerm::Matrix => "another matrix",
            OtherTerm::Limit => "another limit",
            OtherTerm::Symbols => "other symbols",
            OtherTerm::Participants => "other participants",
        })
    }
}
