//! The error for a token whose entry is not the day's.
ghost use Rattle.std.specs.Prelude.{◌≡◌, codes, Some};

use std::fmt;
use thiserror::Error;

/// 93 NotOnTape: the day has another entry at the token's number, or none.
#[derive(Clone, Copy, Debug, PartialEq, Eq, Error)]
pub struct NotOnTape;

impl NotOnTape {
    /// Returns the number of the fault.
    pub fn code(self) -> u8
        ensures number { result ≡ 93 }
    {
        93
    }

    /// Returns the name of the fault, as it is printed.
    pub fn name(self) -> &'static str
        ensures text { result.now ≡ codes "NotOnTape" }
    {
        "NotOnTape"
    }
}

impl fmt::Display for NotOnTape {
    ghost output = { λ _. Some (codes "NotOnTape") };

    fn fmt<W: fmt::Write>(&self, f: &mut fmt::Formatter<W>) -> fmt::Result {
        f.write_str(self.name())
    }
}
