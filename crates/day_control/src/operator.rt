//! What a control socket operates: its status and its end.
ghost use Rattle.std.specs.Prelude.{◌∷◌, [], List, Option, None, OnOk, OnErr};
ghost use Rattle.std.specs.Io.{StartsWith};
ghost use Rattle.day_control.specs.Calls.{Call, Makes, tells, ends};

use std::alloc::AllocError;
use std::rt::Clock;
use std::sync::Wait;

/// What a control socket operates, from several threads at once.
pub trait Operated {
    /// Appends the day's status to `text`, as lines. If memory runs out, the client gets no answer and its connection ends.
    fn put_status<R: Wait + Clock>(&self, rt: &R, text: &mut Vec<u8>) -> Result<(), AllocError>
        ensures kept { OnOk result (StartsWith text.new.items text.old.items) };

    /// Ends the day. The second call makes it wait no longer for followers. Returns whether it was the first call.
    fn end<R: Wait>(&self, rt: &R) -> bool;
}

/// What the commands of one connection operate.
pub trait Operator {
    /// The calls that were made, if they are known.
    ghost calls: { Self → Option (List Call) };

    /// Appends the status to `text`, as lines. What is told is the whole text.
    fn put_status(&mut self, text: &mut Vec<u8>) -> Result<(), AllocError>
        ensures kept { OnOk result (StartsWith text.new.items text.old.items) }
        ensures told { OnOk result (Makes (calls self.old) (calls self.new) (tells text.new.items ∷ [])) }
        ensures untold { OnErr result (Makes (calls self.old) (calls self.new) []) };

    /// Ends what it operates. Returns whether it was the first call.
    fn end(&mut self) -> bool
        ensures ended { Makes (calls self.old) (calls self.new) (ends result ∷ []) };
}

/// The operator of one connection: its commands go to `operated`.
#[derive(Drop)]
pub(crate) struct Operating<'a, R, O> {
    pub(crate) rt: &'a R,
    pub(crate) operated: &'a O,
}

impl<R: Wait + Clock, O: Operated> Operator for Operating<'_, R, O> {
    ghost calls = { λ _. None };

    fn put_status(&mut self, text: &mut Vec<u8>) -> Result<(), AllocError> {
        self.operated.put_status(self.rt, text)
    }

    fn end(&mut self) -> bool {
        self.operated.end(self.rt)
    }
}
