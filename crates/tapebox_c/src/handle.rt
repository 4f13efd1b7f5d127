//! The handle by which another language keeps a tape, a subscriber or a table.
ghost use Rattle.std.specs.Prelude.{◌≡◌, is_some, None, Some};
ghost use Rattle.std.specs.Option.{option_map};
ghost use Rattle.std.specs.Box.{box_value};
ghost use Rattle.tapebox_c.specs.Filling.{FillsWith};

use crate::fault::CallFault;
use crate::held::Held;
use crate::inside::Inside;
use crate::loose::Loose;
use std::alloc::Global;
use std::mem::replace;
use tape_core::TapeFault;

/// A tape, a subscriber or a table of another language. Zero bytes are a handle that holds nothing.
#[repr(C)]
pub struct Handle {
    is_open: bool,
    inside: Inside,
    ghost agrees: { is_open ≡ is_some inside.held },
}

impl Handle {
    /// A handle that holds nothing.
    fn closed(alloc: Global) -> Handle
        ensures { result.inside.held ≡ None }
    {
        Handle {
            is_open: false,
            inside: Inside::empty(alloc),
        }
    }

    /// A handle that holds this.
    fn opened(held: Box<Held>) -> Handle
        ensures { result.inside.held ≡ Some held.value }
    {
        Handle {
            is_open: true,
            inside: Inside::full(Loose::of(held)),
        }
    }

    /// Whether the handle holds something.
    pub(crate) fn is_full(&self) -> bool
        ensures { result ≡ is_some self.now.inside.held }
    {
        self.is_open
    }

    /// Takes out what the handle holds. The handle then holds nothing.
    pub(crate) fn take(&mut self, alloc: Global) -> Option<Box<Held>>
        ensures held { option_map box_value result ≡ self.old.inside.held }
        ensures empty { self.new.inside.held ≡ None }
    {
        let Handle { is_open, inside } = replace(self, Handle::closed(alloc));
        if is_open {
            Some(inside.into_loose().into_box())
        } else {
            inside.end();
            None
        }
    }

    /// Puts a box into a handle that holds nothing.
    pub(crate) fn put(&mut self, held: Box<Held>)
        requires empty { self.old.inside.held ≡ None }
        ensures held { self.new.inside.held ≡ Some held.value }
    {
        let Handle { is_open: _, inside } = replace(self, Handle::opened(held));
        inside.end();
    }

    /// Fills a handle that holds nothing, and returns 0, or the number of the fault if memory ran out.
    pub(crate) fn fill(&mut self, alloc: Global, held: Held) -> u32
        requires empty { self.old.inside.held ≡ None }
        ensures { FillsWith held result self.new.inside.held }
    {
        match Box::new(alloc, held) {
            Ok(boxed) => {
                self.put(boxed);
                0
            }
            Err(_) => CallFault::NotMade(TapeFault::OutOfMemory).code(),
        }
    }
}
