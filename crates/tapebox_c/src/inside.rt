//! The pointer of a handle to what it holds.
ghost use Rattle.std.specs.Prelude.{◌≡◌, is_some, true};
ghost use Rattle.std.specs.declared.option.Option.{Option};
ghost use Rattle.std.specs.declared.option.Option.TheVariants.{None, Some};
ghost use Rattle.tapebox_c.specs.declared.held.Held.{Held};
ghost use Rattle.tapebox_c.specs.Inside.{inside_owns, held_coded};

use crate::held::Held;
use crate::loose::Loose;
use std::alloc::Global;
use std::marker::Model;
use std::ptr::null_mut;

/// The pointer to what a handle holds, or one that owns nothing. It can't be dropped: a call that forgets to put back what it
/// took out, or to free it, does not compile.
#[repr(C)]
pub struct Inside {
    at: *mut u8,
    alloc: Global,
    pub ghost held: { Option Held } by { held_coded },
}

impl Model for Inside {
    ghost also_owns = { λ i. inside_owns i.alloc i.at i.held };
}

impl Inside {
    /// An `Inside` that owns nothing.
    pub(crate) fn empty(alloc: Global) -> Inside
        ensures { result.held ≡ None }
    {
        Inside {
            at: null_mut(),
            alloc,
        }
    }

    /// An `Inside` that owns what a box owned.
    pub(crate) fn full(loose: Loose<Held, Global>) -> Inside
        ensures { result.held ≡ Some loose.value }
    {
        let Loose { at, alloc } = loose;
        Inside {
            at: at as *mut u8,
            alloc,
        }
    }

    /// Returns the box that it owns.
    pub(crate) fn into_loose(self) -> Loose<Held, Global>
        requires { is_some self.held ≡ true }
        ensures { Some result.value ≡ self.held }
    {
        let Inside { at, alloc } = self;
        Loose {
            at: at as *mut Held,
            alloc,
        }
    }

    /// Ends an `Inside` that owns nothing.
    pub(crate) fn end(self)
        requires { self.held ≡ None }
        ensures { self.held ≡ None }
    {
        let Inside { at: _, alloc: _ } = self;
    }
}
