//! What a set-once cell was seen to hold, as a fact of no bytes that can be copied and compared behind a `&`.
#![tactic(auto)]

ghost use Rattle.std.specs.Prelude.{◌≡◌, ℕ, IfSome};
ghost use Rattle.std.specs.declared.option.Option.{Option};
ghost use Rattle.std.specs.Coded.{coded_option};
ghost use denote.Sharing.{said};
ghost use Rattle.once_cell.specs.Once.{noted, Agrees};

use once_cell::race::Note;
use std::marker::{Model, PhantomData};

/// What a cell was seen to hold, or that nothing was seen in it yet. It takes no bytes.
///
/// `once_cell`'s own `Note` says the same of its cell, but is known and copied only through a `&mut`; this is known, copied and
/// compared through a `&`, in any thread.
pub struct Seen<T> {
    marker: PhantomData<*const T>,
    /// The name of the cell.
    pub ghost cell: { ℕ },
    /// The value that was seen in it, if any was.
    pub ghost known: { Option T } by { coded_option T.code },
}

impl<T> Model for Seen<T> {
    ghost also_owns = { λ s. noted T.row s.cell s.known };

    ghost also_shares = { λ s _ κ. said (noted T.row s.cell s.known) κ };
}

impl<T> Seen<T> {
    /// What the note knows of its cell. The note is unchanged.
    pub fn of(note: &mut Note<T>) -> Seen<T>
        ensures known { (note.new ≡ note.old) × (result.cell ≡ note.old.cell) × (result.known ≡ note.old.known) }
    {
        Seen {
            marker: PhantomData,
        }
    }

    /// A copy of the same fact.
    pub fn again(&self) -> Seen<T>
        ensures same { result ≡ self.now }
    {
        Seen {
            marker: PhantomData,
        }
    }

    /// Tells a note of the same cell what is known. A read of the cell by this note then finds it: a cell that was seen to be
    /// set is never seen empty.
    pub fn tell(&self, note: &mut Note<T>)
        requires { note.old.cell ≡ self.now.cell }
        ensures told { (note.new.cell ≡ note.old.cell) × (note.new.known ≡ self.now.known) }
    {}

    /// A cell is set once: if both know what one cell holds, they know the same value.
    pub fn agrees(&self, other: &Seen<T>)
        requires { other.now.cell ≡ self.now.cell }
        ensures agrees { IfSome other.now.known (Agrees self.now.known) }
    {}
}

impl<T> Drop for Seen<T> {
    fn drop(self) {
        let Seen { marker: _ } = self;
    }
}

unsafe impl<T> Send for Seen<T> {}

unsafe impl<T> Sync for Seen<T> {}

#[cfg(test)]
mod tests;
