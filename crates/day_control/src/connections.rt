//! Keeps the connections that are open, in the order in which they came.
ghost use Rattle.std.specs.Prelude.{◌≡◌, ◌≤◌, ◌++◌, ◌∷◌, [], ◌==◌, not, filter, length, IfOk, OnErr, IsSome, option_to_list};

use std::alloc::{AllocError, Global};

/// How many connections are open at most.
pub const CONNECTIONS_MOST: usize = 32;

/// A connection with its number in order of arrival.
#[derive(Drop)]
pub(crate) struct Numbered<C> {
    pub(crate) number: u64,
    pub(crate) connection: C,
}

/// The connections that are open, in the order in which they came.
#[derive(Drop)]
pub(crate) struct Connections<C> {
    open: Vec<Numbered<C>>,
    ghost few: { length open.items ≤ 32 },
}

impl<C: Drop> Connections<C> {
    /// No connection is open. It allocates nothing.
    pub(crate) fn new(alloc: Global) -> Connections<C>
        ensures { result.open.items ≡ [] }
    {
        Connections {
            open: Vec::new(alloc),
        }
    }

    /// Adds a connection that came. If too many are open then, it removes the oldest and returns it.
    pub(crate) fn enter(&mut self, came: Numbered<C>) -> Result<Option<Numbered<C>>, AllocError>
        ensures order { IfOk result (λ oldest. option_to_list oldest ++ self.new.open.items ≡ self.old.open.items ++ came ∷ []) }
        ensures full { IfOk result (λ oldest. IsSome oldest → length self.old.open.items ≡ 32) }
        ensures same { OnErr result (self.new.open.items ≡ self.old.open.items) }
    {
        if self.open.len() < CONNECTIONS_MOST {
            self.open.push(came)?;
            return Ok(None);
        }
        let oldest = self.open.remove(0);
        self.open.push(came)?;
        Ok(Some(oldest))
    }

    /// Removes the connection of this number, which has ended.
    pub(crate) fn leave(&mut self, number: u64)
        ensures { self.new.open.items ≡ filter (λ c. not (c.number == number)) self.old.open.items }
    {
        self.open.retain(|open| open.number != number);
    }

    /// The connections that are open.
    pub(crate) fn open(&self) -> &[Numbered<C>]
        ensures { result.now ≡ self.now.open.items }
    {
        &self.open
    }
}
