//! The symbols and participants of a day, kept in two hash sets that remember their order.
ghost use Rattle.std.specs.Prelude.{◌≡◌, position, None, unwrap_or, ◌==◌, false, IfOk, IfErr, OnOk, if◌then◌else◌};
ghost use Rattle.std.specs.List.{list_any};
ghost use Rattle.tape_types.specs.Names.{names_fault, symbol_eq, has_repeat};
ghost use Rattle.std.specs.Slice.Iter.{iter_rest};
ghost use Rattle.tape_types.specs.declared.listing_fault.ListingFault.TheVariants.{OutOfMemory, Repeated};

use crate::{ListingFault, PARTICIPANTS_MOST, Participant, SYMBOLS_MOST, Symbol};
use indexmap::IndexSet;
use std::alloc::Global;
use std::hash::Hash;
use std::marker::Model;
use std::slice;

/// The symbols and the participants of a day: each list in the order in which it was given, with no name twice.
#[derive(Drop)]
pub struct Listing {
    symbols: IndexSet<Symbol>,
    participants: IndexSet<Participant>,
}

impl Model for Listing {
    ghost use Rattle.std.specs.Prelude.{◌≡◌, None};
    ghost use Rattle.tape_types.specs.Names.{Names, names_fault};

    ghost Value = { Names };

    ghost view = { λ l. record { symbols = l.symbols.keys; participants = l.participants.keys } };

    ghost invariant = { λ l. names_fault l.symbols.keys l.participants.keys ≡ None };
}

impl Listing {
    /// A listing of 1 to `SYMBOLS_MOST` symbols and 1 to `PARTICIPANTS_MOST` participants, each list in its order.
    ///
    /// Errors, the first that applies: `Empty` if a list has no name, `TooMany` if one is too long, `Repeated` if a name
    /// occurs twice in one, and `OutOfMemory` last.
    pub fn new(
        alloc: Global,
        symbols: &[Symbol],
        participants: &[Participant],
    ) -> Result<Self, ListingFault>
        ensures names { IfOk result (λ l. l ≡ record { symbols = symbols.now; participants = participants.now }) }
        ensures ok { OnOk result (names_fault symbols.now participants.now ≡ None) }
        ensures refused { IfErr result (λ e. e ≡ unwrap_or (names_fault symbols.now participants.now) OutOfMemory) }
    {
        if symbols.is_empty() || participants.is_empty() {
            return Err(ListingFault::Empty);
        }
        if symbols.len() > SYMBOLS_MOST || participants.len() > PARTICIPANTS_MOST {
            return Err(ListingFault::TooMany);
        }
        let symbols = match in_order(alloc, symbols) {
            Ok(symbols) => symbols,
            // `Repeated` takes precedence over `OutOfMemory`, in either list.
            Err(ListingFault::OutOfMemory) if has_repeat(participants) => {
                return Err(ListingFault::Repeated);
            }
            Err(fault) => return Err(fault),
        };
        let participants = in_order(alloc, participants)?;
        Ok(Listing {
            symbols,
            participants,
        })
    }

    /// The symbol's position in the listing, from 0, or `None` if it is not listed. It is looked up by its hash.
    pub fn position(&self, symbol: Symbol) -> Option<usize>
        ensures position { result ≡ position (symbol_eq symbol) self.now.symbols }
        ensures distinct { names_fault self.now.symbols self.now.participants ≡ None }
    {
        self.symbols.get_index_of(&symbol)
    }

    /// Whether the participant is listed.
    pub fn has(&self, participant: Participant) -> bool
        ensures listed { result ≡ list_any (λ p. participant == p) self.now.participants }
    {
        self.participants.contains(&participant)
    }

    /// The symbols in the order in which they were given.
    pub fn symbols(&self) -> slice::Iter<'_, Symbol>
        ensures rest { iter_rest result ≡ self.now.symbols }
        ensures distinct { names_fault self.now.symbols self.now.participants ≡ None }
    {
        self.symbols.as_slice().iter()
    }

    /// The participants in the order in which they were given.
    pub fn participants(&self) -> slice::Iter<'_, Participant>
        ensures rest { iter_rest result ≡ self.now.participants }
        ensures distinct { names_fault self.now.symbols self.now.participants ≡ None }
    {
        self.participants.as_slice().iter()
    }
}

/// Whether some name occurs twice. It compares all pairs and does not allocate, and is called only when memory ran out.
fn has_repeat<T: Eq>(names: &[T]) -> bool
    ensures { result ≡ has_repeat T.eq names.now }
{
    for (i, name) in names.iter().enumerate() {
        if names[i + 1..].contains(name) {
            return true;
        }
    }
    false
}

/// A set of the names in their order. Errors: `Repeated` if a name occurs twice, else `OutOfMemory` if memory runs out.
fn in_order<T: Copy + Eq + Hash>(alloc: Global, names: &[T]) -> Result<IndexSet<T>, ListingFault>
    ensures names { IfOk result (λ set. set.keys ≡ names.now) }
    ensures distinct { OnOk result (has_repeat T.eq names.now ≡ false) }
    ensures fault { IfErr result (λ e. e ≡ (if has_repeat T.eq names.now then Repeated else OutOfMemory)) }
{
    let mut set = IndexSet::new(alloc);
    for name in names {
        match set.insert(*name) {
            Ok(true) => {}
            Ok(false) => return Err(ListingFault::Repeated),
            Err(_) if has_repeat(names) => return Err(ListingFault::Repeated),
            Err(_) => return Err(ListingFault::OutOfMemory),
        }
    }
    Ok(set)
}
