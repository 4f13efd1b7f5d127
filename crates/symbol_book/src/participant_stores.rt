//! The participants' own stores of a book, in a row by letter from `A`, as long as the reports so far have needed. The store of
//! a letter in the row that has not reported is empty.
ghost use Rattle.std.specs.Prelude.{◌≡◌, ◌<◌, ℕ, length, OnOk, OnErr, IsSome, None};
ghost use Rattle.std.specs.FinMap as map;
ghost use Rattle.summaries.specs.Effects.{map_summary};
ghost use Rattle.symbol_book.specs.Columns.{consolidated_effect_of, own_effect_of};
ghost use Rattle.symbol_book.specs.Stores.{participant_effects, AllSettled, OwnBecomes};

use crate::Trade;
use price_index::Searches;
use scratch_fold::{Effect, Summary};
use std::alloc::{AllocError, Global};
use summaries::Store;
use tape_types::{Participant, TapeNumber};

/// Puts an effect into the participant's store. Out of memory, what each participant holds is unchanged.
pub fn put<S: Store>(
    own: &mut Vec<S>,
    alloc: Global,
    who: Participant,
    place: TapeNumber,
    effect: Effect,
    searches: &mut Searches,
) -> Result<(), AllocError>
    requires settled { AllSettled S.staged_change own.old.items }
    requires vacant { map.get (participant_effects S.effects own.old.items who) place ≡ None }
    ensures ok { OnOk result (OwnBecomes S.effects S.staged_change own.old.items own.new.items who
        (map.insert (participant_effects S.effects own.old.items who) place effect)) }
    ensures err { OnErr result (OwnBecomes S.effects S.staged_change own.old.items own.new.items who
        (participant_effects S.effects own.old.items who)) }
{
    let index = who.row_index();
    if own.len() <= index {
        make_room(own, alloc, index)?;
    }
    own[index].put(place, effect, searches)
}

/// Lengthens the row with empty stores until it has `index`. What is held is unchanged, also if memory runs out on the way.
#[cold]
fn make_room<S: Store>(own: &mut Vec<S>, alloc: Global, index: usize) -> Result<(), AllocError>
    requires { AllSettled S.staged_change own.old.items }
    ensures same { (who : ℕ) → participant_effects S.effects own.new.items who
        ≡ participant_effects S.effects own.old.items who }
    ensures settled { AllSettled S.staged_change own.new.items }
    ensures room { OnOk result (index < length own.new.items) }
{
    while own.len() <= index {
        own.push(S::empty(alloc))?;
    }
    Ok(())
}

/// Removes the effect at a place from the participant's store.
pub fn take<S: Store>(
    own: &mut Vec<S>,
    who: Participant,
    place: TapeNumber,
    searches: &mut Searches,
)
    requires settled { AllSettled S.staged_change own.old.items }
    requires present { IsSome (map.get (participant_effects S.effects own.old.items who) place) }
    ensures { OwnBecomes S.effects S.staged_change own.old.items own.new.items who
        (map.remove (participant_effects S.effects own.old.items who) place) }
{
    own[who.row_index()].take(place, searches);
}

/// Replaces a participant's trade in the consolidated store and in the participant's own: in both, or in neither.
pub fn replace<S: Store>(
    consolidated: &mut S,
    own: &mut Vec<S>,
    who: Participant,
    place: TapeNumber,
    trade: &Trade,
    searches: &mut Searches,
) -> Result<(), AllocError>
    requires settled { S.staged_change consolidated.old ≡ None }
    requires own_settled { AllSettled S.staged_change own.old.items }
    requires present { IsSome (map.get (S.effects consolidated.old) place) }
    requires own_present { IsSome (map.get (participant_effects S.effects own.old.items who) place) }
    ensures settled { S.staged_change consolidated.new ≡ None }
    ensures ok { OnOk result (S.effects consolidated.new
        ≡ map.insert (S.effects consolidated.old) place (consolidated_effect_of trade.now)) }
    ensures own_ok { OnOk result (OwnBecomes S.effects S.staged_change own.old.items own.new.items who
        (map.insert (participant_effects S.effects own.old.items who) place (own_effect_of trade.now))) }
    ensures err { OnErr result (S.effects consolidated.new ≡ S.effects consolidated.old) }
    ensures own_err { OnErr result (OwnBecomes S.effects S.staged_change own.old.items own.new.items who
        (participant_effects S.effects own.old.items who)) }
{
    replace_both(
        consolidated,
        &mut own[who.row_index()],
        place,
        trade,
        searches,
    )
}

/// Replaces a trade in the consolidated store and in its participant's: in both, or in neither.
fn replace_both<S: Store>(
    consolidated: &mut S,
    own: &mut S,
    place: TapeNumber,
    trade: &Trade,
    searches: &mut Searches,
) -> Result<(), AllocError>
    requires settled { S.staged_change consolidated.old ≡ None }
    requires own_settled { S.staged_change own.old ≡ None }
    requires present { IsSome (map.get (S.effects consolidated.old) place) }
    requires own_present { IsSome (map.get (S.effects own.old) place) }
    ensures settled { S.staged_change consolidated.new ≡ None }
    ensures own_settled { S.staged_change own.new ≡ None }
    ensures ok { OnOk result (S.effects consolidated.new
        ≡ map.insert (S.effects consolidated.old) place (consolidated_effect_of trade.now)) }
    ensures own_ok { OnOk result
        (S.effects own.new ≡ map.insert (S.effects own.old) place (own_effect_of trade.now)) }
    ensures err { OnErr result (S.effects consolidated.new ≡ S.effects consolidated.old) }
    ensures own_err { OnErr result (S.effects own.new ≡ S.effects own.old) }
{
    own.stage(place, trade.own(), searches)?;
    match consolidated.swap(place, trade.consolidated(), searches) {
        Ok(()) => {
            own.commit(searches);
            Ok(())
        }
        Err(refused) => {
            own.abort(searches);
            Err(refused)
        }
    }
}

/// The summary of the participant's own store; empty if the row has none.
pub fn summary<S: Store>(own: &[S], who: Participant) -> Summary
    requires settled { AllSettled S.staged_change own.now }
    ensures { result ≡ map_summary (participant_effects S.effects own.now who) }
{
    match own.get(who.row_index()) {
        Some(store) => store.summary(&mut Searches::new()),
        None => Summary::empty(),
    }
}
