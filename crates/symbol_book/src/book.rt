//! A symbol's book: its standing reports in a consolidated store and in one store for each participant, changed together.
ghost use Rattle.std.specs.Prelude.{◌≡◌, true, OnOk, OnErr, IsSome, IsSomeAnd, None};
ghost use Rattle.std.specs.FinMap as map;
ghost use Rattle.sale_matrix.specs.Matrix.{is_within};
ghost use Rattle.symbol_book.specs.BookState.{empty_book};
ghost use Rattle.symbol_book.specs.Columns.{content_of, reported_trade, consolidated_summary, own_summary, trades_with_content};

use crate::{Trade, participant_stores};
use price_index::Searches;
use sale_matrix::{Condition, Content, Matrix};
use scratch_fold::Summary;
use std::alloc::{AllocError, Global};
use std::marker::Model;
use summaries::Store;
use tape_types::{Participant, Price, Size, TapeNumber};

/// The standing reports of a symbol, by place: a store in the consolidated columns of a matrix, and a row of stores in its
/// participant columns, one for each letter, as long as the reports so far have needed. Each call makes its own counter of
/// searches.
#[derive(Drop)]
pub struct Book<S: Store> {
    alloc: Global,
    matrix: Matrix,
    consolidated: S,
    /// The participants' own stores by letter, from `A`.
    own: Vec<S>,
}

impl<S: Store> Model for Book<S> {
    ghost use Rattle.sale_matrix.specs.contracts.matrix.Matrix as matrices;
    ghost use Rattle.symbol_book.specs.contracts.trade.Trade as trade;
    ghost use Rattle.symbol_book.specs.BookState.{BookState, book_code};

    ghost Value = { BookState };

    ghost coded = { book_code matrices.the_row.coded trade.the_row.coded };

    ghost use Rattle.symbol_book.specs.Stores.{book_trades, IsBook};

    ghost view = { λ b. record { matrix = b.matrix; trades = book_trades S.effects b.consolidated b.own.items } };

    ghost invariant = { λ b. IsBook S.effects S.staged_change b.consolidated b.own.items };
}

impl<S: Store> Book<S> {
    /// An empty book, whose reports change the summaries by this matrix. It allocates nothing.
    pub fn new(alloc: Global, matrix: Matrix) -> Self
        ensures empty { result ≡ empty_book matrix }
    {
        Book {
            alloc,
            matrix,
            consolidated: S::empty(alloc),
            own: Vec::new(alloc),
        }
    }

    /// Adds a report at a vacant place. Its sale condition must be one of the book's matrix. Out of memory, what both of its
    /// stores hold is unchanged.
    pub fn add(
        &mut self,
        place: TapeNumber,
        who: Participant,
        price: Price,
        size: Size,
        condition: &Condition,
    ) -> Result<(), AllocError>
        requires vacant { map.get self.old.trades place ≡ None }
        requires within { is_within self.old.matrix condition.now ≡ true }
        ensures ok { OnOk result (self.new ≡ record self.old {
          trades = map.insert self.old.trades place (reported_trade self.old.matrix who (content_of price size condition.now));
        }) }
        ensures err { OnErr result (self.new ≡ self.old) }
    {
        let content = Content {
            price,
            size,
            condition: *condition,
        };
        self.enter(place, who, &content)
    }

    /// Adds a report with this content at a vacant place, as `add` does, and with the same condition and error.
    pub fn enter(
        &mut self,
        place: TapeNumber,
        who: Participant,
        content: &Content,
    ) -> Result<(), AllocError>
        requires vacant { map.get self.old.trades place ≡ None }
        requires within { is_within self.old.matrix content.now.condition ≡ true }
        ensures ok { OnOk result (self.new ≡ record self.old {
          trades = map.insert self.old.trades place (reported_trade self.old.matrix who content.now);
        }) }
        ensures err { OnErr result (self.new ≡ self.old) }
    {
        let added = Trade::new(self.matrix, who, content);
        let mut searches = Searches::new();
        participant_stores::put(
            &mut self.own,
            self.alloc,
            who,
            place,
            added.own(),
            &mut searches,
        )?;
        match self
            .consolidated
            .put(place, added.consolidated(), &mut searches)
        {
            Ok(()) => Ok(()),
            Err(refused) => {
                participant_stores::take(&mut self.own, who, place, &mut searches);
                Err(refused)
            }
        }
    }

    /// Replaces the content of the report at a place; its participant stays. The new sale condition must be one of the
    /// book's matrix. Out of memory, both of its stores are unchanged.
    pub fn replace(
        &mut self,
        place: TapeNumber,
        price: Price,
        size: Size,
        condition: &Condition,
    ) -> Result<(), AllocError>
        requires present { IsSome (map.get self.old.trades place) }
        requires within { is_within self.old.matrix condition.now ≡ true }
        ensures ok { OnOk result (self.new ≡ record self.old {
          trades = trades_with_content self.old.matrix self.old.trades place (content_of price size condition.now);
        }) }
        ensures err { OnErr result (self.new ≡ self.old) }
    {
        let mut searches = Searches::new();
        let effect = self.consolidated.get(place, &mut searches).unwrap();
        let content = Content {
            price,
            size,
            condition: *condition,
        };
        let trade = Trade::new(self.matrix, effect.who, &content);
        participant_stores::replace(
            &mut self.consolidated,
            &mut self.own,
            effect.who,
            place,
            &trade,
            &mut searches,
        )
    }

    /// Replaces the content of the report at a place, which must be this participant's, as `replace` does but without
    /// looking the report up. Out of memory, both of its stores are unchanged.
    pub fn correct(
        &mut self,
        place: TapeNumber,
        who: Participant,
        content: &Content,
    ) -> Result<(), AllocError>
        requires theirs { IsSomeAnd (map.get self.old.trades place) (λ t. t.who ≡ who) }
        requires within { is_within self.old.matrix content.now.condition ≡ true }
        ensures ok { OnOk result (self.new ≡ record self.old {
          trades = trades_with_content self.old.matrix self.old.trades place content.now;
        }) }
        ensures err { OnErr result (self.new ≡ self.old) }
    {
        let trade = Trade::new(self.matrix, who, content);
        participant_stores::replace(
            &mut self.consolidated,
            &mut self.own,
            who,
            place,
            &trade,
            &mut Searches::new(),
        )
    }

    /// Removes the report at a place. It allocates nothing.
    pub fn remove(&mut self, place: TapeNumber)
        requires present { IsSome (map.get self.old.trades place) }
        ensures removed { self.new ≡ record self.old { trades = map.remove self.old.trades place } }
    {
        let mut searches = Searches::new();
        let effect = self.consolidated.take(place, &mut searches);
        participant_stores::take(&mut self.own, effect.who, place, &mut searches);
    }

    /// The consolidated summary of the reports by rising place. It allocates nothing.
    pub fn consolidated(&self) -> Summary
        ensures summary { result ≡ consolidated_summary self.now.trades }
    {
        self.consolidated.summary(&mut Searches::new())
    }

    /// The participant's own summary of its reports by rising place, empty if it has none. It allocates nothing.
    pub fn of(&self, who: Participant) -> Summary
        ensures summary { result ≡ own_summary self.now.trades who }
    {
        participant_stores::summary(&self.own, who)
    }
}
