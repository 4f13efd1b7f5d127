//! Tests a book alone, to which reports are added and then given other content.
ghost use Rattle.std.specs.Prelude.{◌≡◌, true, IsTrue, IsSome};
ghost use Rattle.std.specs.FinMap as map;
ghost use Rattle.sale_matrix.specs.Matrix.{is_within};
ghost use Rattle.sale_matrix.specs.declared.matrix.Matrix.TheVariants.{One};

use super::days;
use sale_matrix::{Content, Matrix};
use scratch_fold::Summary;
use std::alloc::Global;
use std::marker::Model;
use std::process::Abort;
use summaries::{IndexStore, ScratchStore, Store};
use symbol_book::Book;
use tape_types::{Participant, TapeNumber};

/// A book of Matrix One that has no report above a place.
#[derive(Drop)]
struct Rising<S: Store> {
    book: Book<S>,
    last: u32,
}

impl<S: Store> Model for Rising<S> {
    ghost use Rattle.std.specs.Prelude.{◌≡◌, ◌<◌, ℕ, None};
    ghost use Rattle.std.specs.FinMap as map;
    ghost use Rattle.sale_matrix.specs.declared.matrix.Matrix.TheVariants.{One};
    ghost use Rattle.sale_matrix.specs.contracts.matrix.Matrix as matrices;
    ghost use Rattle.symbol_book.specs.contracts.trade.Trade as trade;
    ghost use Rattle.symbol_book.specs.BookState.{BookState, book_code};

    ghost Value = { BookState };

    ghost coded = { book_code matrices.the_row.coded trade.the_row.coded };

    ghost view = { λ r. r.book };

    ghost invariant = { λ r. (r.book.matrix ≡ One) × ((p : ℕ) → r.last < p → map.get r.book.trades p ≡ None) };
}

impl<S: Store> Rising<S> {
    fn new(alloc: Global) -> Self {
        Rising {
            book: Book::new(alloc, Matrix::One),
            last: 0,
        }
    }

    /// Adds a report above all others. It is not added if memory is refused, if the place is not above them, or if the
    /// condition is none of Matrix One.
    fn add(&mut self, place: TapeNumber, who: Participant, content: &Content) -> bool
        ensures added { IsTrue result → IsSome (map.get self.new.trades place) }
    {
        let at = place.value();
        if at <= self.last || !content.condition.within(Matrix::One) {
            return false;
        }
        let Ok(()) = self.book.add(place, who, content.price, content.size, &content.condition)
        else {
            return false;
        };
        self.last = at;
        true
    }

    /// The book itself.
    fn into_book(self) -> Book<S>
        ensures book { result ≡ self }
        ensures matrix { result.matrix ≡ One }
    {
        let Rising { book, last: _ } = self;
        book
    }
}

/// The consolidated summary, and the participant's own.
fn shown<S: Store>(book: &Book<S>, who: Participant) -> [Summary; 2] {
    [book.consolidated(), book.of(who)]
}

/// Adds a report, again if memory was refused, which changes no summary. Returns whether memory was refused.
fn add<S: Store, A: Abort>(
    rt: &A,
    rising: &mut Rising<S>,
    place: TapeNumber,
    who: Participant,
    content: &Content,
) -> bool
    ensures added { IsSome (map.get rising.new.trades place) }
{
    let before = shown(&rising.book, who);
    if rising.add(place, who, content) {
        return false;
    }
    let is_same = shown(&rising.book, who) == before;
    assert!(rt; is_same);
    if !rising.add(place, who, content) {
        panic!(rt; "memory was refused twice")
    }
    true
}

/// Gives a report other content, again if memory was refused, which changes no summary. Returns whether memory was refused.
fn replace<S: Store, A: Abort>(
    rt: &A,
    book: &mut Book<S>,
    place: TapeNumber,
    who: Participant,
    content: &Content,
) -> bool
    requires present { IsSome (map.get book.old.trades place) }
    requires matrix { book.old.matrix ≡ One }
    requires within { is_within One content.now.condition ≡ true }
{
    let before = shown(book, who);
    let condition = content.condition;
    if book
        .replace(place, content.price, content.size, &condition)
        .is_ok()
    {
        return false;
    }
    let is_same = shown(book, who) == before;
    assert!(rt; is_same);
    let again = book.replace(place, content.price, content.size, &condition);
    assert!(rt; again.is_ok());
    true
}

/// The participant of the report with this number.
fn participant(number: u32) -> Option<Participant> {
    Participant::try_new(if number % 3 == 0 { b'Q' } else { b'N' })
}

/// Adds the report with this number, and returns whether memory was refused for it.
fn add_next<S: Store, A: Abort>(rt: &A, rising: &mut Rising<S>, number: u32) -> Option<bool> {
    let place = TapeNumber::try_new(number)?;
    let content = days::content(number)?;
    Some(add(rt, rising, place, participant(number)?, &content))
}

/// Adds the report with this number and gives it the content of the next one, and returns whether memory was refused for that.
fn replace_last<S: Store, A: Abort>(rt: &A, rising: Rising<S>, number: u32) -> Option<bool> {
    let mut rising = rising;
    let place = TapeNumber::try_new(number)?;
    let who = participant(number)?;
    let content = days::content(number)?;
    let other = days::content(number.wrapping_add(1))?;
    add(rt, &mut rising, place, who, &content);
    if !other.condition.within(Matrix::One) {
        return None;
    }
    let mut book = rising.into_book();
    Some(replace(rt, &mut book, place, who, &other))
}

/// Adds this many reports, gives the last other content, and prints what was done again. `None` if there is no such report.
fn take_all<S: Store, A: Abort + Print>(
    rt: &A,
    alloc: Global,
    over: &str,
    reports: u32,
) -> Option<()> {
    let mut rising = Rising::<S>::new(alloc);
    for number in 1..reports {
        if add_next(rt, &mut rising, number)? {
            let _ = println!(rt; "{over}: added again");
        }
    }
    if replace_last(rt, rising, reports)? {
        let _ = println!(rt; "{over}: replaced again");
    }
    Some(())
}

/// The same for as many reports as fill a vector that has grown to as many places.
fn take_each<S: Store, A: Abort + Print>(rt: &A, alloc: Global, over: &str) {
    for reports in [1, 4, 8, 16, 32, 64] {
        let taken = take_all::<S, A>(rt, alloc, over, reports);
        assert!(rt; taken.is_some());
    }
}

#[test]
fn a_book_over_indexes_takes_again_what_was_refused(rt: HostRuntime) {
    take_each::<IndexStore, HostRuntime>(&rt, rt.alloc(), "indexes");
}

#[test]
fn a_book_over_the_plain_store_takes_again_what_was_refused(rt: HostRuntime) {
    take_each::<ScratchStore, HostRuntime>(&rt, rt.alloc(), "a vector");
}
