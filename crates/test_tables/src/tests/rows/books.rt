//! Tests a book alone, over each store: a report is added, replaced and removed. A tape corrects its books by another call.
ghost use Rattle.std.specs.Prelude.{◌≡◌, ◌≢◌, true, IfSome};
ghost use Rattle.sale_matrix.specs.Matrix.{is_within};
ghost use Rattle.sale_matrix.specs.declared.matrix.Matrix.TheVariants.{One};

use super::super::steps::{Figures, Point, content, figures_of};
use sale_matrix::{Content, Matrix};
use std::alloc::{AllocError, Global};
use summaries::{IndexStore, ScratchStore, Store};
use symbol_book::Book;
use tape_types::{Participant, TapeNumber};

/// The consolidated summary, N's own and Q's own.
type Shown = [Figures; 3];

/// Q's report finds that the last is another participant's, so it does not become the last.
const ADDED: Figures = Figures {
    opening: Some(Point(100_000, 1, b'N')),
    high: Some(Point(100_500, 2, b'Q')),
    low: Some(Point(100_000, 1, b'N')),
    last: Some(Point(100_000, 1, b'N')),
    volume: 200,
    trades: 2,
};

/// N's report as it was added.
const OF_N_ADDED: Figures = Figures {
    opening: Some(Point(100_000, 1, b'N')),
    high: Some(Point(100_000, 1, b'N')),
    low: Some(Point(100_000, 1, b'N')),
    last: Some(Point(100_000, 1, b'N')),
    volume: 100,
    trades: 1,
};

/// After N's report has another content.
const CORRECTED: Figures = Figures {
    opening: Some(Point(99_000, 1, b'N')),
    high: Some(Point(100_500, 2, b'Q')),
    low: Some(Point(99_000, 1, b'N')),
    last: Some(Point(99_000, 1, b'N')),
    volume: 300,
    trades: 2,
};

/// N's report with the other content.
const OF_N_ALONE: Figures = Figures {
    opening: Some(Point(99_000, 1, b'N')),
    high: Some(Point(99_000, 1, b'N')),
    low: Some(Point(99_000, 1, b'N')),
    last: Some(Point(99_000, 1, b'N')),
    volume: 200,
    trades: 1,
};

/// The report of Q alone.
const OF_Q_ALONE: Figures = Figures {
    opening: Some(Point(100_500, 2, b'Q')),
    high: Some(Point(100_500, 2, b'Q')),
    low: Some(Point(100_500, 2, b'Q')),
    last: Some(Point(100_500, 2, b'Q')),
    volume: 100,
    trades: 1,
};

/// No report stands.
const EMPTY: Figures = Figures {
    opening: None,
    high: None,
    low: None,
    last: None,
    volume: 0,
    trades: 0,
};

/// What is shown after both reports are added, after N's has another content, and after N's is removed.
const SHOWN: [Shown; 3] = [
    [ADDED, OF_N_ADDED, OF_Q_ALONE],
    [CORRECTED, OF_N_ALONE, OF_Q_ALONE],
    [OF_Q_ALONE, EMPTY, OF_Q_ALONE],
];

fn shown<S: Store>(book: &Book<S>, n: Participant, q: Participant) -> Shown {
    [
        figures_of(book.consolidated()),
        figures_of(book.of(n)),
        figures_of(book.of(q)),
    ]
}

/// Adds N's report and Q's at two places, changes N's content and removes it, and returns what is shown after each.
fn changed<S: Store>(
    alloc: Global,
    first: TapeNumber,
    second: TapeNumber,
    of_n: &Content,
    of_q: &Content,
    other: &Content,
    n: Participant,
    q: Participant,
) -> Result<[Shown; 3], AllocError>
    requires apart { first ≢ second }
    requires of_n { is_within One of_n.now.condition ≡ true }
    requires of_q { is_within One of_q.now.condition ≡ true }
    requires other { is_within One other.now.condition ≡ true }
{
    let mut book = Book::<S>::new(alloc, Matrix::One);
    book.add(first, n, of_n.price, of_n.size, &of_n.condition)?;
    book.add(second, q, of_q.price, of_q.size, &of_q.condition)?;
    let added = shown(&book, n, q);
    book.replace(first, other.price, other.size, &other.condition)?;
    let replaced = shown(&book, n, q);
    book.remove(first);
    Ok([added, replaced, shown(&book, n, q)])
}

/// Returns the content, if its condition is one of Matrix One.
fn of_matrix_one(content: Content) -> Option<Content>
    ensures { IfSome result (λ c. is_within One c.condition ≡ true) }
{
    if content.condition.within(Matrix::One) {
        Some(content)
    } else {
        None
    }
}

/// Returns the same at places 1 and 2, with the contents of the row.
fn shown_in_turn<S: Store>(alloc: Global) -> Option<[Shown; 3]> {
    let of_n = of_matrix_one(content(b"@   ", 100_000, 100)?)?;
    let of_q = of_matrix_one(content(b"@ L ", 100_500, 100)?)?;
    let other = of_matrix_one(content(b"@ Z ", 99_000, 200)?)?;
    let first = TapeNumber::try_new(1)?;
    let second = TapeNumber::try_new(2)?;
    let n = Participant::try_new(b'N')?;
    let q = Participant::try_new(b'Q')?;
    changed::<S>(alloc, first, second, &of_n, &of_q, &other, n, q).ok()
}

#[test]
fn a_replaced_report_shows_in_every_summary_over_the_plain_store(rt: HostRuntime) {
    assert!(rt; shown_in_turn::<ScratchStore>(rt.alloc()) == Some(SHOWN));
}

#[test]
fn a_replaced_report_shows_in_every_summary_over_the_indexes(rt: HostRuntime) {
    assert!(rt; shown_in_turn::<IndexStore>(rt.alloc()) == Some(SHOWN));
}
