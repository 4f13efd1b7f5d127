//! Each test makes calls that allocate. If one of them runs out of memory, the test asserts what that left, and makes the call
//! again. Memory that only prepares a call is allocated with `?`: a test that gets none for it ends with an error, which is a
//! failure with ample memory. `tests/cases/test_refused.py` runs each test once for each of its allocations, with that one refused.

mod books;
mod days;
mod indexes;
mod listings;
mod registers;
mod report;
mod stores;
mod tapes;
