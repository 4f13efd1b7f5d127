//! What threads saw in one cell.
ghost use Rattle.std.specs.Prelude.{◌≡◌, Some, IfSome};
ghost use Rattle.once_cell.specs.Once.{cell_name};

use crate::Seen;
use once_cell::race::OnceBox;
use std::test::Fail;
use std::thread::{Threads, join};

/// What is seen in the cell, with its value.
fn seen(cell: &OnceBox<u32>) -> Option<(u32, Seen<u32>)>
    ensures { IfSome result (λ found. (found.1.cell ≡ cell_name cell.now) × (found.1.known ≡ Some found.0)) }
{
    let mut note = cell.note();
    let value = *cell.get_as(&mut note)?;
    Some((value, Seen::of(&mut note)))
}

/// What a note of the same cell finds that was told of this.
fn found_by_one_that_was_told(cell: &OnceBox<u32>, one: &Seen<u32>) -> Option<u32>
    requires { one.now.cell ≡ cell_name cell.now }
    ensures { IfSome one.now.known (λ value. result ≡ Some value) }
{
    let mut note = cell.note();
    one.tell(&mut note);
    cell.get_as(&mut note).copied()
}

/// Copies of the fact, made in two threads at once: that this compiles is the test.
fn found_twice<R: Threads + Sync>(rt: &R, one: &Seen<u32>) -> (Seen<u32>, Seen<u32>) {
    join(rt, || one.again(), || one.again())
}

#[test]
fn what_was_seen_is_seen_again(rt: HostRuntime) -> Result<(), Fail> {
    let cell = OnceBox::new(rt.alloc());
    assert!(rt; seen(&cell).is_none());
    assert!(rt; cell.set(Box::new(rt.alloc(), 7u32)?).is_ok());
    let (value, one) = seen(&cell).ok_or("a value")?;
    let (same, other) = seen(&cell).ok_or("a value")?;
    one.agrees(&other);
    assert_eq!(rt; found_by_one_that_was_told(&cell, &one), Some(7));
    let (_, _) = found_twice(&rt, &one);
    assert_eq!(rt; (value, same), (7, 7));
    Ok(())
}
