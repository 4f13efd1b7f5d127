//! Tests that a table is read and written if there is memory.

use csv_messages::{read_table, write_table};
use reports::Message;
use std::alloc::Global;
use std::process::Abort;

/// A message of each kind, each by its canonical row.
const CANONICAL: &[u8] = b"\
kind,participant,number,moment,symbol,target,price,size,condition
report,N,1,0,AB,,10.00,100,@___
report,Q,4294967295,18446744073709551615,BRK.B,,99999999.9999,99999999,@F_I
correct,N,2,7,AB,1,0.0001,1,@_Z_
cancel,N,3,8,AB,2,,,
reinstate,Q,7,9,BRK.B,4294967295,,,
";

/// Returns the messages of a table that is read.
fn read<A: Abort>(rt: &A, alloc: Global, table: &[u8]) -> Vec<Message> {
    match read_table(alloc, table) {
        Ok(messages) => messages,
        Err(fault) => panic!(rt; "{fault}"),
    }
}

/// Returns whether messages are written as this table.
fn is_written(alloc: Global, messages: &[Message], table: &[u8]) -> bool {
    let mut text = Vec::new(alloc);
    write_table(alloc, messages, &mut text).is_ok() && text.as_slice() == table
}

#[test]
fn a_canonical_table_is_written_as_it_was_read(rt: HostRuntime) {
    let messages = read(&rt, rt.alloc(), CANONICAL);
    assert_eq!(rt; messages.len(), 5);
    assert!(rt; is_written(rt.alloc(), &messages, CANONICAL));
}
