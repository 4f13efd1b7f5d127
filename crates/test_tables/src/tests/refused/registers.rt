//! Tests reports that are recorded.

use super::days;
use corrections::{Content, Register, TargetFault};
use std::process::Abort;
use tape_types::{MsgNumber, Participant, Symbol, TapeNumber};

/// How many reports are recorded.
const REPORTS: u32 = 100;

/// Records a report, twice if memory was refused, which leaves it unknown.
fn record<A: Abort>(
    rt: &A,
    register: &mut Register,
    who: Participant,
    number: MsgNumber,
    symbol: Symbol,
    place: TapeNumber,
    content: &Content,
) {
    for _ in 0..2 {
        match register.find(who, number, symbol) {
            Err(TargetFault::NoSuchReport) => {}
            _ => panic!(rt; "the report is known"),
        }
        if register.record(who, number, symbol, place, content).is_ok() {
            let found = register.find(who, number, symbol);
            assert_eq!(rt; found, Ok(place));
            return;
        }
    }
    panic!(rt; "memory was refused twice")
}

/// Records N's reports. `None` if there is no such report.
fn record_all<A: Abort>(rt: &A, register: &mut Register) -> Option<()> {
    let symbol = Symbol::try_new(days::AB)?;
    let who = Participant::try_new(b'N')?;
    let content = days::content(0)?;
    for number in 1..=REPORTS {
        let place = TapeNumber::try_new(number)?;
        let number = MsgNumber::try_new(number)?;
        record(rt, register, who, number, symbol, place, &content);
    }
    Some(())
}

#[test]
fn reports_are_recorded_again(rt: HostRuntime) {
    let mut register = Register::new(rt.alloc());
    let recorded = record_all(&rt, &mut register);
    assert!(rt; recorded.is_some());
}
