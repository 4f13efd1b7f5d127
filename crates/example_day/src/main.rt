//! A small day from end to end: a tape admits three reports and a cancel, and a subscriber makes the same tape from the bytes
//! of one packet. It takes no input.
#![tactic(auto)]

mod messages;
mod names;

use anyhow::{Context, ensure};
use arbitration::{DeliverFault, Line};
use messages::{cancel, report};
use names::Names;
use sale_matrix::Matrix;
use scratch_fold::Summary;
use std::alloc::Global;
use subscriber::{DeliveryFault, Subscriber};
use tape_core::{IndexedTape, Tape};
use tape_frames::{SliceSource, Source, Version, cut, write_packet};

/// The session that the tape is sent under.
const SESSION: u64 = 7;

/// The most entries of the tape, and of the subscriber's own tape.
const LIMIT: u32 = 1_000;

fn main(rt: HostRuntime) -> anyhow::Result<()> {
    let names = Names::new()?;
    let packet = send(&rt, &names)?;
    receive(&rt, &names, &packet)
}

/// The sender's side: makes a tape, and returns the bytes of a packet cut from it.
fn send<R: AllocGlobal + Print>(rt: &R, names: &Names) -> anyhow::Result<Vec<u8>> {
    let listing = names.listing(rt.alloc())?;
    let mut tape = Tape::new(rt.alloc(), listing, LIMIT, Matrix::One)?;
    play(rt, names, &mut tape)?;
    first_packet(rt.alloc(), &tape)
}

/// Admits the day's messages: three reports, and a cancel of the last of them.
fn play<R: Print>(rt: &R, names: &Names, tape: &mut IndexedTape) -> anyhow::Result<()> {
    let Names { symbol, n, q } = *names;
    tape.admit(report(symbol, n, 1, 100_100, 200)?)?;
    tape.admit(report(symbol, n, 2, 99_900, 300)?)?;
    tape.admit(report(symbol, q, 1, 100_250, 100)?)?;
    show(rt, "reported", tape.summary(symbol))?;
    tape.admit(cancel(symbol, q, 2, 1)?)?;
    show(rt, "cancelled", tape.summary(symbol))
}

/// The bytes of the packet that brings a tape's first entries. A tape without entries is an error.
fn first_packet(alloc: Global, tape: &IndexedTape) -> anyhow::Result<Vec<u8>> {
    let source = SliceSource::of(tape);
    ensure!(source.published() > 0, "the tape has no entry");
    let mut bytes = Vec::new(alloc);
    write_packet(&cut(Version::Two, SESSION, 1, &source), &mut bytes)?;
    Ok(bytes)
}

/// The receiver's side: a subscriber, which gets the packet by line A.
fn receive<R: AllocGlobal + Print>(rt: &R, names: &Names, packet: &[u8]) -> anyhow::Result<()> {
    let listing = names.listing(rt.alloc())?;
    let mut subscriber = Subscriber::new(rt.alloc(), listing, LIMIT, SESSION, Matrix::One)?;
    take(&mut subscriber, packet)?;
    show(rt, "received", subscriber.summary(names.symbol))
}

/// Delivers the packet, and replays the ready entries onto the subscriber's own tape.
fn take(subscriber: &mut Subscriber, packet: &[u8]) -> anyhow::Result<()> {
    deliver(subscriber, packet)?;
    subscriber.drain()?;
    Ok(())
}

/// Delivers the packet by line A.
fn deliver(subscriber: &mut Subscriber, packet: &[u8]) -> anyhow::Result<()> {
    match subscriber.deliver(Line::A, packet) {
        Ok(_) => Ok(()),
        Err(DeliveryFault::Refused(fault)) => Err(error_of(fault)),
        Err(fault) => Err(fault.into()),
    }
}

/// A fault of the window as an error.
fn error_of(fault: DeliverFault) -> anyhow::Error {
    fault.into()
}

/// Prints a summary's trades, volume and last price in ten-thousandths of a dollar. A missing summary or last is an error.
fn show<R: Print>(rt: &R, when: &str, summary: Option<Summary>) -> anyhow::Result<()> {
    let summary = summary.context("the symbol is not listed")?;
    let last = summary
        .last
        .context("no trade sets the last")?
        .price
        .value();
    println!(rt;
        "{when}: {} trades, {} shares, last {last}",
        summary.trades, summary.volume
    )?;
    Ok(())
}
