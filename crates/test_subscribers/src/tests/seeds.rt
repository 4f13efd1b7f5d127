//! Tests seeded schedules of messages of every kind, in which packets are lost, duplicated, reordered and cut short, and the
//! subscriber restarts.
ghost use Rattle.std.specs.Prelude.{◌≤◌, ◌<◌};
ghost use Rattle.tape_types.specs.Ranges.{TAPE_MOST};

use super::feed::{self, Feed, SESSION, holds, subscriber};
use arbitration::Line;
use reports::Message;
use scratch_fold::Summary;
use std::alloc::Global;
use subscriber::{DeliveryFault, Subscriber};
use tape_frames::{PacketFault, Version};

/// How many entries the tape of a schedule has at most.
const LIMIT: u32 = 60;

/// The version of a packet with this number: the versions take turns.
fn version_of(number: u32) -> Version {
    if number % 2 == 0 {
        Version::Two
    } else {
        Version::One
    }
}

/// Numbers that look random, the same from the same seed.
#[derive(Drop)]
struct Dice {
    state: u64,
}

impl Dice {
    /// A number below this one.
    fn below(&mut self, bound: u32) -> u32
        requires { 1 ≤ bound }
        ensures { result < bound }
    {
        self.state = self
            .state
            .wrapping_mul(6_364_136_223_846_793_005)
            .wrapping_add(1_442_695_040_888_963_407);
        (self.state / 8_589_934_592 % u64::from(bound)) as u32
    }

    /// The line that a packet comes on.
    fn line(&mut self) -> Line {
        match self.below(3) {
            0 => Line::A,
            1 => Line::B,
            _ => Line::R,
        }
    }

    /// The message sent to the tape under a number: one in two is a report, and each other one cancels, corrects or reinstates
    /// one of the first eight messages, so that a report is often changed again.
    fn message(&mut self, number: u32) -> Option<Message> {
        let price = 100_000 + u64::from(self.below(50));
        let target = 1 + self.below(number.clamp(1, 8));
        match self.below(6) {
            0 => feed::cancel(number, target),
            1 => feed::correction(number, target, price),
            2 => feed::reinstatement(number, target),
            _ => feed::report(number, price),
        }
    }
}

/// The summaries of a tape: the consolidated one, and the participant's own.
#[derive(Clone, Copy, PartialEq, Eq)]
struct Figures {
    consolidated: Option<Summary>,
    own: Option<Summary>,
}

fn figures_of(tape: &Feed) -> Option<Figures> {
    let symbol = feed::symbol()?;
    let participant = feed::participant()?;
    Some(Figures {
        consolidated: tape.summary(symbol),
        own: tape.summary_of(symbol, participant),
    })
}

/// Admits the messages of the first entries of another tape, and returns whether all were admitted.
fn fill(front: &mut Feed, tape: &Feed, len: usize) -> bool {
    let mut is_filled = true;
    for entry in tape.entries().iter().take(len) {
        is_filled = feed::admits(front, Some(entry.message)) && is_filled;
    }
    is_filled
}

/// The figures of a tape after another's first entries are admitted to it.
fn figures_filled(front: &mut Feed, tape: &Feed, len: usize) -> Option<Figures> {
    if fill(front, tape, len) {
        figures_of(front)
    } else {
        None
    }
}

/// The figures of a new tape after another's first entries are admitted to it.
fn front_figures(alloc: Global, tape: &Feed, len: usize) -> Option<Figures> {
    let mut front = feed::feed(alloc, LIMIT)?;
    figures_filled(&mut front, tape, len)
}

/// Restarts a subscriber.
fn restart(old: &mut Subscriber, alloc: Global) -> Option<()> {
    *old = subscriber(alloc, LIMIT)?;
    Some(())
}

/// A tape and a subscriber in the middle of a schedule. Each step returns `None` if something is not as it must be.
#[derive(Drop)]
struct Schedule {
    tape: Feed,
    subscriber: Subscriber,
    dice: Dice,
    /// The number of the participant's next message.
    next: u32,
}

impl Schedule {
    fn new(alloc: Global, seed: u32) -> Option<Schedule> {
        let tape = feed::feed(alloc, LIMIT)?;
        let subscriber = subscriber(alloc, LIMIT)?;
        Some(Schedule {
            tape,
            subscriber,
            dice: Dice {
                state: u64::from(seed),
            },
            next: 1,
        })
    }

    /// Sends the tape a message, which it may refuse.
    fn admits(&mut self) -> Option<()> {
        let message = self.dice.message(self.next);
        self.next = self.next.saturating_add(1);
        let _is_admitted = feed::admits(&mut self.tape, message);
        Some(())
    }

    /// A packet comes.
    fn is_taken(&mut self, text: &[u8]) -> bool {
        let line = self.dice.line();
        self.is_taken_by(line, text)
    }

    /// A packet comes on this line.
    fn is_taken_by(&mut self, line: Line, text: &[u8]) -> bool {
        self.subscriber.deliver(line, text).is_ok()
    }

    /// A packet comes that is cut short.
    fn is_short(&mut self, text: &[u8]) -> bool {
        let line = self.dice.line();
        let end = self.dice.below(15) as usize;
        match text.get(..end) {
            Some(front) => {
                self.subscriber.deliver(line, front)
                    == Err(DeliveryFault::NoPacket(PacketFault::Short))
            }
            None => false,
        }
    }

    /// A packet comes, one time in four cut short.
    fn comes(&mut self, text: &[u8]) -> Option<()> {
        let is_well = if self.dice.below(4) > 0 {
            self.is_taken(text)
        } else {
            self.is_short(text)
        };
        is_well.then_some(())
    }

    /// How many entries the tape has.
    fn length(&self) -> u32
        ensures { result ≤ TAPE_MOST }
    {
        match self.tape.entries().last() {
            None => 0,
            Some(entry) => entry.number.value(),
        }
    }

    /// A packet of entries from anywhere comes.
    fn comes_from_anywhere(&mut self, alloc: Global) -> Option<()> {
        let length = self.length();
        if length == 0 {
            return Some(());
        }
        let from = 1 + self.dice.below(length);
        let text = feed::packet(alloc, version_of(from), &self.tape, SESSION, from)?;
        self.comes(text.as_slice())
    }

    /// A beat comes, as the tape had it at some time.
    fn beats(&mut self, alloc: Global) -> Option<()> {
        let length = self.length();
        let last = self.dice.below(length + 1);
        let text = feed::beat(alloc, version_of(last), SESSION, last)?;
        self.comes(text.as_slice())
    }

    /// Whether what is held is a prefix of the tape, with that prefix's figures.
    fn holds_a_prefix(&self, alloc: Global) -> Option<bool> {
        let held = self.subscriber.held();
        let front = self.tape.entries().get(..held.len())?;
        let figures = front_figures(alloc, &self.tape, held.len())?;
        Some(held == front && figures_of(self.subscriber.tape())? == figures)
    }

    fn drains(&mut self, alloc: Global) -> Option<()> {
        self.subscriber.drain().ok()?;
        self.holds_a_prefix(alloc)?.then_some(())
    }

    /// One time in eight the subscriber restarts.
    fn restarts(&mut self, alloc: Global) -> Option<()> {
        if self.dice.below(8) > 0 {
            return Some(());
        }
        restart(&mut self.subscriber, alloc)
    }

    /// The next event of any kind.
    fn goes_on(&mut self, alloc: Global) -> Option<()> {
        match self.dice.below(12) {
            0..=2 => self.admits(),
            3..=7 => self.comes_from_anywhere(alloc),
            8 => self.beats(alloc),
            9 => self.restarts(alloc),
            _ => self.drains(alloc),
        }
    }

    /// Fetches what is missing by retransmission. Returns whether something was missing.
    fn fills(&mut self, alloc: Global) -> Option<bool> {
        let asked = match self.subscriber.missing() {
            None => return Some(false),
            Some(asked) => asked,
        };
        let text = feed::packet(
            alloc,
            version_of(asked.from),
            &self.tape,
            SESSION,
            asked.from,
        )?;
        if !self.is_taken_by(Line::R, text.as_slice()) {
            return None;
        }
        self.drains(alloc)?;
        Some(true)
    }

    /// The tape is closed, and its end comes.
    fn closes(&mut self, alloc: Global) -> Option<()> {
        self.tape.close();
        let length = self.length();
        let text = feed::end(alloc, version_of(length), SESSION, length)?;
        if !self.is_taken_by(Line::B, text.as_slice()) {
            return None;
        }
        self.drains(alloc)
    }

    /// Asks for what is missing until all is held.
    fn catches_up(&mut self, alloc: Global) -> Option<bool> {
        for _turn in 0..LIMIT {
            if !self.fills(alloc)? {
                break;
            }
        }
        Some(holds(&self.subscriber, &self.tape)? && !self.subscriber.open_gap())
    }

    /// Runs this many events, the tape's end, and the retransmission of what is then missing.
    fn runs(&mut self, alloc: Global, events: u32) -> Option<bool> {
        for _event in 0..events {
            self.goes_on(alloc)?;
        }
        self.closes(alloc)?;
        self.catches_up(alloc)
    }
}

/// Whether a tape has a message of each kind.
fn has_every_kind(tape: &Feed) -> bool {
    let mut kinds = [false; 4];
    for entry in tape.entries() {
        match &entry.message {
            Message::Report { .. } => kinds[0] = true,
            Message::Cancel { .. } => kinds[1] = true,
            Message::Correct { .. } => kinds[2] = true,
            Message::Reinstate { .. } => kinds[3] = true,
        }
    }
    kinds == [true; 4]
}

/// How many entries the tape has after 300 events, if there are some of each kind and the subscriber holds all of them at its
/// end.
fn entries_of(schedule: &mut Schedule, alloc: Global) -> Option<u32> {
    let holds_all = schedule.runs(alloc, 300) == Some(true);
    (holds_all && has_every_kind(&schedule.tape)).then_some(schedule.length())
}

/// The same for the schedule of a seed.
fn entries_after(alloc: Global, seed: u32) -> Option<u32> {
    let mut schedule = Schedule::new(alloc, seed)?;
    entries_of(&mut schedule, alloc)
}

#[test]
fn what_is_held_is_a_prefix_after_every_drain(rt: HostRuntime) {
    for seed in 1..=12 {
        assert!(rt;
            entries_after(rt.alloc(), seed).unwrap_or(0) > 15,
            "seed {seed}"
        );
    }
}
