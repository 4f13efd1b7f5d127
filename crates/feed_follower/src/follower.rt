//! The follower that the lines and the requester share: delivers what comes to the subscriber, gives entries to the sink, and
//! decides what is next.
ghost use Rattle.std.specs.Prelude.{◌≡◌, ◌↔◌, ◌⊎◌, ◌+◌, ◌-◌, ◌≤◌, ◌<◌, ℕ, [], length, min, Err, Ok, None, Some, IfErr, IfOk, IfSome, IsOk, IsSome, IsSomeAnd, IsTrue, OnErr, OnOk, true, false};
ghost use Rattle.std.specs.Io.KnownBytes.{Appends};
ghost use Rattle.std.proofs.Props.{props};
ghost use Rattle.tape_types.specs.Ranges.{TAPE_MOST};
ghost use Rattle.tape_frames.specs.Headers.{header_number_of, last_entry_of};
ghost use Rattle.tape_frames.specs.Packets.{session_of};
ghost use Rattle.tape_frames.specs.Spelling.{Spells};
ghost use Rattle.tape_frames.specs.declared.packet.Packet.{Packet};
ghost use Rattle.feed_follower.specs.Followers.{HasAllOf, HasCounts, IsDelivered, KeepsNews, KeepsTerms};
ghost use Rattle.subscriber.specs.Drains.{BringsHeld};
ghost use Rattle.feed_follower.specs.Accounts.{account_of, account_with, once_asked, once_other};
ghost use Rattle.feed_follower.specs.Conflicts.{IsIn, Shows};
ghost use Rattle.feed_follower.specs.Hearing.{IsHeard, MeetsConflict, number_past, told_by};
ghost use Rattle.feed_follower.specs.Naming.{MayEndBy, MayName};
ghost use Rattle.feed_follower.specs.LinePositions.{IsBehind, once_noted};
ghost use Rattle.feed_follower.specs.declared.requester.Answered.TheVariants.{Beyond};
ghost use Rattle.feed_follower.specs.declared.follow_fault.FollowFault.TheVariants.{OtherEntry};
ghost use Rattle.feed_follower.specs.Sinks.{GivesPart, HasAll, HasPart, IsTapeOf, rows_of};
ghost use Rattle.feed_follower.specs.declared.silence.TheConstants.{SILENT_MOST};
ghost use Rattle.feed_follower.specs.Nexts.{IsNext, ahead_of, asked_of};
ghost use Rattle.feed_follower.specs.declared.follower.NextStep.TheVariants.{Connect, End, Read as ReadOn};
ghost use Rattle.feed_ends.specs.declared.fault.Fault.{Fault};
ghost use Rattle.feed_ends.specs.declared.fault.Fault.TheVariants.{Disagrees, Read};

use crate::conflicts::{Conflicts, Numbers};
use crate::followed::Followed;
use crate::heard::{Heard, deliver_to};
use crate::held_name::HeldName;
use crate::line_positions::LinePositions;
use crate::replaying::{begin_anew, replay};
use crate::requester::Answered;
use crate::silence::Silence;
use crate::{EntrySink, FollowAccount, FollowFault};
use arbitration::Line;
use feed_ends::Fault;
use sale_matrix::Matrix;
use std::alloc::Global;
use std::marker::PhantomData;
use std::mem;
use subscriber::Subscriber;
use tape_frames::{Request, decode_packet, header_number, last_entry};
use tape_types::{Listing, TAPE_MOST};

/// What a run waits for, or has to do next.
#[derive(Clone, Copy)]
pub(crate) enum NextStep {
    /// Wait for packets of the lines.
    Read,
    /// Wait for this number, which is missing and which a line may still bring.
    Wait(u32),
    /// Ask for this, which is missing.
    Ask(Request),
    /// Ask for these numbers, on which packets did not agree. Nothing is missing.
    Settle(Request),
    /// Connect for a new subscriber, which asks on a connection of its own.
    Connect,
    /// The run is over.
    End,
}

impl NextStep {
    /// Returns the first missing number that is to be asked for, if one is.
    fn asked(&self) -> Option<u32>
        ensures { result ≡ asked_of self.now }
    {
        match self {
            NextStep::Ask(request) => Some(request.from),
            NextStep::Read
            | NextStep::Wait(_)
            | NextStep::Settle(_)
            | NextStep::Connect
            | NextStep::End => None,
        }
    }
}

/// A subscriber of the tape that is followed, the sink that is given its entries, how far its lines have come, whether the
/// subscriber still has to be connected, and whether the run is over.
#[derive(Drop)]
pub(crate) struct Follower<N: HeldName, S: EntrySink> {
    alloc: Global,
    subscriber: Subscriber,
    sink: S,
    /// Why the sink lacks some of what is held, if it does.
    lacks: Option<Fault>,
    positions: LinePositions,
    silence: Silence,
    session: u64,
    restart_after: Option<u32>,
    has_restarted: bool,
    conflicts: Conflicts,
    account: FollowAccount,
    /// What names the fault of the run, if it says more than its status.
    why: Option<FollowFault>,
    over: Option<Result<(), Fault>>,
    /// Whether the requester sleeps until it is rung.
    is_asleep: bool,
    name: PhantomData<N>,
    ghost listed: { subscriber.tape.listing ≡ N.listing },
    ghost by_matrix: { subscriber.tape.matrix ≡ N.matrix },
    ghost limited: { subscriber.tape.limit ≡ N.limit },
    ghost named: { session ≡ N.session },
    ghost of_session: { subscriber.window.session ≡ session },
    ghost accounted: { account.session ≡ session },
    ghost given: { lacks ≡ None → HasAll (rows_of S.text subscriber.tape) N.before (S.contents sink) } by { Prim.hlevel props },
    ghost part: { HasPart (rows_of S.text subscriber.tape) N.before (S.contents sink) } by { Prim.hlevel props },
    ghost whole: { IfSome over (λ ended. OnOk ended (HasAllOf subscriber)) } by { Prim.hlevel props },
    ghost settled: { IfSome over (λ ended. OnOk ended (conflicts.wanted.before ≤ conflicts.wanted.from)) } by { Prim.hlevel props },
}

/// A subscriber that holds nothing. `Disagrees` for a bad limit, `Memory` if memory runs out.
pub(crate) fn subscribe(
    alloc: Global,
    listing: Listing,
    limit: u32,
    matrix: Matrix,
    session: u64,
) -> Result<Subscriber, Fault>
    ensures empty { IfOk result (λ subscriber. (subscriber.tape.listing ≡ listing) × (subscriber.tape.matrix ≡ matrix) × (subscriber.tape.limit ≡ limit)
        × (subscriber.tape.entries ≡ [])) }
    ensures session { IfOk result (λ subscriber. subscriber.window.session ≡ session) }
{
    Ok(Subscriber::new(alloc, listing, limit, session, matrix)?)
}

/// Copies a listing. `Memory` if memory runs out.
fn copy_of(alloc: Global, listing: &Listing) -> Result<Listing, Fault>
    ensures { IfOk result (λ copy. copy ≡ listing.now) }
{
    Listing::new(
        alloc,
        listing.symbols().as_slice(),
        listing.participants().as_slice(),
    )
    .map_err(|_| Fault::Memory)
}

/// Returns the last number in the header of a packet of the session, at most `TAPE_MOST`.
fn last_told(session: u64, bytes: &[u8]) -> u32
    ensures told { (packet : Packet) → Spells bytes.now packet → result ≡ min (told_by session packet) TAPE_MOST }
    ensures within { result ≤ TAPE_MOST }
{
    let told = last_entry(session, bytes).unwrap_or(u64::from(header_number(bytes).unwrap_or(0)));
    told.min(u64::from(TAPE_MOST)) as u32
}

/// Returns how many entries a subscriber holds.
pub(crate) fn held_count(subscriber: &Subscriber) -> u32
    ensures { result ≡ length subscriber.now.tape.entries }
{
    // No more than the limit, which a `u32` holds.
    let _limit = subscriber.tape().limit();
    subscriber.held().len() as u32
}

/// Returns the session of a packet, or `None` if the bytes are no packet.
fn session_of(bytes: &[u8]) -> Option<u64>
    ensures { (packet : Packet) → Spells bytes.now packet → result ≡ Some (session_of packet) }
{
    match decode_packet(bytes) {
        Ok(packet) => Some(packet.session()),
        Err(_) => None,
    }
}

/// Returns the numbers from `from` on that a packet of the session brings, or `None` if it does not bring that one.
fn numbers_from(session: u64, from: u32, bytes: &[u8]) -> Option<Numbers>
    ensures from { IfSome result (λ numbers. (numbers.from ≡ from) × (from < numbers.before)) }
    ensures brings { (packet : Packet) → Spells bytes.now packet → IfSome result (λ numbers.
        (header_number_of packet ≤ from) × (last_entry_of session packet ≡ Some (numbers.before - 1))) }
{
    let first = header_number(bytes)?;
    let last = u32::try_from(last_entry(session, bytes)?).ok()?;
    if first <= from && from <= last && last < u32::MAX {
        Some(Numbers {
            from,
            before: last + 1,
        })
    } else {
        None
    }
}

/// Returns how many numbers were announced above those that are held.
fn ahead_of(subscriber: &Subscriber) -> usize
    ensures { result ≡ ahead_of subscriber.now }
{
    (subscriber.announced() as usize).saturating_sub(subscriber.held().len())
}

/// Whether a subscriber that holds so many entries is dropped for a new one: `restart_after` is that many or fewer.
fn is_given_up(restart_after: Option<u32>, held: usize) -> bool
    ensures given_up { (result ≡ true) ↔ IsSomeAnd restart_after (λ most. most ≤ held) }
{
    match restart_after {
        Some(most) => most as usize <= held,
        None => false,
    }
}

impl<N: HeldName, S: EntrySink> Follower<N, S> {
    /// A follower with a subscriber that holds nothing, and a sink.
    #[tactic(auto, using(crate::proofs::Rows::all_none, crate::proofs::Rows::all_of_nothing, crate::proofs::Rows::part_all))]
    pub(crate) fn new(
        alloc: Global,
        subscriber: Subscriber,
        session: u64,
        restart_after: Option<u32>,
        settles: bool,
        sink: S,
    ) -> Follower<N, S>
        requires listing { subscriber.tape.listing ≡ N.listing }
        requires matrix { subscriber.tape.matrix ≡ N.matrix }
        requires limit { subscriber.tape.limit ≡ N.limit }
        requires named { session ≡ N.session }
        requires session { subscriber.window.session ≡ session }
        requires nothing { subscriber.tape.entries ≡ [] }
        requires before { S.contents sink ≡ N.before }
    {
        Follower {
            alloc,
            subscriber,
            sink,
            lacks: None,
            positions: LinePositions::nothing(),
            silence: Silence::none(),
            session,
            restart_after,
            has_restarted: false,
            conflicts: Conflicts::none(settles),
            account: FollowAccount::nothing(session),
            why: None,
            over: None,
            is_asleep: false,
            name: PhantomData,
        }
    }

    /// Notes that a line brought a packet of the day.
    fn note(&mut self, line: Line, bytes: &[u8])
        ensures noted { (packet : Packet) → Spells bytes.now packet
            → self.new.positions ≡ once_noted line (header_number_of packet) self.old.positions }
        ensures going { self.new.over ≡ self.old.over }
        ensures same { self.new.subscriber ≡ self.old.subscriber }
        ensures conflicts { self.new.conflicts ≡ self.old.conflicts }
        ensures rest { (self.new.account ≡ self.old.account) × (self.new.why ≡ self.old.why) }
    {
        self.positions.note(line, header_number(bytes).unwrap_or(0));
        self.silence.broken();
    }

    /// Notes a number on which packets did not agree.
    fn differ(&mut self, number: u32)
        requires over { self.old.over ≡ None }
        requires number { number ≤ TAPE_MOST + 1 }
        ensures going { self.new.over ≡ None }
        ensures same { self.new.subscriber ≡ self.old.subscriber }
        ensures met { self.old.conflicts.are_settled ≡ true → IsIn number self.new.conflicts.wanted ⊎ IsIn number self.new.conflicts.found }
        ensures kept { (n : ℕ) → IsIn n self.old.conflicts.wanted → IsIn n self.new.conflicts.wanted }
        ensures found { self.new.conflicts.found ≡ self.old.conflicts.found }
        ensures counts { HasCounts self.old.account self.new.account }
        ensures positions { self.new.positions ≡ self.old.positions }
        ensures rest { (self.new.account.asked ≡ self.old.account.asked) × (self.new.why ≡ self.old.why) }
    {
        self.account.differ(number);
        self.conflicts.meet(number);
    }

    /// Notes another session that was heard.
    fn name_session(&mut self, bytes: &[u8])
        ensures named { (packet : Packet) → Spells bytes.now packet → self.new.account ≡ once_other (session_of packet) self.old.account }
        ensures going { self.new.over ≡ self.old.over }
        ensures same { self.new.subscriber ≡ self.old.subscriber }
        ensures conflicts { self.new.conflicts ≡ self.old.conflicts }
        ensures counts { HasCounts self.old.account self.new.account }
        ensures rest { (self.new.account.asked ≡ self.old.account.asked) × (self.new.why ≡ self.old.why) }
    {
        if let Some(session) = session_of(bytes) {
            self.account.name(session);
        }
    }

    /// Returns the number to ask for after a packet that did not fit what is known of the end: right above the lesser of its
    /// last number and the last one that is known.
    fn number_past(&self, bytes: &[u8]) -> u32
        ensures told { (packet : Packet) → Spells bytes.now packet → result ≡ number_past self.now.subscriber (told_by self.now.session packet) }
        ensures within { result ≤ TAPE_MOST + 1 }
    {
        let known = match self.subscriber.ended() {
            Some(count) => count,
            None => self.subscriber.announced(),
        };
        known.min(last_told(self.session, bytes)) + 1
    }

    /// Notes what became of what came by a line, except in the counts.
    fn heed(&mut self, line: Line, bytes: &[u8], heard: Heard)
        requires over { self.old.over ≡ None }
        requires number { IsHeard heard }
        ensures going { self.new.over ≡ None }
        ensures same { self.new.subscriber ≡ self.old.subscriber }
        ensures met { self.old.conflicts.are_settled ≡ true → MeetsConflict self.old.subscriber self.old.session bytes.now heard self.new.conflicts }
        ensures kept { (n : ℕ) → IsIn n self.old.conflicts.wanted → IsIn n self.new.conflicts.wanted }
        ensures counts { HasCounts self.old.account self.new.account }
        ensures rest { (self.new.account.asked ≡ self.old.account.asked) × (self.new.why ≡ self.old.why) }
    {
        match heard {
            Heard::Taken => self.note(line, bytes),
            Heard::NoPacket => {}
            Heard::Foreign => self.name_session(bytes),
            Heard::Conflict(number) => self.differ(number),
            Heard::PastEnd => {
                let number = self.number_past(bytes);
                self.differ(number);
            }
        }
    }

    /// Notes what came by a line and what became of it. An empty datagram is the follower's own, which ends a read, and is not
    /// counted.
    #[tactic(auto, using(crate::proofs::Counts::counts_with))]
    fn hear(&mut self, line: Line, bytes: &[u8], heard: Heard)
        requires over { self.old.over ≡ None }
        requires number { IsHeard heard }
        ensures going { self.new.over ≡ None }
        ensures same { self.new.subscriber ≡ self.old.subscriber }
        ensures met { self.old.conflicts.are_settled ≡ true → MeetsConflict self.old.subscriber self.old.session bytes.now heard self.new.conflicts }
        ensures kept { (n : ℕ) → IsIn n self.old.conflicts.wanted → IsIn n self.new.conflicts.wanted }
        ensures counted { 1 ≤ length bytes.now → HasCounts (account_with line heard self.old.account) self.new.account }
        ensures rest { (self.new.account.asked ≡ self.old.account.asked) × (self.new.why ≡ self.old.why) }
    {
        self.heed(line, bytes, heard);
        if !bytes.is_empty() {
            self.account.count(line, heard);
        }
    }

    /// Takes what came by a line, and replays what is ready. Bytes that are no packet of the day are dropped. A packet that
    /// brings what is held is dropped before it is decoded, unless conflicts are settled, since it may bring another entry.
    fn take(&mut self, line: Line, bytes: &[u8]) -> Result<(), Fault>
        requires { self.old.over ≡ None }
        ensures going { self.new.over ≡ None }
        ensures heard { self.old.conflicts.are_settled ≡ true → self.old.subscriber.failed ≡ false
            → IsDelivered line bytes.now self.old.subscriber self.new.subscriber self.old.account self.new.account }
        ensures idle { self.old.conflicts.are_settled ≡ false → self.old.subscriber.failed ≡ false
            → IsDelivered line bytes.now self.old.subscriber self.new.subscriber self.old.account self.new.account
            ⊎ ((self.new.subscriber ≡ self.old.subscriber) × ((packet : Packet) → Spells bytes.now packet → BringsHeld self.old.subscriber packet)) }
        ensures rest { (self.new.account.asked ≡ self.old.account.asked) × (self.new.why ≡ self.old.why) }
    {
        if !self.conflicts.are_settled() && self.subscriber.holds_all_of(bytes) {
            self.hear(line, bytes, Heard::Taken);
            return Ok(());
        }
        let heard = deliver_to(&mut self.subscriber, line, bytes)?;
        self.hear(line, bytes, heard);
        self.replay()
    }

    /// Replays what is ready and gives it to the sink. If the sink failed before, it returns that fault.
    #[tactic(auto, using(crate::proofs::Rows::all_more, crate::proofs::Rows::part_all, crate::proofs::Rows::part_some))]
    fn replay(&mut self) -> Result<(), Fault>
        requires { self.old.over ≡ None }
        ensures going { self.new.over ≡ None }
        ensures news { KeepsNews self.old.subscriber self.new.subscriber }
        ensures rest { (self.new.account ≡ self.old.account) × (self.new.why ≡ self.old.why) }
    {
        if let Some(fault) = self.lacks {
            return Err(fault);
        }
        match replay(&mut self.subscriber, &mut self.sink) {
            Ok(()) => Ok(()),
            Err(fault) => {
                self.lacks = Some(fault);
                Err(fault)
            }
        }
    }

    /// Checks that a number that was asked for is held. If it is not, the number is named and the result is `Disagrees`.
    fn need(&mut self, number: u32) -> Result<(), Fault>
        requires { self.old.over ≡ None }
        ensures going { self.new.over ≡ None }
        ensures held { number ≤ length self.old.subscriber.tape.entries → IsOk result × (self.new ≡ self.old) }
        ensures named { length self.old.subscriber.tape.entries < number → (result ≡ Err Disagrees) × (self.new.why ≡ Some (OtherEntry number)) }
        ensures rest { (self.new.subscriber ≡ self.old.subscriber) × (self.new.account ≡ self.old.account) }
    {
        if self.subscriber.held().len() < number as usize {
            return Err(self.other_entry(number));
        }
        Ok(())
    }

    /// Takes packets that were asked for. The first number that was asked for has to be held then, by these packets or by what
    /// a line brought meanwhile, so that each request makes progress.
    fn take_all(&mut self, request: &Request, packets: &[Vec<u8>]) -> Result<(), Fault>
        requires { self.old.over ≡ None }
        ensures going { self.new.over ≡ None }
        ensures progress { OnOk result (request.now.from ≤ length self.new.subscriber.tape.entries) }
        ensures asked { self.new.account.asked ≡ self.old.account.asked }
        ensures why { MayName result self.old.why self.new.why }
    {
        for packet in packets {
            self.take(Line::R, packet)?;
        }
        self.need(request.from)
    }

    /// Another subscriber of the same day, which holds nothing.
    fn anew(&self) -> Result<Subscriber, Fault>
        ensures names { IfOk result (λ next. KeepsTerms self.now.subscriber.tape next.tape) }
        ensures nothing { IfOk result (λ next. next.tape.entries ≡ []) }
        ensures session { IfOk result (λ next. next.window.session ≡ self.now.session) }
    {
        let tape = self.subscriber.tape();
        let listing = copy_of(self.alloc, tape.listing())?;
        subscribe(
            self.alloc,
            listing,
            tape.limit(),
            tape.matrix(),
            self.session,
        )
    }

    /// Drops the first subscriber for a new one if it holds enough and the sink does not refuse.
    #[tactic(auto, using(crate::proofs::Rows::all_kept, crate::proofs::Rows::all_of_nothing, crate::proofs::Rows::part_all))]
    fn restart(&mut self) -> Result<(), Fault>
        requires { self.old.over ≡ None }
        ensures going { self.new.over ≡ None }
        ensures asked { ¬ (IsSomeAnd self.old.restart_after (λ most. most ≤ length self.old.subscriber.tape.entries)) → self.new ≡ self.old }
        ensures rest { (self.new.account ≡ self.old.account) × (self.new.why ≡ self.old.why) }
    {
        if !is_given_up(self.restart_after, self.subscriber.held().len()) {
            return Ok(());
        }
        if let Some(fault) = self.lacks {
            return Err(fault);
        }
        let next = self.anew()?;
        if let Err(fault) = begin_anew(&self.subscriber, &mut self.sink) {
            drop(next);
            return Err(fault);
        }
        drop(mem::replace(&mut self.subscriber, next));
        self.positions = LinePositions::nothing();
        self.conflicts = Conflicts::none(self.conflicts.are_settled());
        self.restart_after = None;
        self.has_restarted = true;
        Ok(())
    }

    /// Whether the end is known and all is held.
    fn has_all(&self) -> bool
        ensures { IsTrue result ↔ HasAllOf self.now.subscriber }
    {
        match self.subscriber.ended() {
            Some(count) => self.subscriber.held().len() == count as usize,
            None => false,
        }
    }

    /// Whether all is held, and no number is still to be asked for because packets did not agree on it.
    fn is_done(&self) -> bool
        ensures { IsTrue result ↔ (HasAllOf self.now.subscriber × (self.now.conflicts.wanted.before ≤ self.now.conflicts.wanted.from)) }
    {
        self.has_all() && self.conflicts.len() == 0
    }

    /// Ends the run if what came was a fault, or if all is held and no conflict is open. Whether to restart is checked before
    /// that.
    fn settle(&mut self, taken: Result<(), Fault>)
        requires { self.old.over ≡ None }
        ensures fault { IfErr taken (λ fault. self.new.over ≡ Some (Err fault)) }
        ensures whole { IfSome self.new.over (λ ended. OnOk ended (HasAllOf self.new.subscriber)) }
        ensures settled { IfSome self.new.over (λ ended. OnOk ended (self.new.conflicts.wanted.before ≤ self.new.conflicts.wanted.from)) }
        ensures rest { (self.new.account ≡ self.old.account) × (self.new.why ≡ self.old.why) }
    {
        let settled = match taken {
            Ok(()) => self.restart(),
            Err(fault) => Err(fault),
        };
        self.over = match settled {
            Ok(()) if !self.is_done() => None,
            ended => Some(ended),
        };
    }

    /// Takes what came by a line, unless the run is over, and returns what is next. It returns `Wait` only if the requester
    /// sleeps, so once for each wait, to the thread that wakes it.
    pub(crate) fn deliver(&mut self, line: Line, bytes: &[u8]) -> NextStep
        ensures end { self.new.has_restarted ≡ false → IsSome self.new.over → result ≡ End }
        ensures connect { self.new.has_restarted ≡ true → result ≡ Connect }
        ensures rung { ¬ (result ≡ ReadOn) → self.new.is_asleep ≡ false }
        ensures over { IsSome self.old.over → self.new.subscriber ≡ self.old.subscriber }
        ensures rest { (self.new.account.asked ≡ self.old.account.asked) × (self.new.why ≡ self.old.why) }
    {
        if self.over.is_none() {
            let taken = self.take(line, bytes);
            self.settle(taken);
        }
        match self.next() {
            NextStep::Read => NextStep::Read,
            NextStep::Wait(_) if !self.is_asleep => NextStep::Read,
            next => {
                self.is_asleep = false;
                next
            }
        }
    }

    /// Takes what a request brought, unless the run is over, or the subscriber that lacked it was dropped meanwhile. The
    /// retransmission has to have what is missing.
    pub(crate) fn answer(&mut self, request: &Request, brought: Result<Answered, Fault>)
        ensures over { IsSome self.old.over → self.new ≡ self.old }
        ensures given_up { self.old.has_restarted ≡ true → self.new ≡ self.old }
        ensures fault { IfErr brought (λ fault. self.old.over ≡ None → self.old.has_restarted ≡ false → self.new.over ≡ Some (Err fault)) }
        ensures beyond { brought ≡ Ok Beyond → self.old.over ≡ None → self.old.has_restarted ≡ false
            → (self.new.over ≡ Some (Err Disagrees)) × (self.new.why ≡ Some (OtherEntry request.now.from)) }
        ensures asked { self.old.over ≡ None → self.old.has_restarted ≡ false → self.new.account.asked ≡ (once_asked self.old.account).asked }
        ensures why { MayEndBy self.new.over self.old.why self.new.why }
    {
        if self.over.is_some() || self.has_restarted {
            return;
        }
        self.account.ask();
        let taken = match brought {
            Ok(Answered::Packets(packets)) => self.take_all(request, &packets),
            Ok(Answered::Beyond) => Err(self.other_entry(request.from)),
            Err(fault) => Err(fault),
        };
        self.settle(taken);
    }

    /// Names a number under which the retransmission has another entry than the one held, and returns the run's fault for it.
    fn other_entry(&mut self, number: u32) -> Fault
        requires { self.old.over ≡ None }
        ensures fault { result ≡ Disagrees }
        ensures named { self.new.why ≡ Some (OtherEntry number) }
        ensures going { self.new.over ≡ None }
        ensures rest { (self.new.account ≡ self.old.account) × (self.new.subscriber ≡ self.old.subscriber) }
    {
        self.why = Some(FollowFault::OtherEntry(number));
        Fault::Disagrees
    }

    /// Takes a packet of the retransmission, which has to bring numbers from `from` on, each as it is known, and returns the
    /// number after them. If it brings another entry, the number is named and the result is `Disagrees`.
    fn find(&mut self, from: u32, bytes: &[u8]) -> Result<u32, Fault>
        requires { self.old.over ≡ None }
        ensures going { self.new.over ≡ None }
        ensures shows { IfOk result (λ before. (from < before) × (self.old.subscriber.window.session ≡ self.old.session → Shows self.old.subscriber bytes.now from before)) }
        ensures asked { self.new.account.asked ≡ self.old.account.asked }
        ensures why { MayName result self.old.why self.new.why }
    {
        match deliver_to(&mut self.subscriber, Line::R, bytes)? {
            Heard::Taken => {}
            Heard::Conflict(number) => return Err(self.other_entry(number)),
            Heard::NoPacket | Heard::Foreign | Heard::PastEnd => {
                return Err(self.other_entry(from));
            }
        }
        let Some(numbers) = numbers_from(self.session, from, bytes) else {
            return Err(self.other_entry(from));
        };
        self.hear(Line::R, bytes, Heard::Taken);
        self.conflicts.find(numbers);
        Ok(numbers.before)
    }

    /// Takes packets that were asked for because others did not agree, one after another.
    fn find_all(&mut self, request: &Request, packets: &[Vec<u8>]) -> Result<(), Fault>
        requires { self.old.over ≡ None }
        ensures going { self.new.over ≡ None }
        ensures asked { self.new.account.asked ≡ self.old.account.asked }
        ensures why { MayName result self.old.why self.new.why }
    {
        let mut from = request.from;
        for packet in packets {
            from = self.find(from, packet)?;
        }
        self.replay()
    }

    /// Notes that the retransmission has no such number. It has to lie above the known end.
    fn find_none(&mut self, number: u32) -> Result<(), Fault>
        requires { self.old.over ≡ None }
        ensures going { self.new.over ≡ None }
        ensures past { OnOk result (IsSomeAnd self.old.subscriber.window.ended (λ count. count < number)) }
        ensures named { OnErr result (self.new.why ≡ Some (OtherEntry number)) }
        ensures fault { IfErr result (λ fault. fault ≡ Disagrees) }
        ensures same { (self.new.account ≡ self.old.account) × OnOk result (self.new.why ≡ self.old.why) }
    {
        match self.subscriber.ended() {
            Some(count) if count < number => {
                self.conflicts.find(Numbers {
                    from: number,
                    before: number.saturating_add(1),
                });
                Ok(())
            }
            _ => Err(self.other_entry(number)),
        }
    }

    /// Takes what a request brought for numbers on which packets did not agree, unless the run is over or has restarted.
    pub(crate) fn settle_by(&mut self, request: &Request, brought: Result<Answered, Fault>)
        ensures over { IsSome self.old.over → self.new ≡ self.old }
        ensures given_up { self.old.has_restarted ≡ true → self.new ≡ self.old }
        ensures fault { IfErr brought (λ fault. self.old.over ≡ None → self.old.has_restarted ≡ false → self.new.over ≡ Some (Err fault)) }
        ensures beyond { brought ≡ Ok Beyond → self.old.over ≡ None → self.old.has_restarted ≡ false
            → ¬ (IsSomeAnd self.old.subscriber.window.ended (λ count. count < request.now.from))
            → (self.new.over ≡ Some (Err Disagrees)) × (self.new.why ≡ Some (OtherEntry request.now.from)) }
        ensures asked { self.old.over ≡ None → self.old.has_restarted ≡ false → self.new.account.asked ≡ (once_asked self.old.account).asked }
        ensures why { MayEndBy self.new.over self.old.why self.new.why }
    {
        if self.over.is_some() || self.has_restarted {
            return;
        }
        self.account.ask();
        let found = match brought {
            Ok(Answered::Packets(packets)) => self.find_all(request, &packets),
            Ok(Answered::Beyond) => self.find_none(request.from),
            Err(fault) => Err(fault),
        };
        self.settle(found);
    }

    /// Returns what is next for the requester, which then sleeps until it is rung if nothing is missing. A line that is behind
    /// what it asks for was waited for in vain.
    pub(crate) fn next_to_ask(&mut self) -> NextStep
        ensures asleep { IsTrue self.new.is_asleep ↔ (result ≡ ReadOn) }
        ensures going { self.old.has_restarted ≡ false → self.old.over ≡ None → IsNext self.old.subscriber self.old.positions self.old.conflicts self.old.session result }
        ensures late_a { IfSome (asked_of result) (λ n. IsBehind n self.old.positions.a → self.new.positions.a.awaited_from ≡ n) }
        ensures late_b { IfSome (asked_of result) (λ n. IsBehind n self.old.positions.b → self.new.positions.b.awaited_from ≡ n) }
    {
        let next = self.next();
        if let Some(number) = next.asked() {
            self.positions.asked(number);
        }
        self.is_asleep = matches!(next, NextStep::Read);
        next
    }

    /// Notes a turn of waiting for this number.
    pub(crate) fn waited(&mut self, number: u32)
        ensures { self.new.positions.awaited ≡ number }
    {
        self.positions.waited(number)
    }

    /// Returns what is next. A new subscriber gets its connection, which the retransmission awaits, even if the run is over by
    /// then.
    fn next(&self) -> NextStep
        ensures connect { self.now.has_restarted ≡ true → result ≡ Connect }
        ensures end { self.now.has_restarted ≡ false → IsSome self.now.over → result ≡ End }
        ensures going { self.now.has_restarted ≡ false → self.now.over ≡ None → IsNext self.now.subscriber self.now.positions self.now.conflicts self.now.session result }
    {
        if self.has_restarted {
            return NextStep::Connect;
        }
        if self.over.is_some() {
            return NextStep::End;
        }
        let ahead = ahead_of(&self.subscriber);
        match self.subscriber.missing() {
            Some(request) if self.positions.may_bring(request.from, ahead) => {
                NextStep::Wait(request.from)
            }
            Some(request) => NextStep::Ask(request),
            None => match self.conflicts.request(self.session) {
                Some(request) => NextStep::Settle(request),
                None => NextStep::Read,
            },
        }
    }

    /// Whether the run goes on, with the subscriber that it has.
    pub(crate) fn goes_on(&self) -> bool
        ensures { IsTrue result ↔ ((self.now.has_restarted ≡ false) × (self.now.over ≡ None)) }
    {
        !self.has_restarted && self.over.is_none()
    }

    /// Notes that the new subscriber has its connection, or ends the run by the fault that kept it from one.
    pub(crate) fn connected(&mut self, connected: Result<(), Fault>)
        ensures connected { self.new.has_restarted ≡ false }
        ensures fault { IfErr connected (λ fault. self.old.over ≡ None → self.new.over ≡ Some (Err fault)) }
        ensures later { IsSome self.old.over → self.new.over ≡ self.old.over }
        ensures other { OnOk connected (self.new.over ≡ self.old.over) }
    {
        self.has_restarted = false;
        if let Err(fault) = connected {
            self.fail(fault);
        }
    }

    /// Notes a look at the connection, and ends the run with `Read` if the day is gone.
    pub(crate) fn looked(&mut self, is_closed: bool)
        ensures gone { SILENT_MOST ≤ self.new.silence.looks → self.old.over ≡ None → self.new.over ≡ Some (Err Read) }
        ensures later { IsSome self.old.over → self.new.over ≡ self.old.over }
        ensures other { self.new.silence.looks < SILENT_MOST → self.new.over ≡ self.old.over }
        ensures open { is_closed ≡ false → self.new.silence.looks ≡ 0 }
        ensures rest { (self.new.account ≡ self.old.account) × (self.new.why ≡ self.old.why) }
    {
        if self.silence.looked(is_closed) {
            self.fail(Fault::Read);
        }
    }

    /// Ends the run by a fault, unless it is over.
    pub(crate) fn fail(&mut self, fault: Fault)
        ensures first { self.old.over ≡ None → self.new.over ≡ Some (Err fault) }
        ensures later { IsSome self.old.over → self.new.over ≡ self.old.over }
        ensures rest { (self.new.has_restarted ≡ self.old.has_restarted) × (self.new.silence ≡ self.old.silence) }
        ensures named { (self.new.account ≡ self.old.account) × (self.new.why ≡ self.old.why) }
    {
        if self.over.is_none() {
            self.over = Some(Err(fault));
        }
    }

    /// Notes why the retransmission could not be reached, unless the run is over.
    pub(crate) fn unreachable(&mut self, fault: FollowFault)
        ensures named { self.old.over ≡ None → self.new.why ≡ Some fault }
        ensures later { IsSome self.old.over → self.new.why ≡ self.old.why }
        ensures rest { (self.new.over ≡ self.old.over) × (self.new.account ≡ self.old.account) }
    {
        if self.over.is_none() {
            self.why = Some(fault);
        }
    }

    /// Notes that the retransmission was reached again, unless the run is over.
    pub(crate) fn reached(&mut self)
        ensures unnamed { self.old.over ≡ None → self.new.why ≡ None }
        ensures later { IsSome self.old.over → self.new.why ≡ self.old.why }
        ensures rest { (self.new.over ≡ self.old.over) × (self.new.account ≡ self.old.account) }
    {
        if self.over.is_none() {
            self.why = None;
        }
    }

    /// Returns the account of the run so far.
    fn account(&self) -> FollowAccount
        ensures { result ≡ account_of self.now.account self.now.subscriber self.now.conflicts.wanted }
    {
        let mut account = self.account;
        account.a.entries = self.subscriber.brought(Line::A);
        account.b.entries = self.subscriber.brought(Line::B);
        account.retransmission.entries = self.subscriber.brought(Line::R);
        account.unsettled = self.conflicts.len();
        account.held = held_count(&self.subscriber);
        account
    }

    /// Returns what is left of a run that is over: the subscriber and the sink, how it ended, and its account.
    pub(crate) fn into_followed(self) -> Followed<S>
        ensures tape { IfSome result.subscriber (λ subscriber. IsTapeOf N.listing N.matrix N.limit subscriber.tape) }
        ensures some { result.subscriber ≡ Some self.subscriber }
        ensures session { IfSome result.subscriber (λ subscriber. subscriber.window.session ≡ N.session) }
        ensures own { result.account.session ≡ N.session }
        ensures given { OnOk result.ended (IfSome result.subscriber (λ subscriber. Appends N.before (S.contents result.sink) (rows_of S.text subscriber.tape))) }
        ensures part { GivesPart S.text N.listing N.matrix N.limit N.before (S.contents result.sink) }
        ensures whole { OnOk result.ended (IfSome result.subscriber HasAllOf) }
        ensures settled { OnOk result.ended (result.account.unsettled ≡ 0) }
        ensures held { IfSome result.subscriber (λ subscriber. result.account.held ≡ length subscriber.tape.entries) }
        ensures account { result.account ≡ account_of self.account self.subscriber self.conflicts.wanted }
        ensures why { result.why ≡ self.why }
        ensures lacks { (fault : Fault) → self.lacks ≡ Some fault → result.ended ≡ Err fault }
        ensures fault { (fault : Fault) → self.lacks ≡ None → self.over ≡ Some (Err fault) → result.ended ≡ Err fault }
        ensures open { self.lacks ≡ None → self.over ≡ None → result.ended ≡ Err Read }
        ensures well { self.lacks ≡ None → IsSomeAnd self.over (λ ended. OnErr ended ⊥) → IsOk result.ended }
    {
        // For the proof alone: by the clauses of this call what is held is a legal tape, whatever came.
        let _ = self.subscriber.held();
        let account = self.account();
        let ended = match self.lacks {
            Some(fault) => Err(fault),
            None => self.over.unwrap_or(Err(Fault::Read)),
        };
        Followed {
            subscriber: Some(self.subscriber),
            ended,
            why: self.why,
            account,
            sink: self.sink,
        }
    }
}
