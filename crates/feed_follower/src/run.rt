//! Runs a follower: two threads read the lines until the run is over, beside the requester of what the lines lack.
ghost use Rattle.std.specs.Prelude.{◌≡◌, ◌↔◌, IsTrue};
ghost use Rattle.feed_follower.specs.declared.follower.NextStep.TheVariants.{End};

use crate::follower::{Follower, NextStep};
use crate::held_name::HeldName;
use crate::inbox::Inbox;
use crate::lines::{FollowedLine, ROOM};
use crate::requester::{Answered, Requester};
use crate::shared_follower::{Owed, SharedFollower, Turn};
use crate::{EntrySink, FollowFault, FollowSockets};
use arbitration::Line;
use feed_ends::Fault;
use std::alloc::Global;
use std::net::{Net, Shutdown, TcpListener, TcpStream};
use std::sync::{Mutex, Wait};
use std::thread;
use std::thread::{Parker, Threads};
use std::time::Duration;
use tape_frames::Request;

/// How many kept datagrams are taken before a thread that sleeps for the follower may have it.
const TAKEN_AT_ONCE: u32 = 64;

/// What a run has before it has its follower.
#[derive(Drop)]
pub(crate) struct ReadyRun<'a> {
    connection: TcpStream,
    kept: Inbox,
    a: FollowedLine<'a>,
    b: FollowedLine<'a>,
}

/// What the lines of a follower and its requester share. What a line brings while another thread has the follower is kept, and
/// the thread that lets go of the follower delivers what was kept. So no line waits for the follower, unless too much is kept.
#[derive(Drop)]
pub(crate) struct Run<'a, N: HeldName, S: EntrySink> {
    shared: SharedFollower<N, S>,
    /// Another handle of the requester's connection, which ends what is open on it.
    connection: Mutex<TcpStream>,
    /// Wakes the requester.
    bell: Parker,
    a: FollowedLine<'a>,
    b: FollowedLine<'a>,
}

impl<'a> ReadyRun<'a> {
    /// The lines of these sockets, another handle of the requester's connection, and an empty inbox. `Memory` if there is none
    /// for it.
    pub(crate) fn new(
        alloc: Global,
        sockets: &'a FollowSockets,
        connection: TcpStream,
    ) -> Result<ReadyRun<'a>, Fault> {
        let a = FollowedLine::new(Line::A, &sockets.a)?;
        let b = FollowedLine::new(Line::B, &sockets.b)?;
        let kept = Inbox::nothing(alloc).map_err(|_| Fault::Memory)?;
        Ok(ReadyRun {
            connection,
            kept,
            a,
            b,
        })
    }
}

impl<'a, N: HeldName, S: EntrySink> Run<'a, N, S> {
    /// The run of a follower.
    pub(crate) fn new(
        alloc: Global,
        follower: Follower<N, S>,
        ready: ReadyRun<'a>,
    ) -> Run<'a, N, S> {
        Run {
            shared: SharedFollower::new(alloc, follower, ready.kept),
            connection: Mutex::new(ready.connection),
            bell: Parker::new(),
            a: ready.a,
            b: ready.b,
        }
    }

    /// Wakes the lines and the requester, and ends the open request, whose answer may take long if the retransmission serves
    /// another subscriber. Each of them sees then that the run is over.
    fn end<R: Wait>(&self, rt: &R) {
        let _ = self.connection.lock(rt).shutdown(Shutdown::Both);
        self.a.wake();
        self.b.wake();
        self.bell.unpark();
    }

    /// Wakes the threads that have something to do next. Returns whether the run is over.
    fn tell<R: Wait>(&self, rt: &R, next: &NextStep) -> bool
        ensures { IsTrue result ↔ (next.now ≡ End) }
    {
        match next {
            NextStep::Read => false,
            NextStep::Wait(_) | NextStep::Ask(_) | NextStep::Settle(_) | NextStep::Connect => {
                self.bell.unpark();
                false
            }
            NextStep::End => {
                self.end(rt);
                true
            }
        }
    }

    /// Delivers what a line brought, or keeps it if another thread has the follower. Returns whether the run is over.
    fn bring<R: Wait>(&self, rt: &R, line: Line, bytes: &[u8]) -> bool {
        if let Some(turn) = self.shared.turn_now() {
            return self.deliver(rt, turn, line, bytes);
        }
        match self.shared.keep(rt, line, bytes) {
            Some(owed) => self.work_off(rt, owed),
            None => self.deliver(rt, self.shared.turn(rt), line, bytes),
        }
    }

    /// Delivers what a line brought, in this turn, and then what is kept. Returns whether the run is over.
    fn deliver<R: Wait>(&self, rt: &R, turn: Turn<'_, N, S>, line: Line, bytes: &[u8]) -> bool {
        let mut turn = turn;
        let next = turn.follower.deliver(line, bytes);
        let owed = turn.end();
        if self.tell(rt, &next) {
            owed.see_end(&next);
            return true;
        }
        self.work_off(rt, owed)
    }

    /// Delivers what is kept until nothing is, unless another thread has the follower, which does so then. Returns whether the
    /// run is over.
    fn work_off<R: Wait>(&self, rt: &R, owed: Owed) -> bool {
        let mut owed = owed;
        for _ in rt.forever() {
            let Some(turn) = self.shared.turn_owed(rt, owed) else {
                return false;
            };
            let mut turn = turn;
            let next = self.take_kept(rt, &mut turn.follower);
            owed = turn.end();
            if self.tell(rt, &next) {
                owed.see_end(&next);
                return true;
            }
        }
        unreachable!()
    }

    /// Delivers what is kept, at most `TAKEN_AT_ONCE` datagrams, and returns what is next.
    fn take_kept<R: Wait>(&self, rt: &R, follower: &mut Follower<N, S>) -> NextStep {
        let mut told = NextStep::Read;
        for _turn in 0..TAKEN_AT_ONCE {
            let Some(datagram) = self.shared.next_kept(rt) else {
                break;
            };
            match follower.deliver(datagram.line, &datagram.bytes) {
                NextStep::Read => {}
                NextStep::End => return NextStep::End,
                next => told = next,
            }
        }
        told
    }

    /// Reads a line until the run is over.
    fn read_line<R: Wait>(&self, rt: &R, followed: &FollowedLine<'_>) {
        let mut room = [0u8; ROOM];
        for _ in rt.forever() {
            match followed.read(&mut room) {
                Ok(len) => {
                    if self.bring(rt, followed.line, &room[..len]) {
                        break;
                    }
                }
                Err(fault) => {
                    self.fail(rt, fault);
                    break;
                }
            }
        }
        self.end(rt);
    }

    /// Returns what is next for the requester.
    pub(crate) fn next_to_ask<R: Wait>(&self, rt: &R) -> NextStep {
        let mut turn = self.shared.turn(rt);
        let next = turn.follower.next_to_ask();
        self.work_off(rt, turn.end());
        next
    }

    /// Sleeps until the bell rings, at most this long.
    pub(crate) fn rest<R: Wait>(&self, rt: &R, longest: Duration) {
        self.bell.park_timeout(rt, longest);
    }

    /// Notes a turn of waiting for this number.
    pub(crate) fn waited<R: Wait>(&self, rt: &R, number: u32) {
        let mut turn = self.shared.turn(rt);
        turn.follower.waited(number);
        self.work_off(rt, turn.end());
    }

    /// Notes a look at the connection.
    pub(crate) fn looked<R: Wait>(&self, rt: &R, is_closed: bool) {
        let mut turn = self.shared.turn(rt);
        turn.follower.looked(is_closed);
        self.work_off(rt, turn.end());
    }

    /// Gives the follower what a request brought.
    pub(crate) fn answer<R: Wait>(
        &self,
        rt: &R,
        request: &Request,
        brought: Result<Answered, Fault>,
    ) {
        let mut turn = self.shared.turn(rt);
        turn.follower.answer(request, brought);
        self.work_off(rt, turn.end());
    }

    /// Gives the follower what a request brought for numbers on which packets did not agree.
    pub(crate) fn settle_by<R: Wait>(
        &self,
        rt: &R,
        request: &Request,
        brought: Result<Answered, Fault>,
    ) {
        let mut turn = self.shared.turn(rt);
        turn.follower.settle_by(request, brought);
        self.work_off(rt, turn.end());
    }

    /// Notes why the retransmission could not be reached.
    pub(crate) fn unreachable<R: Wait>(&self, rt: &R, fault: FollowFault) {
        let mut turn = self.shared.turn(rt);
        turn.follower.unreachable(fault);
        self.work_off(rt, turn.end());
    }

    /// Notes that the retransmission was reached again.
    pub(crate) fn reached<R: Wait>(&self, rt: &R) {
        let mut turn = self.shared.turn(rt);
        turn.follower.reached();
        self.work_off(rt, turn.end());
    }

    /// Notes that the new subscriber has its connection, of which this is another handle, or the fault that kept it from one.
    pub(crate) fn connected<R: Wait>(&self, rt: &R, connected: Result<TcpStream, Fault>) {
        let connected = match connected {
            Ok(connection) => {
                self.replace_connection(rt, connection);
                Ok(())
            }
            Err(fault) => Err(fault),
        };
        let mut turn = self.shared.turn(rt);
        turn.follower.connected(connected);
        self.work_off(rt, turn.end());
    }

    /// Replaces the handle of the requester's connection by one of its new connection.
    pub(crate) fn replace_connection<R: Wait>(&self, rt: &R, connection: TcpStream) {
        *self.connection.lock(rt) = connection;
    }

    /// Whether the run goes on, with the subscriber that it has.
    pub(crate) fn goes_on<R: Wait>(&self, rt: &R) -> bool {
        let turn = self.shared.turn(rt);
        let goes_on = turn.follower.goes_on();
        self.work_off(rt, turn.end());
        goes_on
    }

    /// Ends the run by a fault, unless it is over.
    fn fail<R: Wait>(&self, rt: &R, fault: Fault) {
        let mut turn = self.shared.turn(rt);
        turn.follower.fail(fault);
        self.work_off(rt, turn.end());
    }

    /// Returns the follower of a run that is over.
    pub(crate) fn into_follower(self) -> Follower<N, S> {
        self.shared.into_follower()
    }
}

/// Reads both lines, each in a thread of its own, and has the requester ask beside them, until the run is over. The run ends if
/// a thread can't be started.
pub(crate) fn follow_at_once<
    N: HeldName + Send,
    S: EntrySink + Send,
    R: Threads + Wait + Net<Listener = TcpListener, Stream = TcpStream> + Sync,
>(rt: &R, run: &Run<'_, N, S>, requester: Requester) {
    thread::scope(thread::scope_env(), rt, move |scope| {
        let a = scope.spawn(move || run.read_line(rt, &run.a));
        let b = scope.spawn(move || run.read_line(rt, &run.b));
        if a.is_err() || b.is_err() {
            run.fail(rt, Fault::Worker);
        }
        requester.run(rt, run);
        run.end(rt);
    });
}
