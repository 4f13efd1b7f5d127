//! Asks the retransmission for what a follower lacks, beside its lines, and connects again after a connection was lost.
ghost use Rattle.std.specs.Prelude.{◌≡◌, ◌≢◌, ◌↔◌, ◌⊎◌, ◌≤◌, Err, IfErr, IfOk, IsTrue, None, Ok};
ghost use Rattle.feed_ends.specs.declared.fault.Fault.TheVariants.{Disagrees, Memory, Read, Write};
ghost use Rattle.feed_follower.specs.Reported.{follow_fault};
ghost use Rattle.feed_follower.specs.declared.requester.Answered.TheVariants.{Beyond, Packets};
ghost use Rattle.retransmit.specs.declared.ask_fault.AskFault.TheVariants.{OutOfMemory as AskOutOfMemory, ReadFault, Refused, WriteFault};
ghost use Rattle.retransmit.specs.declared.refusal.RequestRefusal.TheVariants.{Beyond as RefusedBeyond};

use crate::follower::NextStep;
use crate::held_name::HeldName;
use crate::run::Run;
use crate::tries::{PAUSE, Tries, tries_within};
use crate::{EntrySink, FollowFault};
use feed_ends::{Fault, here};
use retransmit::{AskFault, RequestRefusal, ask};
use std::alloc::Global;
use std::io::ErrorKind;
use std::net::{Net, TcpListener, TcpStream};
use std::sync::Wait;
use std::thread::Parker;
use std::time::Duration;
use tape_frames::Request;

/// How long a turn of waiting for a line is, in milliseconds.
const TURN: u64 = 1;

/// How long the requester sleeps at most before it checks whether its connection was closed, in milliseconds.
const LOOK: u64 = 1_000;

/// The thread's side that asks the retransmission for what a follower lacks.
#[derive(Drop)]
pub(crate) struct Requester {
    /// The connection on which it asks.
    pub(crate) connection: TcpStream,
    /// The port of the retransmission.
    pub(crate) port: u16,
    /// Where memory comes from.
    pub(crate) alloc: Global,
    /// For how many seconds it tries to connect, or `None` if it tries once.
    connect_within: Option<u32>,
    /// The tries that are left to open another connection once this one has ended. All are left once a request was answered on
    /// it, or, if it tries for some seconds, once it was seen open.
    tries: Tries,
}

/// An answer of the retransmission.
#[derive(Drop)]
pub(crate) enum Answered {
    /// The bytes of its packets.
    Packets(Vec<Vec<u8>>),
    /// There is no such number.
    Beyond,
}

/// Connects to the retransmission at a port of this machine, once. `Unreachable` if it can't.
fn dial<R: Net<Listener = TcpListener, Stream = TcpStream>>(
    rt: &R,
    port: u16,
) -> Result<TcpStream, FollowFault>
    ensures { IfErr result (λ fault. follow_fault fault ≡ Read) }
{
    let connected = TcpStream::connect(rt, here(port));
    let stream = connected.map_err(|error| FollowFault::Unreachable {
        port,
        kind: error.kind(),
    })?;
    // Each request is one write, which need not wait for the one before to be acknowledged.
    let _ = stream.set_nodelay(true);
    Ok(stream)
}

/// Waits before another try to connect.
fn pause<R: Wait>(rt: &R) {
    Parker::new().park_timeout(rt, Duration::from_millis(PAUSE));
}

/// Connects to the retransmission, for as long as it may try. It returns the fault of the last try.
fn dial_within<R: Net<Listener = TcpListener, Stream = TcpStream> + Wait>(
    rt: &R,
    port: u16,
    connect_within: Option<u32>,
) -> Result<TcpStream, FollowFault>
    ensures { IfErr result (λ fault. follow_fault fault ≡ Read) }
{
    let mut dialed = dial(rt, port);
    for _again in 1..tries_within(connect_within) {
        if dialed.is_ok() {
            break;
        }
        pause(rt);
        dialed = dial(rt, port);
    }
    dialed
}

/// Returns the run's fault for a request that brought no packets.
fn fault_of_ask(fault: AskFault) -> Fault
    ensures read { fault ≡ ReadFault → result ≡ Read }
    ensures write { fault ≡ WriteFault → result ≡ Write }
    ensures memory { fault ≡ AskOutOfMemory → result ≡ Memory }
    ensures other { fault ≢ ReadFault → fault ≢ WriteFault → fault ≢ AskOutOfMemory → result ≡ Disagrees }
{
    match fault {
        AskFault::ReadFault => Fault::Read,
        AskFault::WriteFault => Fault::Write,
        AskFault::OutOfMemory => Fault::Memory,
        AskFault::BadAnswer | AskFault::Refused(_) => Fault::Disagrees,
    }
}

/// Whether the connection has ended, by what a request on it brought: it could not be read or written.
fn has_ended(brought: &Result<Answered, Fault>) -> bool
    ensures { IsTrue result ↔ ((brought.now ≡ Err Read) ⊎ (brought.now ≡ Err Write)) }
{
    matches!(brought, Err(Fault::Read | Fault::Write))
}

/// Returns what a request brought: packets, `Beyond`, or the run's fault.
fn read_answer(asked: Result<Vec<Vec<u8>>, AskFault>) -> Result<Answered, Fault>
    ensures packets { IfOk asked (λ packets. result ≡ Ok (Packets packets)) }
    ensures beyond { asked ≡ Err (Refused RefusedBeyond) → result ≡ Ok Beyond }
    ensures read { asked ≡ Err ReadFault → result ≡ Err Read }
    ensures write { asked ≡ Err WriteFault → result ≡ Err Write }
    ensures memory { asked ≡ Err AskOutOfMemory → result ≡ Err Memory }
    ensures only { result ≡ Ok Beyond → asked ≡ Err (Refused RefusedBeyond) }
{
    match asked {
        Ok(packets) => Ok(Answered::Packets(packets)),
        Err(AskFault::Refused(RequestRefusal::Beyond)) => Ok(Answered::Beyond),
        Err(fault) => Err(fault_of_ask(fault)),
    }
}

impl Requester {
    /// A requester with a connection, which it tries to open for as long as it may.
    pub(crate) fn new<R: Net<Listener = TcpListener, Stream = TcpStream> + Wait>(
        rt: &R,
        alloc: Global,
        port: u16,
        connect_within: Option<u32>,
    ) -> Result<Requester, FollowFault>
        ensures { IfErr result (λ fault. follow_fault fault ≡ Read) }
    {
        let connection = dial_within(rt, port, connect_within)?;
        Ok(Requester {
            connection,
            port,
            alloc,
            connect_within,
            tries: Tries::within(connect_within),
        })
    }

    /// Sends a request and reads what it brings. The follower is not locked meanwhile, so its lines are still read.
    fn bring(&self, request: &Request) -> Result<Answered, Fault> {
        read_answer(ask(
            self.alloc,
            request,
            &mut &self.connection,
            &mut &self.connection,
        ))
    }

    /// Returns another handle of the connection. `Read` if there is none.
    pub(crate) fn handle(&self) -> Result<TcpStream, Fault> {
        self.connection.try_clone().map_err(|_| Fault::Read)
    }

    /// Whether the other side closed the connection, or it was lost. A connection that is not yet accepted is open. It does not
    /// wait.
    fn is_closed(&self) -> bool {
        let _ = self.connection.set_nonblocking(true);
        let seen = self.connection.peek(&mut [0]);
        let _ = self.connection.set_nonblocking(false);
        match seen {
            Ok(len) => len == 0,
            Err(error) => !matches!(error.kind(), ErrorKind::WouldBlock | ErrorKind::Interrupted),
        }
    }

    /// Tries once to connect again, after a pause unless it is the first try.
    fn try_again<R: Net<Listener = TcpListener, Stream = TcpStream> + Wait>(
        &mut self,
        rt: &R,
    ) -> Result<TcpStream, FollowFault>
        ensures { IfErr result (λ fault. follow_fault fault ≡ Read) }
    {
        if self.tries.is_paused() {
            pause(rt);
        }
        self.tries.take();
        dial(rt, self.port)
    }

    /// Connects again, as long as tries are left and the run goes on. `None` if it was not tried.
    fn dial_again<
        N: HeldName,
        S: EntrySink,
        R: Net<Listener = TcpListener, Stream = TcpStream> + Wait,
    >(&mut self, rt: &R, run: &Run<'_, N, S>) -> Option<Result<TcpStream, FollowFault>> {
        let mut dialed = None;
        for _again in 0..self.tries.left() {
            if matches!(dialed, Some(Ok(_))) || !run.goes_on(rt) {
                break;
            }
            dialed = Some(self.try_again(rt));
        }
        dialed
    }

    /// Connects for a new subscriber. The connection of the one that was dropped is closed.
    fn reconnect<
        N: HeldName,
        S: EntrySink,
        R: Net<Listener = TcpListener, Stream = TcpStream> + Wait,
    >(&mut self, rt: &R, run: &Run<'_, N, S>) {
        match dial(rt, self.port) {
            Ok(connection) => {
                self.connection = connection;
                self.tries = Tries::within(self.connect_within);
                run.connected(rt, self.handle());
            }
            Err(fault) => run.connected(rt, Err(fault.fault())),
        }
    }

    /// Connects again after a connection that has ended, and returns whether it could. If it tried in vain, the run keeps what
    /// names the fault.
    fn connect_again<
        N: HeldName,
        S: EntrySink,
        R: Net<Listener = TcpListener, Stream = TcpStream> + Wait,
    >(&mut self, rt: &R, run: &Run<'_, N, S>) -> bool {
        let connection = match self.dial_again(rt, run) {
            Some(Ok(connection)) => connection,
            Some(Err(fault)) => {
                run.unreachable(rt, fault);
                return false;
            }
            None => return false,
        };
        let Ok(handle) = connection.try_clone() else {
            return false;
        };
        self.connection = connection;
        run.replace_connection(rt, handle);
        run.reached(rt);
        true
    }

    /// Asks for numbers and returns what the request brings, or `None` if the connection has ended and another was opened: then
    /// what to ask for is looked up again. Each connection that is opened takes a try, and all tries are left once a request
    /// was answered, so connections that answer nothing come to an end. If no try is left, the run ends by the fault of the
    /// connection that has ended.
    fn ask_for<
        N: HeldName,
        S: EntrySink,
        R: Net<Listener = TcpListener, Stream = TcpStream> + Wait,
    >(
        &mut self,
        rt: &R,
        run: &Run<'_, N, S>,
        request: &Request,
    ) -> Option<Result<Answered, Fault>> {
        let brought = self.bring(request);
        if has_ended(&brought) && self.connect_again(rt, run) {
            return None;
        }
        if brought.is_ok() {
            self.tries.renew();
        }
        Some(brought)
    }

    /// Asks for what is missing.
    fn ask_missing<
        N: HeldName,
        S: EntrySink,
        R: Net<Listener = TcpListener, Stream = TcpStream> + Wait,
    >(&mut self, rt: &R, run: &Run<'_, N, S>, request: &Request) {
        if let Some(brought) = self.ask_for(rt, run, request) {
            run.answer(rt, request, brought);
        }
    }

    /// Asks for numbers on which packets did not agree.
    fn ask_again<
        N: HeldName,
        S: EntrySink,
        R: Net<Listener = TcpListener, Stream = TcpStream> + Wait,
    >(&mut self, rt: &R, run: &Run<'_, N, S>, request: &Request) {
        if let Some(brought) = self.ask_for(rt, run, request) {
            run.settle_by(rt, request, brought);
        }
    }

    /// Connects again after a connection that was seen closed, by at least one try. Returns whether it could.
    fn reopen<N: HeldName, S: EntrySink, R: Net<Listener = TcpListener, Stream = TcpStream> + Wait>(
        &mut self,
        rt: &R,
        run: &Run<'_, N, S>,
    ) -> bool {
        self.tries.one_more();
        self.connect_again(rt, run)
    }

    /// Looks at the connection. If it was closed, and connecting may be tried for some seconds, it is opened again: by the
    /// tries that are left, or else by one try at each look, of which there are more as long as packets come.
    fn look<N: HeldName, S: EntrySink, R: Net<Listener = TcpListener, Stream = TcpStream> + Wait>(
        &mut self,
        rt: &R,
        run: &Run<'_, N, S>,
    ) {
        let is_closed = self.is_closed();
        if self.connect_within.is_some() {
            if !is_closed {
                self.tries.renew();
            } else if self.reopen(rt, run) {
                return;
            }
        }
        run.looked(rt, is_closed);
    }

    /// Asks for what is missing until the run is over, and sleeps while nothing is missing. What one line lost is waited for
    /// until the other has gone past it, was waited for long enough, or is too late. After each second of sleep it looks at the
    /// connection, and ends the run if that was closed and nothing more comes. The connection is closed at the end.
    pub(crate) fn run<
        N: HeldName,
        S: EntrySink,
        R: Net<Listener = TcpListener, Stream = TcpStream> + Wait,
    >(self, rt: &R, run: &Run<'_, N, S>) {
        let mut requester = self;
        for _ in rt.forever() {
            match run.next_to_ask(rt) {
                NextStep::Read => {
                    run.rest(rt, Duration::from_millis(LOOK));
                    requester.look(rt, run);
                }
                NextStep::Wait(number) => {
                    run.rest(rt, Duration::from_millis(TURN));
                    run.waited(rt, number);
                }
                NextStep::Ask(request) => requester.ask_missing(rt, run, &request),
                NextStep::Settle(request) => requester.ask_again(rt, run, &request),
                NextStep::Connect => requester.reconnect(rt, run),
                NextStep::End => break,
            }
        }
    }
}
