//! Plays a day over sockets in one process: the day, its follower, its participants, and a watch over all.

use crate::{FollowSockets, LiveSockets, Loss, NoSink, follow_over, live_over};
use arbitration::Line;
use feed_ends::here;
use sale_matrix::Matrix;
use std::alloc::Global;
use std::io::Write;
use std::net::{Net, TcpListener, TcpStream, UdpSocket};
use std::process::Abort;
use std::rt::Clock;
use std::sync::Wait;
use std::sync::atomic::{AtomicBool, AtomicU32, Ordering};
use std::thread;
use std::thread::Threads;
use std::time::Duration;
use tape_frames::{LONGEST_PACKET, Packet, Version, decode_packet};
use tape_types::{Listing, Participant, Symbol};

/// The session of the day.
const SESSION: u64 = 7;

/// The limit of the day's tape and of its follower's, in entries.
const LIMIT: u32 = 1_048_576;

/// How many connections are served: the follower's before its restart and after it.
const SERVES: u16 = 2;

/// How many packets are read from a line, at most.
const PACKETS_MOST: usize = 100;

/// How many turns of a hundredth of a second the day may take: some ten seconds less than a test may take.
const TURNS_MOST: u32 = 5_000;

/// How many turns of a millisecond it may take until a packet is sent or lost: as long as the day.
const PACKET_TURNS_MOST: u32 = 50_000;

/// A report of 100 shares of AB at 10.00.
const REPORT: [u8; 40] = [
    0x00, 0x26, 0x52, 0x4e, 0x00, 0x00, 0x00, 0x01, 0x00, 0x00, 0x00, 0x00, 0x00, 0x00, 0x00, 0x00,
    0x41, 0x42, 0x20, 0x20, 0x20, 0x20, 0x20, 0x20, 0x00, 0x00, 0x00, 0x00, 0x00, 0x01, 0x86, 0xa0,
    0x00, 0x00, 0x00, 0x64, 0x40, 0x20, 0x20, 0x20,
];

/// A day to be played, apart from what its lines lose.
#[derive(Clone, Copy)]
pub struct Plan<'a> {
    /// The matrix of the day's tape and of its follower's.
    pub matrix: Matrix,
    /// The last code of each report's condition.
    pub code: u8,
    /// The reports of each participant.
    pub reports: u8,
    /// Counts the packets that were sent or lost. Each report waits for the one before it.
    pub packets: &'a AtomicU32,
    /// After how many entries the follower restarts.
    pub restart_after: u32,
}

/// Loses on A each packet whose first number is odd, and on B each whose first number is no multiple of 4.
#[derive(Drop)]
pub struct Lossy;

impl Loss for Lossy {
    fn drops(&self, line: Line, first: u32) -> bool {
        match line {
            Line::A => first % 2 == 1,
            Line::B => first % 4 != 0,
            Line::R => false,
        }
    }
}

/// What became of a day: whether the participants' reports were sent, the statuses of the day and of its follower, their
/// reports, and how many packets of entries came by A and by B to a port that nobody follows, if none of them was to be lost.
#[derive(Drop)]
pub struct Played {
    pub is_sent: bool,
    pub statuses: (u8, u8),
    pub written: Vec<u8>,
    pub followed: Vec<u8>,
    pub heard: [Option<u32>; 2],
}

/// Returns the report of a participant under this number, at a price of its own.
fn report(who: u8, number: u8, code: u8) -> [u8; 40] {
    let mut bytes = REPORT;
    bytes[3] = who;
    bytes[7] = number;
    bytes[31] = number.wrapping_mul(37);
    bytes[39] = code;
    bytes
}

/// Returns the listing of the symbols CD and AB and the participants Q and N, neither in alphabetical order.
fn names_of_two(alloc: Global) -> Option<Listing> {
    let symbols = [
        Symbol::try_new(*b"CD      ")?,
        Symbol::try_new(*b"AB      ")?,
    ];
    let participants = [Participant::try_new(b'Q')?, Participant::try_new(b'N')?];
    Listing::new(alloc, &symbols, &participants).ok()
}

/// Returns the same listing. If there is none, the test fails.
fn listing_of_two<R: Abort>(rt: &R, alloc: Global) -> Listing {
    match names_of_two(alloc) {
        Some(listing) => listing,
        None => panic!(rt; "no listing"),
    }
}

/// Waits until `wanted` packets were sent or lost, and returns whether they were.
fn is_reached<R: Clock>(rt: &R, packets: &AtomicU32, wanted: u32) -> bool {
    for _ in 0..PACKET_TURNS_MOST {
        if packets.load(Ordering::SeqCst) >= wanted {
            return true;
        }
        thread::sleep(rt, Duration::from_millis(1));
    }
    false
}

/// Sends the reports of both participants in turns, each once the packet of the one before was sent or lost, and returns
/// whether all were sent.
fn send_in_turns<R: Clock + Net<Listener = TcpListener, Stream = TcpStream>>(
    rt: &R,
    ports: [u16; 2],
    plan: &Plan<'_>,
) -> bool {
    let first = TcpStream::connect(rt, here(ports[0]));
    let second = TcpStream::connect(rt, here(ports[1]));
    let (Ok(mut first), Ok(mut second)) = (first, second) else {
        return false;
    };
    let mut wanted = 0u32;
    for number in 1..=plan.reports {
        wanted = wanted.wrapping_add(2);
        let is_sent = first.write_all(&report(b'Q', number, plan.code)).is_ok()
            && is_reached(rt, plan.packets, wanted.wrapping_sub(1))
            && second.write_all(&report(b'N', number, plan.code)).is_ok()
            && is_reached(rt, plan.packets, wanted);
        if !is_sent {
            return false;
        }
    }
    true
}

/// Returns how many packets of entries a line has before its end, all in version 2. It returns `None` if one of them was to be
/// lost, or something else came.
fn heard_by(line: Line, socket: &UdpSocket) -> Option<u32> {
    let mut room = [0u8; LONGEST_PACKET];
    let mut heard = 0u32;
    for _ in 0..PACKETS_MOST {
        let (len, _) = socket.recv_from(&mut room).ok()?;
        let packet = decode_packet(&room[..len]).ok()?;
        if matches!(packet, Packet::End { .. }) {
            return Some(heard);
        }
        if packet.version() != Version::Two {
            return None;
        }
        if let [entry, ..] = packet.entries() {
            if Lossy.drops(line, entry.number.value()) {
                return None;
            }
            heard = heard.wrapping_add(1);
        }
    }
    None
}

/// Fails the test if the day has not ended after its turns.
fn watch<R: Abort + Clock>(rt: &R, ended: &AtomicBool) {
    for _ in 0..TURNS_MOST {
        if ended.load(Ordering::SeqCst) {
            return;
        }
        thread::sleep(rt, Duration::from_millis(10));
    }
    panic!(rt; "the day did not end in its turns");
}

/// The sockets of a day and of its follower, the ports of the participants' lines, and a socket more for A and for B.
#[derive(Drop)]
struct Opened {
    live: LiveSockets,
    follow: FollowSockets,
    ports: [u16; 2],
    heard: [UdpSocket; 2],
}

/// Returns a listener at a free port, and its port. If there is none, the test fails.
fn listen<R: Abort + Net<Listener = TcpListener, Stream = TcpStream>>(
    rt: &R,
) -> (TcpListener, u16) {
    let Ok(listener) = TcpListener::bind(rt, here(0)) else {
        panic!(rt; "no listener")
    };
    let Ok(address) = listener.local_addr() else {
        panic!(rt; "a listener has no port")
    };
    (listener, address.port())
}

/// Returns a socket at a free port, and its port. If there is none, the test fails.
fn open<R: Abort + Net<Listener = TcpListener, Stream = TcpStream>>(rt: &R) -> (UdpSocket, u16) {
    let Ok(socket) = UdpSocket::bind(rt, here(0)) else {
        panic!(rt; "no socket")
    };
    let Ok(address) = socket.local_addr() else {
        panic!(rt; "a socket has no port")
    };
    (socket, address.port())
}

/// Opens all sockets at free ports.
fn open_all<R: Abort + Net<Listener = TcpListener, Stream = TcpStream>>(
    rt: &R,
    alloc: Global,
) -> Opened {
    let Ok(mut lines) = Vec::with_capacity(alloc, 2) else {
        panic!(rt; "no room for the lines")
    };
    let (first, at_first) = listen(rt);
    let (second, at_second) = listen(rt);
    lines.push_reserved(first);
    lines.push_reserved(second);
    let (a, at_a) = open(rt);
    let (b, at_b) = open(rt);
    let (heard_a, also_a) = open(rt);
    let (heard_b, also_b) = open(rt);
    let (sender, _) = open(rt);
    let (retransmission, asked_at) = listen(rt);
    let (Ok(to_a), Ok(to_b)) = (
        Vec::from_slice(alloc, &[at_a, also_a]),
        Vec::from_slice(alloc, &[at_b, also_b]),
    ) else {
        panic!(rt; "no room for the ports")
    };
    Opened {
        live: LiveSockets {
            lines,
            retransmission,
            sender,
            a: to_a,
            b: to_b,
        },
        follow: FollowSockets {
            a,
            b,
            retransmission: asked_at,
        },
        ports: [at_first, at_second],
        heard: [heard_a, heard_b],
    }
}

/// Runs a day and its follower, whose reports are appended to these texts, and returns their statuses.
fn statuses<
    R: Threads + Wait + Clock + Net<Listener = TcpListener, Stream = TcpStream> + Sync,
    L: Loss + Sync,
>(
    rt: &R,
    alloc: Global,
    plan: &Plan<'_>,
    loss: &L,
    listings: (Listing, Listing),
    sockets: (LiveSockets, FollowSockets),
    texts: (&mut Vec<u8>, &mut Vec<u8>),
) -> (u8, u8) {
    let (listing, same) = listings;
    let (live, follow) = sockets;
    let (written, followed) = texts;
    thread::join(
        rt,
        || live_over(
            rt,
            alloc,
            listing,
            LIMIT,
            plan.matrix,
            SESSION,
            SERVES,
            live,
            loss,
            written,
        ),
        || follow_over(
            rt,
            alloc,
            same,
            LIMIT,
            plan.matrix,
            SESSION,
            follow,
            Some(plan.restart_after),
            NoSink,
            followed,
        )
        .0,
    )
}

/// Plays a day in one process, and fails if it does not end in its turns.
pub fn play<
    R: Abort + Threads + Wait + Clock + Net<Listener = TcpListener, Stream = TcpStream> + Sync,
    L: Loss + Sync,
>(rt: &R, alloc: Global, plan: &Plan<'_>, loss: &L) -> Played {
    let Opened {
        live,
        follow,
        ports,
        heard: [a, b],
    } = open_all(rt, alloc);
    let listings = (listing_of_two(rt, alloc), listing_of_two(rt, alloc));
    let (mut written, mut followed) = (Vec::new(alloc), Vec::new(alloc));
    let texts = (&mut written, &mut followed);
    let ended = AtomicBool::new(false);
    let ((), (statuses, is_sent)) = thread::join(
        rt,
        || watch(rt, &ended),
        || {
            let all = thread::join(
                rt,
                || statuses(rt, alloc, plan, loss, listings, (live, follow), texts),
                || send_in_turns(rt, ports, plan),
            );
            ended.store(true, Ordering::SeqCst);
            all
        },
    );
    Played {
        is_sent,
        statuses,
        written,
        followed,
        heard: [heard_by(Line::A, &a), heard_by(Line::B, &b)],
    }
}
