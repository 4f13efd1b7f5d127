//! Counts the refused frames of a line by reason, and keeps for each reason the message number of the first.
ghost use Rattle.std.specs.Prelude.{◌≡◌, ◌+◌, ◌<◌, ◌≤◌, ◌^◌, ◌++◌, ◌∷◌, List, [], Option, Some, IfSome, length};
ghost use Rattle.std.specs.List.{Contains, cons_option};
ghost use Rattle.participant_lines.specs.Tallies.{AreCounted, all_reasons, one_more, reason_code, reason_name, refused_for};
ghost use Rattle.participant_lines.specs.declared.tally.Reason.{Reason as Why};

use reports::MessageFault;
use tape_core::Refusal;

/// Why a frame was refused.
#[derive(Clone, Copy, Debug, PartialEq, Eq)]
pub enum Reason {
    /// It spells no message.
    Unspelled(MessageFault),
    /// The tape does not take its message.
    Refused(Refusal),
}

/// Every reason, by rising number.
pub const ALL_REASONS: [Reason; 24] = [
    Reason::Unspelled(MessageFault::Oversize),
    Reason::Unspelled(MessageFault::Short),
    Reason::Unspelled(MessageFault::BadKind),
    Reason::Unspelled(MessageFault::BadLength),
    Reason::Unspelled(MessageFault::BadParticipant),
    Reason::Unspelled(MessageFault::BadNumber),
    Reason::Unspelled(MessageFault::BadSymbol),
    Reason::Unspelled(MessageFault::BadTarget),
    Reason::Unspelled(MessageFault::BadPrice),
    Reason::Unspelled(MessageFault::BadSize),
    Reason::Unspelled(MessageFault::BadCondition),
    Reason::Refused(Refusal::Closed),
    Reason::Refused(Refusal::Full),
    Reason::Refused(Refusal::WrongLine),
    Reason::Refused(Refusal::UnknownParticipant),
    Reason::Refused(Refusal::Stale),
    Reason::Refused(Refusal::UnknownSymbol),
    Reason::Refused(Refusal::NoSuchReport),
    Reason::Refused(Refusal::OtherSymbol),
    Reason::Refused(Refusal::Cancelled),
    Reason::Refused(Refusal::OutOfMemory),
    Reason::Refused(Refusal::WrongNumber),
    Reason::Refused(Refusal::Standing),
    Reason::Refused(Refusal::NotInMatrix),
];

/// The number of the first reason.
const FIRST_REASON: u8 = 11;

/// How many numbers there are from the first reason to the last, with those that no reason has.
const REASONS: usize = 34;

impl Reason {
    /// The number of the message's fault, or of the tape's refusal: 11 to 44.
    pub fn code(self) -> u8
        ensures number { result ≡ reason_code self }
    {
        match self {
            Reason::Unspelled(fault) => fault.code(),
            Reason::Refused(refusal) => refusal.code(),
        }
    }

    /// The name of the reason, as it is printed.
    pub fn name(self) -> &'static str
        ensures text { result.now ≡ reason_name self }
    {
        match self {
            Reason::Unspelled(fault) => fault.name(),
            Reason::Refused(refusal) => refusal.name(),
        }
    }

    /// The reason's place in the row of a tally, from 0.
    #[tactic(auto, using(crate::proofs::Tallies::code_range))]
    fn place(self) -> usize
        ensures within { result < REASONS }
        ensures place { result + FIRST_REASON ≡ reason_code self }
    {
        usize::from(self.code() - FIRST_REASON)
    }
}

/// A refused frame.
#[derive(Clone, Copy, Debug, PartialEq, Eq)]
pub struct RefusedFrame {
    /// Why it was refused.
    pub reason: Reason,
    /// The number of its message, or 0 if it spells none.
    pub number: u32,
}

/// The frames that were refused for one reason.
#[derive(Clone, Copy, Debug, PartialEq, Eq)]
pub struct RefusedFrames {
    /// How many they are, 1 or more.
    pub count: u32,
    /// The message number of the first of them, or 0 if it spells no message.
    pub first: u32,
}

/// The refused frames of a line: how many they are, and for each reason how many, and the first.
#[derive(Clone, Copy, Debug, PartialEq, Eq)]
pub struct Tally {
    reasons: [Option<RefusedFrames>; REASONS],
    refused: u32,
}

/// Adds one more frame to those that were refused for a reason.
fn one_more(refused: Option<RefusedFrames>, number: u32) -> RefusedFrames
    ensures { IfSome refused (λ refused. refused.count + 1 < 2 ^ 32) → result ≡ one_more refused number }
{
    match refused {
        Some(refused) => RefusedFrames {
            count: refused.count.saturating_add(1),
            first: refused.first,
        },
        None => RefusedFrames {
            count: 1,
            first: number,
        },
    }
}

impl Tally {
    ghost use Rattle.participant_lines.specs.declared.tally.RefusedFrame.{RefusedFrame as TheFrame};

    /// Returns the tally of no refused frame.
    pub fn none() -> Tally
        ensures counts { AreCounted [] result }
    {
        Tally {
            reasons: [None; REASONS],
            refused: 0,
        }
    }

    /// How many frames were refused.
    pub fn refused(&self) -> u32
        ensures refused { result ≡ self.now.refused }
    {
        self.refused
    }

    /// The frames that were refused for this reason, or `None` if none was.
    pub fn of(&self, reason: Reason) -> Option<RefusedFrames>
        ensures refused { result ≡ refused_for self.now reason }
    {
        self.reasons[reason.place()]
    }

    /// Counts one more refused frame.
    pub(crate) fn add(&mut self, mark: RefusedFrame)
        ensures counts { (marks : List TheFrame) → length marks + 1 < 2 ^ 32 → AreCounted marks self.old
            → AreCounted (marks ++ mark ∷ []) self.new }
    {
        let place = mark.reason.place();
        let more = one_more(self.reasons[place], mark.number);
        self.reasons[place] = Some(more);
        self.refused = self.refused.saturating_add(1);
    }

    /// Counts one more refused frame, if there is one.
    #[inline(always)]
    pub(crate) fn count(&mut self, mark: Option<RefusedFrame>)
        ensures counts { (marks : List TheFrame) → length marks + 1 < 2 ^ 32 → AreCounted marks self.old
            → AreCounted (marks ++ cons_option mark []) self.new }
    {
        if let Some(mark) = mark {
            self.add(mark);
        }
    }
}

/// Each reason is in `ALL_REASONS`.
pub fn each_reason()
    ensures holds { (why : Why) → Contains all_reasons why }
{}
