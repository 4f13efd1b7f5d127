//! Finds where what a line was told first differs from a tape, and states laws over seats, ends and confirmed tokens.
ghost use Rattle.std.specs.Prelude.{◌≡◌, ◌≤◌, ◌↔◌, ℕ, IsTrue, MatchOption, slice_get, Some, List, length};
ghost use Rattle.tape_core.specs.declared.entry.Entry.{Entry};
ghost use Rattle.tape_core.specs.Tape.{TapeState};
ghost use Rattle.tape_frames.specs.declared.packet.Packet.TheVariants.{Data, Beat};
ghost use Rattle.tape_frames.specs.declared.version.Version.{Version};
ghost use Rattle.tape_frames.specs.PacketEntries.{CountState};
ghost use Rattle.tape_frames.specs.Sources.{BeginsWith, cut_of};
ghost use Rattle.line_ledger.specs.declared.told.Told.{Told};
ghost use Rattle.line_ledger.specs.Cells.{TokenState, FirstTokens, HaveAll, shown};
ghost use Rattle.tape_frames.specs.Cuts.{IsCutOf};
ghost use Rattle.line_ledger.specs.Ends.{told_entry, told_of, whos, DiffersFirst, DisagreesAt, FirstTold, IsOneEach};
ghost use Rattle.line_ledger.specs.Seats.{SeatState};

use crate::Told;
use crate::cursor::Cursor;
use tape_core::Entry;
use tape_types::Participant;

/// Returns the first position, from 0, where what was told differs from the participant's entries, or `None` exactly if they
/// are the same. One list being longer is a difference too.
pub fn first_difference(told: &[Told], entries: &[Entry], who: Participant) -> Option<usize>
    ensures first { MatchOption result (told.now ≡ told_of who entries.now) (DiffersFirst told.now (told_of who entries.now)) }
{
    let mut cursor = Cursor::new(told);
    for entry in entries {
        if entry.message.header().participant == who {
            cursor = cursor.pass(entry);
        }
    }
    cursor.difference()
}

/// If there is exactly one seat of each participant, that stays so, whatever the seats are told.
pub fn seats()
    ensures each { (participants : List ℕ) (old new : List SeatState) → IsOneEach participants old → whos new ≡ whos old → IsOneEach participants new }
{}

/// A disagreement is unique: lists that first differ somewhere are not the same and first differ nowhere else, and an end that
/// could return 92 could not return a day, nor name another participant or position.
pub fn disagreement()
    ensures differ { (told entries : List Told) (at : ℕ) → DiffersFirst told entries at → ¬ (told ≡ entries) }
    ensures first { (told entries : List Told) (at other : ℕ) → DiffersFirst told entries at → DiffersFirst told entries other → at ≡ other }
    ensures either { (participants : List ℕ) (entries : List Entry) (seats : List SeatState) (who at : ℕ)
        → DisagreesAt participants entries seats who at → ¬ (FirstTold (length participants) participants entries seats) }
    ensures only { (participants : List ℕ) (entries : List Entry) (seats : List SeatState) (who at other place : ℕ)
        → DisagreesAt participants entries seats who at → DisagreesAt participants entries seats other place → (who ≡ other) × (at ≡ place) }
{}

/// If each token is confirmed, tokens of the first cells show the first entries of the tape. So each packet that is cut from
/// what they show is cut from the tape, whenever that was. The tape may be the closed one of a day that has ended.
pub fn confirmed()
    ensures prefix { (names : List ℕ) (tokens : List TokenState) (entries : List Entry)
        → FirstTokens names tokens → HaveAll entries tokens → BeginsWith (shown tokens) entries }
    ensures data { (names : List ℕ) (tokens : List TokenState) (t : TapeState) (session from : ℕ) (version : Version)
        → FirstTokens names tokens → HaveAll t.entries tokens
        → IsCutOf session t (Data session (record { version = version; entries = cut_of version (shown tokens) from })) }
    ensures beat { (names : List ℕ) (tokens : List TokenState) (t : TapeState) (session : ℕ) (last : CountState)
        → FirstTokens names tokens → HaveAll t.entries tokens → last.count ≤ length tokens → IsCutOf session t (Beat session last) }
{}
