//! States the laws of recorded tapes: each function's contract is the law.
ghost use Rattle.recorded_tapes.specs.Laws.{TapeRoundTrip, TapesAreRecorded};

use csv_messages::row_round_trip;

/// The readable tape of every list of messages reads back as those messages, so it is a table of them.
pub fn tape_round_trip()
    ensures holds { TapeRoundTrip }
{
    row_round_trip();
}

/// Every readable tape, of whatever messages, is found to be as recorded.
pub fn tapes_are_recorded()
    ensures holds { TapesAreRecorded }
{
    tape_round_trip();
}
