//! Participants by their letters.
ghost use Rattle.std.specs.Prelude.{◌≡◌};
ghost use Rattle.csv_messages.specs.Texts.{participant_of};

use tape_types::Participant;

/// Returns the participant of a letter, `A` to `Z`.
pub fn participant_of(name: &[u8]) -> Option<Participant>
    ensures { result ≡ participant_of name.now }
{
    match name {
        [letter] => Participant::try_new(*letter),
        _ => None,
    }
}
