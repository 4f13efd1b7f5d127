//! Computes the summary of a list of reports by adding one after another to an empty summary.
ghost use Rattle.std.specs.Prelude.{◌≡◌};
ghost use Rattle.scratch_fold.specs.Fold.{summary_of, PlacesRise};

use crate::{Effect, Summary};
use tape_types::{SIZE_MOST, TAPE_MOST, TapeNumber};

/// The summary of a list of reports whose places rise, one step after another.
pub fn fold(reports: &[(TapeNumber, Effect)]) -> Summary
    requires rising { PlacesRise reports.now }
    ensures fold { result ≡ summary_of reports.now }
{
    let mut summary = Summary::empty();
    for (place, effect) in reports {
        prove!(place.value() <= TAPE_MOST);
        prove!(effect.size.value() <= SIZE_MOST);
        summary.add(*place, effect);
    }
    summary
}
