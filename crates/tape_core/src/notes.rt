//! Makes a message's change in the register alone, for an `EndTape`, which has no books.
ghost use Rattle.std.specs.Prelude.{◌≡◌, OnOk, OnErr};
ghost use Rattle.corrections.specs.RegisterState.{targets_of};
ghost use Rattle.tape_core.specs.Changes.{targets_after};
ghost use Rattle.tape_core.specs.Ending.{CanNote};

use crate::change::Change;
use crate::end_route::EndRoute;
use corrections::Register;
use reports::Header;
use std::alloc::AllocError;

/// Makes a route's change in the register. If memory runs out, the register is unchanged; only a report allocates.
pub fn note_change(
    register: &mut Register,
    route: &EndRoute,
    header: &Header,
) -> Result<(), AllocError>
    requires { CanNote (targets_of register.old) header.now route.now.change }
    ensures targets { OnOk result (targets_of register.new ≡ targets_after (targets_of register.old) route.now.number header.now route.now.change) }
    ensures last_numbers { register.new.last_numbers ≡ register.old.last_numbers }
    ensures err { OnErr result (register.new ≡ register.old) }
{
    match &route.change {
        Change::Enter(content) => {
            register.record(
                header.participant,
                header.number,
                header.symbol,
                route.number,
                content,
            )?;
        }
        Change::Cancel(named) => {
            register.cancel_at(header.participant, named.target, named.index);
        }
        Change::Correct(named, content) => {
            register.correct_at(header.participant, named.target, named.index, content);
        }
        Change::Reinstate(named, _) => {
            register.reinstate_at(header.participant, named.target, named.index);
        }
    }
    Ok(())
}
