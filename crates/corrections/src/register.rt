//! The register of a day's reports, kept as one map per participant from message number to report, with each participant's
//! last message number.
ghost use Rattle.std.specs.Prelude.{◌≡◌, ◌<◌, ℕ, IfOk, IfSome, OnOk, OnErr, MatchOption, Some, None, if◌then◌else◌, ◌==◌};
ghost use Rattle.std.specs.FinMap as map;
ghost use Rattle.tape_types.specs.Ranges.{IsParticipant};
ghost use Rattle.tape_types.specs.RisingEntries.{StandsIn};
ghost use Rattle.corrections.specs.Targets.{IsCancelled, IsStanding, answered_place, cancelled_answer, located_found, located_report, named_answer};
ghost use Rattle.corrections.specs.Targets.{cancelled_target, corrected_target, reinstated_target, standing_target, target_answer, targets_changed};
ghost use Rattle.corrections.specs.RegisterState.{last_number_of, row_of, targets_of};

use crate::{Content, Located, Standing, Target, TargetFault};
use std::alloc::{AllocError, Global};
use std::array;
use std::marker::Model;
use tape_types::{MsgNumber, PARTICIPANTS_MOST, Participant, RisingMap, Symbol, TapeNumber};

/// Each report of the day by its participant and its message number, and each participant's last message number.
#[derive(Drop)]
pub struct Register {
    /// The reports of each participant, from `A` to `Z`.
    rows: [RisingMap<MsgNumber, Target>; PARTICIPANTS_MOST],
    /// The last message number of each participant, from `A` to `Z`, and 0 for none.
    last_numbers: [u32; PARTICIPANTS_MOST],
}

impl Model for Register {
    ghost use Rattle.std.specs.Prelude.{◌≡◌, length};
    ghost use Rattle.corrections.specs.contracts.target.Target as target;
    ghost use Rattle.corrections.specs.RegisterState.{RegisterState, register_code};
    ghost use Rattle.tape_types.specs.Ranges.{PARTICIPANTS_MOST};

    ghost Value = { RegisterState };

    ghost coded = { register_code target.the_row.coded };

    ghost view = { λ r. record { rows = r.rows; last_numbers = r.last_numbers } };

    ghost invariant = { λ r. length r.rows ≡ PARTICIPANTS_MOST };
}

impl Register {
    /// An empty register, in which no participant has a message. It does not allocate.
    pub fn new(alloc: Global) -> Self
        ensures targets { targets_of result ≡ map.empty }
        ensures last_numbers { (who : ℕ) → last_number_of result who ≡ 0 }
    {
        Register {
            rows: array::from_fn(|_| RisingMap::new(alloc)),
            last_numbers: [0; PARTICIPANTS_MOST],
        }
    }

    /// Records a report that stands, at the place of its admission and with its content. It fails only if memory runs out, and
    /// leaves the register unchanged then. It allocates only if the vector of the participant's reports is full.
    pub fn record(
        &mut self,
        who: Participant,
        number: MsgNumber,
        symbol: Symbol,
        place: TapeNumber,
        content: &Content,
    ) -> Result<(), AllocError>
        requires vacant { map.get (targets_of self.old) (who, number) ≡ None }
        ensures ok { OnOk result (targets_of self.new
            ≡ map.insert (targets_of self.old) (who, number) (standing_target symbol place content.now)) }
        ensures last_numbers { self.new.last_numbers ≡ self.old.last_numbers }
        ensures err { OnErr result (self.new ≡ self.old) }
        ensures full { OnErr result ((row_of self.old who).spare ≡ 0) }
    {
        let target = Target {
            symbol,
            place,
            standing: Standing::Standing,
            content: *content,
        };
        self.rows[who.row_index()].insert(number, target)
    }

    /// The place of the report that the target of a cancel or a correction names, if it is of the symbol and stands.
    ///
    /// Errors, the first that applies: `NoSuchReport` if no report of the participant has the number, `OtherSymbol` if the
    /// report is of another symbol, and `Cancelled` if it is cancelled.
    pub fn find(
        &self,
        who: Participant,
        target: MsgNumber,
        symbol: Symbol,
    ) -> Result<TapeNumber, TargetFault>
        ensures answer { result ≡ answered_place (target_answer symbol (map.get (targets_of self.now) (who, target))) }
    {
        let located = self.locate(who, target, symbol)?;
        Ok(located.place)
    }

    /// The place and the latest content of the report that the target of a reinstatement names, if it is of the symbol and
    /// cancelled.
    ///
    /// Errors, the first that applies: `NoSuchReport` and `OtherSymbol` as in `find`, and `Standing` if the report stands.
    pub fn find_cancelled(
        &self,
        who: Participant,
        target: MsgNumber,
        symbol: Symbol,
    ) -> Result<(TapeNumber, Content), TargetFault>
        ensures answer { result ≡ cancelled_answer symbol (map.get (targets_of self.now) (who, target)) }
    {
        let located = self.locate_cancelled(who, target, symbol)?;
        Ok((located.place, located.content))
    }

    /// The report that the target of a cancel or a correction names, and its index among the participant's reports. The errors
    /// are those of `find`.
    pub fn locate(
        &self,
        who: Participant,
        target: MsgNumber,
        symbol: Symbol,
    ) -> Result<Located, TargetFault>
        ensures answer { located_report result ≡ target_answer symbol (map.get (targets_of self.now) (who, target)) }
        ensures index { IfOk result (λ located. StandsIn target (map.entries (row_of self.now who).values) located.index) }
    {
        let (located, standing) = self.named(who, target, symbol)?;
        match standing {
            Standing::Standing => Ok(located),
            Standing::Cancelled => Err(TargetFault::Cancelled),
        }
    }

    /// The report that the target of a reinstatement names, and its index among the participant's reports. The errors are those
    /// of `find_cancelled`.
    pub fn locate_cancelled(
        &self,
        who: Participant,
        target: MsgNumber,
        symbol: Symbol,
    ) -> Result<Located, TargetFault>
        ensures answer { located_report result ≡ cancelled_answer symbol (map.get (targets_of self.now) (who, target)) }
        ensures index { IfOk result (λ located. StandsIn target (map.entries (row_of self.now who).values) located.index) }
    {
        let (located, standing) = self.named(who, target, symbol)?;
        match standing {
            Standing::Standing => Err(TargetFault::Standing),
            Standing::Cancelled => Ok(located),
        }
    }

    /// The report that a target names, if it is of the symbol, and whether it stands.
    fn named(
        &self,
        who: Participant,
        target: MsgNumber,
        symbol: Symbol,
    ) -> Result<(Located, Standing), TargetFault>
        ensures answer { located_found result ≡ named_answer symbol (map.get (targets_of self.now) (who, target)) }
        ensures index { IfOk result (λ found. StandsIn target (map.entries (row_of self.now who).values) found.0.index) }
    {
        let row = &self.rows[who.row_index()];
        let Some(index) = row.position(target) else {
            return Err(TargetFault::NoSuchReport);
        };
        let (_, held) = row.entries()[index];
        if symbol != held.symbol {
            return Err(TargetFault::OtherSymbol);
        }
        let located = Located {
            place: held.place,
            content: held.content,
            index,
        };
        Ok((located, held.standing))
    }

    /// The report that a participant sent under a message number, whether it stands or is cancelled. It does not allocate.
    pub fn report(&self, who: Participant, number: MsgNumber) -> Option<Target>
        ensures report { result ≡ map.get (targets_of self.now) (who, number) }
    {
        self.rows[who.row_index()].get(number)
    }

    /// Marks a standing report as cancelled. It does not allocate.
    pub fn cancel(&mut self, who: Participant, target: MsgNumber)
        requires standing { IsStanding (map.get (targets_of self.old) (who, target)) }
        ensures cancelled { targets_of self.new ≡ targets_changed cancelled_target (targets_of self.old) (who, target) }
        ensures last_numbers { self.new.last_numbers ≡ self.old.last_numbers }
    {
        self.cancel_at(who, target, 0);
    }

    /// Marks a standing report as cancelled, as `cancel` does. It looks at the index first, and searches only if another report
    /// is there: with the index from `locate`, only if a report with a lower number was recorded in between. It does not
    /// allocate.
    pub fn cancel_at(&mut self, who: Participant, target: MsgNumber, index: usize)
        requires standing { IsStanding (map.get (targets_of self.old) (who, target)) }
        ensures cancelled { targets_of self.new ≡ targets_changed cancelled_target (targets_of self.old) (who, target) }
        ensures last_numbers { self.new.last_numbers ≡ self.old.last_numbers }
    {
        if let Some((index, held)) = self.held_near(who, target, index) {
            let cancelled = Target {
                standing: Standing::Cancelled,
                ..held
            };
            self.set_at(who, target, index, cancelled);
        }
    }

    /// Replaces the content of a standing report. It does not allocate.
    pub fn correct(&mut self, who: Participant, target: MsgNumber, content: &Content)
        requires standing { IsStanding (map.get (targets_of self.old) (who, target)) }
        ensures corrected { targets_of self.new
            ≡ targets_changed (corrected_target content.now) (targets_of self.old) (who, target) }
        ensures last_numbers { self.new.last_numbers ≡ self.old.last_numbers }
    {
        self.correct_at(who, target, 0, content);
    }

    /// Replaces the content of a standing report, as `correct` does. It looks at the index first, as `cancel_at` does. It does
    /// not allocate.
    pub fn correct_at(
        &mut self,
        who: Participant,
        target: MsgNumber,
        index: usize,
        content: &Content,
    )
        requires standing { IsStanding (map.get (targets_of self.old) (who, target)) }
        ensures corrected { targets_of self.new
            ≡ targets_changed (corrected_target content.now) (targets_of self.old) (who, target) }
        ensures last_numbers { self.new.last_numbers ≡ self.old.last_numbers }
    {
        if let Some((index, held)) = self.held_near(who, target, index) {
            let corrected = Target {
                content: *content,
                ..held
            };
            self.set_at(who, target, index, corrected);
        }
    }

    /// Marks a cancelled report as standing again, with the content that it has. It does not allocate.
    pub fn reinstate(&mut self, who: Participant, target: MsgNumber)
        requires cancelled { IsCancelled (map.get (targets_of self.old) (who, target)) }
        ensures reinstated { targets_of self.new ≡ targets_changed reinstated_target (targets_of self.old) (who, target) }
        ensures last_numbers { self.new.last_numbers ≡ self.old.last_numbers }
    {
        self.reinstate_at(who, target, 0);
    }

    /// Marks a cancelled report as standing again, as `reinstate` does. It looks at the index first, as `cancel_at` does. It
    /// does not allocate.
    pub fn reinstate_at(&mut self, who: Participant, target: MsgNumber, index: usize)
        requires cancelled { IsCancelled (map.get (targets_of self.old) (who, target)) }
        ensures reinstated { targets_of self.new ≡ targets_changed reinstated_target (targets_of self.old) (who, target) }
        ensures last_numbers { self.new.last_numbers ≡ self.old.last_numbers }
    {
        if let Some((index, held)) = self.held_near(who, target, index) {
            let reinstated = Target {
                standing: Standing::Standing,
                ..held
            };
            self.set_at(who, target, index, reinstated);
        }
    }

    /// The report that a participant's number names, with its index among the participant's reports, if there is one. It looks
    /// at the index first, and searches only if another report is there.
    #[inline(always)]
    pub fn held_near(
        &self,
        who: Participant,
        target: MsgNumber,
        index: usize,
    ) -> Option<(usize, Target)>
        ensures held { MatchOption result (map.get (targets_of self.now) (who, target) ≡ None)
            (λ found. map.get (targets_of self.now) (who, target) ≡ Some found.1) }
        ensures index { IfSome result (λ found. StandsIn target (map.entries (row_of self.now who).values) found.0) }
    {
        let row = &self.rows[who.row_index()];
        let index = row.position_near(target, index)?;
        let (_, held) = row.entries()[index];
        Some((index, held))
    }

    /// Replaces the entry of the report at this index.
    #[inline(always)]
    fn set_at(&mut self, who: Participant, target: MsgNumber, index: usize, report: Target)
        requires index { StandsIn target (map.entries (row_of self.old who).values) index }
        ensures set { targets_of self.new ≡ map.insert (targets_of self.old) (who, target) report }
        ensures last_numbers { self.new.last_numbers ≡ self.old.last_numbers }
    {
        self.rows[who.row_index()].set_at(index, report);
    }

    /// Records a participant's newest message number. It does not allocate.
    pub fn advance(&mut self, who: Participant, number: MsgNumber)
        requires above { last_number_of self.old who < number }
        ensures rows { self.new.rows ≡ self.old.rows }
        ensures last_numbers { (other : ℕ) → IsParticipant other →
            last_number_of self.new other ≡ (if other == who then number else last_number_of self.old other) }
    {
        self.last_numbers[who.row_index()] = number.value();
    }

    /// A participant's greatest message number so far, or 0 for none.
    pub fn last_number(&self, who: Participant) -> u32
        ensures value { result ≡ last_number_of self.now who }
    {
        self.last_numbers[who.row_index()]
    }
}
