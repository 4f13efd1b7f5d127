//! The laws of a day split by symbols, over the definitions of a tape. Each function does nothing; its contract is the law.
ghost use Rattle.std.specs.Prelude.{◌≡◌, ◌≤◌, ◌∷◌, [], ℕ, List, length, None, Some, IsTrue};
ghost use Rattle.tape_types.specs.Names.{Names};
ghost use Rattle.tape_types.specs.Ranges.{TAPE_MOST};
ghost use Rattle.sale_matrix.specs.declared.matrix.Matrix.{Matrix};
ghost use Rattle.sale_matrix.specs.declared.matrix.Matrix.TheVariants.{One};
ghost use Rattle.reports.specs.declared.message.Message.{Message};
ghost use Rattle.scratch_fold.specs.Fold.{empty_summary};
ghost use Rattle.tape_core.specs.declared.refusal.Refusal.TheVariants.{Full, Stale, UnknownParticipant};
ghost use Rattle.tape_core.specs.Standing.{symbol_summary};
ghost use Rattle.tape_core.specs.Tape.{empty_tape, messages_of, refusal, with_message};
ghost use Rattle.csv_days.specs.Days.{first_tape, tape_of};
ghost use Rattle.split_days.specs.Split.{AdmitsAll, HasRoom, HasSameParticipantSummary, HasSameSummary, is_among, part_of, tape_after_all};
ghost use Rattle.split_days.specs.Worked.{ab, ab_listed, ab_start, both_start, cd, figures_at, in_number, out_of_number, report};

/// If a tape admits every message of a list, a tape of some of the symbols admits every message for them, whatever else it
/// lists and however much more room it has. Each of these symbols then has the same figures on both: open, high, low and last
/// are present together, each at the place of the same message; prices, participants, volume and trades are equal. The first
/// tape may have any limit and any number of names, even more than a constructed tape can have.
pub fn splitting()
    ensures admitted { (listing own : Names) (limit most : ℕ) (matrix : Matrix) (symbols : List (List ℕ)) (ms : List Message)
        → AdmitsAll (empty_tape listing limit matrix) ms → HasRoom own most (part_of symbols ms)
        → AdmitsAll (empty_tape own most matrix) (part_of symbols ms) }
    ensures summary { (listing own : Names) (limit most : ℕ) (matrix : Matrix) (symbols : List (List ℕ)) (ms : List Message) (symbol : List ℕ)
        → AdmitsAll (empty_tape listing limit matrix) ms → HasRoom own most (part_of symbols ms) → IsTrue (is_among symbols symbol)
        → HasSameSummary (tape_after_all (empty_tape listing limit matrix) ms) (tape_after_all (empty_tape own most matrix) (part_of symbols ms)) symbol }
    ensures participant_summary { (listing own : Names) (limit most : ℕ) (matrix : Matrix) (symbols : List (List ℕ)) (ms : List Message)
        (symbol : List ℕ) (who : ℕ)
        → AdmitsAll (empty_tape listing limit matrix) ms → HasRoom own most (part_of symbols ms) → IsTrue (is_among symbols symbol)
        → HasSameParticipantSummary (tape_after_all (empty_tape listing limit matrix) ms)
        (tape_after_all (empty_tape own most matrix) (part_of symbols ms)) symbol who }
{}

/// The same for the tape from which the report of a part's table is made: it lists the part's own names and has room for
/// `TAPE_MOST` messages.
pub fn reporting()
    ensures admitted { (listing : Names) (limit : ℕ) (matrix : Matrix) (symbols : List (List ℕ)) (ms : List Message)
        → AdmitsAll (empty_tape listing limit matrix) ms → length (part_of symbols ms) ≤ TAPE_MOST
        → AdmitsAll (first_tape matrix (part_of symbols ms)) (part_of symbols ms) }
    ensures summary { (listing : Names) (limit : ℕ) (matrix : Matrix) (symbols : List (List ℕ)) (ms : List Message) (symbol : List ℕ)
        → AdmitsAll (empty_tape listing limit matrix) ms → length (part_of symbols ms) ≤ TAPE_MOST → IsTrue (is_among symbols symbol)
        → HasSameSummary (tape_after_all (empty_tape listing limit matrix) ms) (tape_of matrix (part_of symbols ms)) symbol }
    ensures participant_summary { (listing : Names) (limit : ℕ) (matrix : Matrix) (symbols : List (List ℕ)) (ms : List Message)
        (symbol : List ℕ) (who : ℕ)
        → AdmitsAll (empty_tape listing limit matrix) ms → length (part_of symbols ms) ≤ TAPE_MOST → IsTrue (is_among symbols symbol)
        → HasSameParticipantSummary (tape_after_all (empty_tape listing limit matrix) ms) (tape_of matrix (part_of symbols ms)) symbol who }
{}

/// Why the whole must admit every message: a message can be stale on the whole alone. N sends 2 for CD and then 1 for AB; the
/// whole admits the first and refuses the second, which a tape of AB admits. So only that tape has a trade in AB.
pub fn premise()
    ensures first { refusal both_start (report 2 cd) ≡ None }
    ensures refused { refusal (with_message both_start (report 2 cd)) (report 1 ab) ≡ Some Stale }
    ensures admitted { AdmitsAll ab_start (part_of (ab ∷ []) out_of_number) }
    ensures whole_figures { symbol_summary One (messages_of (with_message both_start (report 2 cd)).entries) ab ≡ empty_summary }
    ensures part_figures { symbol_summary One (messages_of (tape_after_all ab_start (part_of (ab ∷ []) out_of_number)).entries) ab ≡ figures_at 1 }
{}

/// Why a part's tape needs room for its messages, and their names: without room it refuses the first, and so it does without
/// the first's participant.
pub fn needs()
    ensures room { refusal (empty_tape ab_listed 0 One) (report 1 ab) ≡ Some Full }
    ensures names { refusal (empty_tape (record { symbols = ab ∷ []; participants = [] }) 1 One) (report 1 ab) ≡ Some UnknownParticipant }
{}

/// Each tape has its own places: if N sends 1 for CD and then 2 for AB, the one report of AB is second on the whole and first
/// on a tape of AB. The day lists one more participant and needs room for two, and the part's own tape lists N alone.
pub fn places()
    ensures admitted { AdmitsAll both_start in_number }
    ensures own { first_tape One (part_of (ab ∷ []) in_number) ≡ empty_tape ab_listed TAPE_MOST One }
    ensures whole_figures { symbol_summary One (messages_of (tape_after_all both_start in_number).entries) ab ≡ figures_at 2 }
    ensures part_figures { symbol_summary One (messages_of (tape_after_all ab_start (part_of (ab ∷ []) in_number)).entries) ab ≡ figures_at 1 }
{}
