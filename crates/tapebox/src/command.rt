//! Reads what the program's arguments ask for.
ghost use Rattle.std.specs.Prelude.{◌≡◌, ◌⊎◌, IfOk, IfSome, None, Ok, Err, true};
ghost use Rattle.day_terms.specs.declared.words_fault.WordsFault.TheVariants.{OutOfMemory};
ghost use Rattle.tapebox.specs.Program.{AsksFor, asked_in, asks_follow, asks_live, batch_matrix, named_matrix};
ghost use Rattle.tapebox.specs.declared.command.ProgramCommand.TheVariants.{Asked as Asks, Batch};

use command_line::{Asked, read_arguments};
use day_terms::{FollowDay, LiveDay, WordsFault, matrix_named};
use sale_matrix::Matrix;
use std::alloc::Global;

/// The first argument of a batch.
const BATCH: &[u8] = b"batch\0";

/// The first argument for a tape that is made from lines.
const LIVE: &[u8] = b"live\0";

/// The first argument for a tape that is followed.
const FOLLOW: &[u8] = b"follow\0";

/// What the program is asked for.
#[derive(Drop)]
pub enum ProgramCommand {
    /// A batch by a matrix.
    Batch(Matrix),
    /// A tape that is made from lines and sent.
    Live(LiveDay),
    /// A tape that is followed.
    Follow(FollowDay),
    /// What arguments ask for that don't stand in a row.
    Asked(Asked),
}

/// Returns the matrix that the arguments behind the word of a batch name, each ended by a zero byte: One if there are none.
fn named_matrix(words: &[u8]) -> Option<Matrix>
    ensures { result ≡ named_matrix words.now }
{
    if words.is_empty() {
        Some(Matrix::One)
    } else if words[words.len() - 1] == 0 {
        matrix_named(&words[..words.len() - 1])
    } else {
        None
    }
}

/// Returns the matrix that the arguments of a batch ask for, or `None` for other arguments.
fn batch_matrix(words: &[u8]) -> Option<Matrix>
    ensures { result ≡ batch_matrix words.now }
{
    if words.starts_with(BATCH) {
        named_matrix(&words[BATCH.len()..])
    } else {
        None
    }
}

/// Returns what arguments ask for, each ended by a zero byte. Errors: `BadArguments`, and `OutOfMemory` for the names of `live`
/// or `follow` in a row.
pub fn read_command(alloc: Global, words: &[u8]) -> Result<ProgramCommand, WordsFault>
    ensures other { batch_matrix words.now ≡ None → IfSome (asked_in words.now) (λ asked. result ≡ Ok (Asks asked)) }
    ensures batch { IfSome (batch_matrix words.now) (λ matrix. result ≡ Ok (Batch matrix)) }
    ensures asked { IfOk result (λ command. AsksFor command words.now) }
    ensures memory { result ≡ Err OutOfMemory → (asks_live words.now ≡ true) ⊎ (asks_follow words.now ≡ true) }
{
    if let Some(matrix) = batch_matrix(words) {
        Ok(ProgramCommand::Batch(matrix))
    } else if let Some(asked) = read_arguments(words) {
        Ok(ProgramCommand::Asked(asked))
    } else if words.starts_with(LIVE) {
        Ok(ProgramCommand::Live(LiveDay::read(alloc, &words[LIVE.len()..])?))
    } else if words.starts_with(FOLLOW) {
        Ok(ProgramCommand::Follow(FollowDay::read(alloc, &words[FOLLOW.len()..])?))
    } else {
        Err(WordsFault::BadArguments)
    }
}
