//! Copies the arguments of a program into bytes, each ended by a zero byte.
ghost use Rattle.std.specs.Prelude.{◌≡◌, ◌≢◌, [], IfOk, IfErr, IsOk, IsErr, drop};
ghost use Rattle.std.specs.IoError.{error_kind};
ghost use Rattle.std.specs.List.{flat_map};
ghost use Rattle.std.specs.Vec.Iter.{into_iter_items};
ghost use Rattle.day_terms.specs.Arguments.{ended_word};

use std::alloc::{AllocError, Global};
use std::env::Args;
use std::io;
use std::io::ErrorKind;

/// Returns the arguments after the first, which is the program's own name, each ended by a zero byte.
fn ended_words(alloc: Global, mut words: Args) -> Result<Vec<u8>, AllocError>
    ensures { IfOk result (λ text. text.items ≡ flat_map ended_word (drop 1 (into_iter_items words))) }
{
    words.next();
    let mut text = Vec::new(alloc);
    for word in words {
        text.extend_from_slice(word.as_bytes())?;
        text.push(0)?;
    }
    Ok(text)
}

/// Returns the arguments that the program was given, without its own name, each ended by a zero byte. If one is not valid text
/// there are none. It fails if memory runs out.
pub fn words(alloc: Global, args: io::Result<Args>) -> Result<Vec<u8>, AllocError>
    ensures words { IfOk args (λ args. IfOk result (λ text. text.items ≡ flat_map ended_word (drop 1 (into_iter_items args)))) }
    ensures memory { IfErr args (λ error. error_kind error ≡ ErrorKind.OutOfMemory → IsErr result) }
    ensures none { IfErr args (λ error. error_kind error ≢ ErrorKind.OutOfMemory → IsOk result × IfOk result (λ text. text.items ≡ [])) }
{
    match args {
        Ok(words) => ended_words(alloc, words),
        Err(error) if error.kind() == ErrorKind::OutOfMemory => Err(AllocError),
        Err(_) => Ok(Vec::new(alloc)),
    }
}
