//! Opens and reads the files that arguments name, and says why one can't be read.
ghost use Rattle.std.specs.Prelude.{◌≡◌, ◌≤◌, IfErr, IfOk, IfSome, length, string_bytes};
ghost use Rattle.std.specs.IoError.{error_kind};
ghost use Rattle.std.specs.declared.io.ErrorKind.TheVariants.{OutOfMemory};
ghost use Rattle.command_line.specs.declared.status.Status.TheVariants.{ReadFault};
ghost use Rattle.whole_io.specs.Lines.{WritesLines};
ghost use Rattle.tapebox.specs.Files.{FILE_MOST, KnowsLength, beside_path};

use crate::sayings::say_of;
use command_line::Status;
use desk_words::begins_journal;
use std::alloc::Global;
use std::fs::{File, Files, Metadata, OpenFile};
use std::io::{ErrorKind, Read, Write};
use std::path::Path;
use std::{fmt, io};

/// The most bytes that a file of a day or of its symbols may have.
const FILE_MOST: u64 = 16_777_216;

/// A file that is open to be read.
#[derive(Drop)]
pub struct Opened<F> {
    /// The file.
    pub file: F,
    /// Its length in bytes, or `None` if it is a pipe or a device.
    pub length: Option<u64>,
}

/// Why a file can't be read, by the kind of the error. It prints as the cause in words.
#[derive(Clone, Copy, Debug)]
struct ReadCause(ErrorKind);

impl fmt::Display for ReadCause {
    fn fmt<W: fmt::Write>(&self, f: &mut fmt::Formatter<W>) -> fmt::Result {
        match self.0 {
            ErrorKind::NotFound => f.write_str("no such file"),
            kind => write!(f, "{kind}"),
        }
    }
}

/// Returns the length of a file in bytes, or `None` if it is a pipe or a device. A folder is an error, `IsADirectory`.
fn length_of(metadata: &Metadata) -> io::Result<Option<u64>>
    ensures { KnowsLength metadata.now result }
{
    if metadata.is_dir() {
        Err(io::Error::from(ErrorKind::IsADirectory))
    } else if metadata.is_file() {
        Ok(Some(metadata.len()))
    } else {
        Ok(None)
    }
}

/// Opens a file. A folder is an error, `IsADirectory`.
pub fn open_file<R: Files>(files: &R, name: &str) -> io::Result<Opened<R::File>> {
    let file = File::open(files, name)?;
    let length = length_of(&file.metadata()?)?;
    Ok(Opened { file, length })
}

/// Returns whether a file begins as a journal does. One that can't be read does not, and neither does a pipe or a device, which
/// is not read.
pub fn names_journal<R: Files>(files: &R, name: &str) -> bool {
    let Ok(mut opened) = open_file(files, name) else {
        return false;
    };
    opened.length.is_some() && begins_journal(&mut opened.file) == Some(true)
}

/// Returns all bytes of a reader, or `FileTooLarge` if they are more than `FILE_MOST`.
fn read_small<R: Read + Drop>(alloc: Global, reader: R) -> io::Result<Vec<u8>>
    ensures most { IfOk result (λ text. length text.items ≤ FILE_MOST) }
    ensures whole { IfOk result (λ text. IfSome (R.remaining reader) (λ bytes. text.items ≡ bytes)) }
{
    let mut text = Vec::new(alloc);
    let mut reader = reader.take(FILE_MOST + 1);
    let read = reader.read_to_end(&mut text)?;
    if read as u64 > FILE_MOST {
        return Err(io::Error::from(ErrorKind::FileTooLarge));
    }
    Ok(text)
}

/// Reads a file whole. One that is longer than `FILE_MOST` is an error, `FileTooLarge`.
pub fn read_file<R: Files>(files: &R, alloc: Global, name: &str) -> io::Result<Vec<u8>>
    ensures most { IfOk result (λ text. length text.items ≤ FILE_MOST) }
{
    read_small(alloc, open_file(files, name)?.file)
}

/// Returns the path of a file whose name starts at the folder of another file, unless it is an absolute path.
pub fn beside(alloc: Global, name: &str, file: &str) -> io::Result<String>
    ensures path { IfOk result (λ path. string_bytes path ≡ beside_path name.now file.now) }
    ensures memory { IfErr result (λ error. error_kind error ≡ OutOfMemory) }
{
    let folder = match Path::new(file).parent() {
        Some(folder) => folder,
        None => Path::new(""),
    };
    let joined = folder.join(alloc, name)?;
    Ok(joined.into_string())
}

/// Says why a file can't be read, unless there is no memory for the line, and returns the status.
pub fn say_unread<E: Write>(alloc: Global, errors: &mut E, name: &str, kind: ErrorKind) -> Status
    ensures status { result ≡ ReadFault }
    ensures lines { WritesLines (E.contents errors.old) (E.contents errors.new) }
{
    say_of(alloc, errors, name, &ReadCause(kind));
    Status::ReadFault
}
