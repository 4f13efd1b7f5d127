//! Opens the file of a journal, and holds it so that no other `live` does.

use std::fs::{File, Files, OpenOptions, TryLockError};
use std::io::{Error, ErrorKind};
use std::path::Path;
use std::{fmt, fs, io};

/// Why the file of a journal is not held. It prints as the reason, without a line feed.
#[derive(Clone, Copy, Debug, PartialEq, Eq)]
pub enum Unheld {
    /// Another program holds it.
    Taken,
    /// It is a folder, a pipe or a device.
    NoFile,
    /// It can't be opened or made.
    Unopened(ErrorKind),
}

impl fmt::Display for Unheld {
    fn fmt<W: fmt::Write>(&self, f: &mut fmt::Formatter<W>) -> fmt::Result {
        match self {
            Unheld::Taken => f.write_str("held by another program"),
            Unheld::NoFile => f.write_str("no journal"),
            // The file itself is made if it isn't there.
            Unheld::Unopened(ErrorKind::NotFound) => f.write_str("no such folder"),
            Unheld::Unopened(kind) => write!(f, "{kind}"),
        }
    }
}

impl From<Error> for Unheld {
    fn from(error: Error) -> Unheld {
        match error.kind() {
            ErrorKind::IsADirectory => Unheld::NoFile,
            kind => Unheld::Unopened(kind),
        }
    }
}

/// Locks a file. The lock is released when the file is closed.
fn hold(file: &File) -> Result<(), Unheld> {
    match file.try_lock() {
        Ok(()) => Ok(()),
        Err(TryLockError::WouldBlock) => Err(Unheld::Taken),
        Err(TryLockError::Error(error)) => Err(Unheld::from(error)),
    }
}

/// Opens the file of a path to be read and written, and holds it. It is made if it isn't there.
pub fn hold_journal<R: Files<File = File>>(files: &R, path: &str) -> Result<File, Unheld> {
    let file = OpenOptions::new()
        .read(true)
        .write(true)
        .create(true)
        .open(files, path)?;
    if !file.metadata()?.is_file() {
        return Err(Unheld::NoFile);
    }
    hold(&file)?;
    Ok(file)
}

/// Has the disk keep the entry of a path in its folder. It fails if the folder can't be opened or synced.
pub fn sync_folder<R: Files<File = File>>(files: &R, path: &str) -> io::Result<()> {
    let folder = match Path::new(path).parent() {
        Some(folder) if !folder.as_str().is_empty() => folder,
        _ => Path::new("."),
    };
    fs::open(files, folder)?.sync_all()
}
