//! Looks at what is at a path where a socket is to be made, and at the folder of that path.
ghost use Rattle.std.specs.Prelude.{◌≡◌, ◌≢◌, ◌↔◌, IsTrue};
ghost use Rattle.std.specs.IoError.{error_kind};
ghost use Rattle.day_control.specs.Places.{IsPrivate, cleared, folder_of};
ghost use Rattle.day_control.specs.declared.standing.Occupant.TheVariants.{Answered, Deserted, Nothing};

use crate::ControlFault;
use std::fs;
use std::fs::{DirBuilder, Files};
use std::io::{Error, ErrorKind};
use std::net::Net;
use std::os::unix::fs::{DirBuilderExt, FileTypeExt, MetadataExt};
use std::os::unix::net::UnixStream;
use std::path::Path;

/// The mode of a folder that is made: its owner alone reads, writes and enters it.
const OWNER_ALONE: u32 = 0o700;

/// What a folder's mode may grant its group and others.
const OTHERS: u32 = 0o077;

/// What is at a path.
#[derive(Clone, Copy, Debug, PartialEq, Eq)]
pub(crate) enum Occupant {
    /// Nothing.
    Nothing,
    /// A file that is no socket.
    OtherFile,
    /// A socket that nobody answers at: the process that made it is gone.
    Deserted,
    /// A socket that somebody answers at, or that can't be told from one.
    Answered,
}

/// Whether a folder of this mode grants its group and others nothing.
fn is_private(mode: u32) -> bool
    ensures { IsTrue result ↔ IsPrivate mode }
{
    mode & OTHERS == 0
}

/// Returns whether what is at a path is to be removed before a socket is made there: only a socket that nobody answers at.
fn clears(occupant: Occupant) -> Result<bool, ControlFault>
    ensures { result ≡ cleared occupant }
{
    match occupant {
        Occupant::Nothing => Ok(false),
        Occupant::OtherFile => Err(ControlFault::NotASocket),
        Occupant::Deserted => Ok(true),
        Occupant::Answered => Err(ControlFault::InUse),
    }
}

/// What a socket is if no connection could be made to it: only one that refuses the connection, or has meanwhile gone, is
/// nobody's.
fn occupant_unconnected(error: &Error) -> Occupant
    ensures deserted { error_kind error.now ≡ ErrorKind.ConnectionRefused → result ≡ Deserted }
    ensures gone { error_kind error.now ≡ ErrorKind.NotFound → result ≡ Nothing }
    ensures answered { error_kind error.now ≢ ErrorKind.ConnectionRefused → error_kind error.now ≢ ErrorKind.NotFound → result ≡ Answered }
{
    match error.kind() {
        ErrorKind::ConnectionRefused => Occupant::Deserted,
        ErrorKind::NotFound => Occupant::Nothing,
        _ => Occupant::Answered,
    }
}

/// Looks at what is at a path.
fn look<R: Files + Net>(rt: &R, path: &str) -> Result<Occupant, ControlFault> {
    match fs::symlink_metadata(rt, path) {
        Ok(found) if !found.file_type().is_socket() => return Ok(Occupant::OtherFile),
        Ok(_) => {}
        Err(error) if error.kind() == ErrorKind::NotFound => return Ok(Occupant::Nothing),
        Err(_) => return Err(ControlFault::Unopened),
    }
    match UnixStream::connect(rt, path) {
        Ok(_) => Ok(Occupant::Answered),
        Err(error) => Ok(occupant_unconnected(&error)),
    }
}

/// Removes a socket at a path if nobody answers at it.
pub(crate) fn clear<R: Files + Net>(rt: &R, path: &str) -> Result<(), ControlFault> {
    if clears(look(rt, path)?)? && fs::remove_file(rt, path).is_err() {
        return Err(ControlFault::Unopened);
    }
    Ok(())
}

/// The folder of the file at a path.
fn folder_of(path: &str) -> &str
    ensures { result.now ≡ folder_of path.now }
{
    match Path::new(path).parent() {
        Some(folder) if !folder.as_str().is_empty() => folder.as_str(),
        _ => ".",
    }
}

/// Makes the folder of a path if it isn't there, and checks that only its owner can enter it.
pub(crate) fn enter_folder<R: Files>(rt: &R, path: &str) -> Result<(), ControlFault> {
    let folder = folder_of(path);
    // If it can't be made, it may already be there.
    let _ = DirBuilder::new().mode(OWNER_ALONE).create(rt, folder);
    match fs::metadata(rt, folder) {
        Ok(found) if !found.is_dir() => Err(ControlFault::NoFolder),
        Ok(found) if !is_private(found.mode()) => Err(ControlFault::OpenFolder),
        Ok(_) => Ok(()),
        Err(_) => Err(ControlFault::NoFolder),
    }
}
