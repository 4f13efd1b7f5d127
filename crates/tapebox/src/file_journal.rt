//! Keeps a journal in a file, with the cause of its last error.
ghost use Rattle.std.specs.Prelude.{◌≡◌};

use crate::write_cause::WriteCause;
use journal_start::JournalDisk;
use live_feed::{JournalFile, KeepFault};
use std::alloc::Global;
use std::fs::File;
use std::io;
use std::io::{Error, Read, Seek, SeekFrom, Write};

/// A journal in a file, with the cause of its last error.
#[derive(Drop)]
pub struct FileJournal {
    file: File,
    is_synced: bool,
    cause: Option<WriteCause>,
}

impl FileJournal {
    /// Returns the journal of a file that is open to be read and written, at its front. `is_synced` is whether it is synced.
    pub fn new(file: File, is_synced: bool) -> FileJournal
        ensures { result.is_synced ≡ is_synced }
    {
        FileJournal {
            file,
            is_synced,
            cause: None,
        }
    }

    /// Returns the cause of its last error, or `Other` if it had none.
    pub fn cause(&self) -> WriteCause {
        self.cause.unwrap_or(WriteCause::Other)
    }

    /// Returns the same outcome, and keeps the cause if it is an error.
    fn noted<T>(&mut self, outcome: io::Result<T>) -> io::Result<T>
        ensures { result ≡ outcome }
    {
        if let Err(error) = &outcome {
            self.cause = Some(WriteCause::of(error.kind()));
        }
        outcome
    }

    /// Has the disk keep what was written, if the day wants that.
    fn sync(&mut self) -> io::Result<()> {
        if !self.is_synced {
            return Ok(());
        }
        let synced = self.file.sync_data();
        self.noted(synced)
    }
}

impl Write for FileJournal {
    fn write(&mut self, buf: &[u8]) -> io::Result<usize> {
        let written = self.file.write(buf);
        self.noted(written)
    }

    fn flush(&mut self) -> io::Result<()> {
        Ok(())
    }
}

impl JournalFile for FileJournal {
    fn keep(&mut self) -> Result<(), KeepFault> {
        self.sync().map_err(|_| KeepFault)
    }
}

impl JournalDisk for FileJournal {
    fn read_whole(&mut self, alloc: Global) -> io::Result<Vec<u8>> {
        let mut bytes = Vec::new(alloc);
        self.file.read_to_end(&mut bytes)?;
        Ok(bytes)
    }

    fn cut(&mut self, len: usize) -> io::Result<()> {
        let cut = self
            .file
            .set_len(len as u64)
            .and_then(|()| self.file.seek(SeekFrom::Start(len as u64)));
        self.noted(cut)?;
        Ok(())
    }

    fn settle(&mut self) -> io::Result<()> {
        self.sync()
    }
}
