//! Runs the program over the process's streams, files and sockets.
ghost use Rattle.std.specs.Prelude.{◌≡◌, None, Some, false};
ghost use Rattle.std.specs.Str.{IsUtf8};
ghost use Rattle.command_line.specs.declared.command.Asked.TheVariants.{Table};
ghost use Rattle.command_line.specs.declared.command.Command.TheVariants.{Tape};
ghost use Rattle.tapebox.specs.Files.{argument_in, has_rows};
ghost use Rattle.tapebox.specs.Program.{asked_in};

use crate::asking::ask_day;
use crate::day::{control_file, follow_file, live_file};
use crate::files::{names_journal, open_file, say_unread};
use crate::following::{run_follow_file, run_watch_file};
use crate::operated::run_live_file;
use crate::outlet::CauseWriter;
use crate::program::{arguments_of, run, write_own};
use crate::version::version_text;
use command_line::{
    Asked, Command, FileCommand, STANDARD_INPUT, Status, Word, argument_at, read_arguments,
};
use day_control::ControlCommand;
use day_terms::first_argument;
use desk_words::{ClearedWriter, PipeWriter, ProgressLine, ToldReader, ToldWriter, watch_row};
use std::alloc::{Alloc, Global};
use std::fs::{File, Files};
use std::io::{IsTerminal, Read, Stderr, Stdin, Stdout};
use std::net::{Net, TcpListener, TcpStream};
use std::rt::Clock;
use std::str;
use std::sync::Wait;
use std::thread::Threads;

/// Returns whether a text has a row of each message or of each report, so that a line of progress may count them if nobody sees
/// them scroll by.
fn has_rows(request: &FileCommand) -> bool
    ensures { result ≡ has_rows request.now.command }
{
    matches!(
        request.command,
        Command::Tape(_, _) | Command::Explain(_, _)
    )
}

/// Returns the argument after the word at a place, counted from 0. All arguments are text.
fn argument_text(words: &[u8], place: usize) -> &str
    ensures { IsUtf8 (argument_in words.now place) → result.now ≡ argument_in words.now place }
{
    str::from_utf8(argument_at(arguments_of(words), place)).unwrap_or("")
}

/// Returns the arguments that ask for the readable tape of an input, by no other matrix than its own.
#[tactic(auto, unfolding(command_line::specs::Arguments::asked_of, day_terms::specs::Arguments::words_of))]
fn tape_words() -> &'static [u8]
    ensures { asked_in result.now ≡ Some (Table (record { command = Tape None false; file = None })) }
{
    b"tape\0"
}

/// What the process has for the program.
#[derive(Drop)]
pub struct Host<'a, T> {
    /// Its threads, clock, files and sockets.
    pub rt: &'a T,
    /// Its memory.
    pub alloc: Global,
    /// Standard input.
    pub stdin: Stdin,
    /// Standard output.
    pub stdout: Stdout,
    /// Standard error.
    pub stderr: Stderr,
}

impl<T> Host<'_, T>
where
    T: Threads
        + Wait
        + Clock
        + Files<File = File>
        + Alloc<A = Global>
        + Net<Listener = TcpListener, Stream = TcpStream>
        + Sync,
{
    /// Runs the program over its streams and a reader, which has `length` bytes if that is known.
    fn run_over<R: Read + Drop>(
        &self,
        words: &[u8],
        tells_rows: bool,
        reader: R,
        length: Option<u64>,
    ) -> Status {
        let progress = ProgressLine::on(self.rt, self.stderr);
        let told = progress.as_ref();
        let told_rows = if tells_rows && !self.stdout.is_terminal() {
            told
        } else {
            None
        };
        let status = run(
            self.rt,
            self.alloc,
            words,
            &mut ToldReader::new(reader, told, length),
            &mut ToldWriter::new(PipeWriter::new(self.stdout), told_rows),
            &mut ClearedWriter::new(self.stderr, told),
        );
        if let Some(progress) = told {
            progress.clear();
        }
        status
    }

    /// Runs the program over standard input.
    fn run_streams(&self, words: &[u8]) -> Status {
        self.run_over(words, false, self.stdin, None)
    }

    /// Runs the program over the file of this name. If it can't be opened, that is said and its status returned.
    fn run_file(&self, words: &[u8], tells_rows: bool, name: &str) -> Status {
        match open_file(self.rt, name) {
            Ok(opened) => self.run_over(words, tells_rows, opened.file, opened.length),
            Err(error) => say_unread(self.alloc, &mut { self.stderr }, name, error.kind()),
        }
    }

    /// Runs a word for a table over standard input or the file that an argument names.
    fn run_request(&self, words: &[u8], request: &FileCommand) -> Status {
        let name = match request.file {
            Some(place) => argument_text(words, place),
            None => STANDARD_INPUT,
        };
        if name == STANDARD_INPUT {
            self.run_over(words, has_rows(request), self.stdin, None)
        } else {
            self.run_file(words, has_rows(request), name)
        }
    }

    /// Returns standard output, for the report of a day.
    fn outlet(&self) -> CauseWriter<PipeWriter<Stdout>> {
        CauseWriter::new(PipeWriter::new(self.stdout))
    }

    /// Runs a day by its file.
    fn run_live(&self, name: &str) -> Status {
        let (mut stdout, mut stderr) = (self.outlet(), self.stderr);
        match live_file(self.rt, self.alloc, name, &mut stderr) {
            Ok(day) => run_live_file(self.rt, self.alloc, day, &mut stdout, &mut stderr),
            Err(status) => status,
        }
    }

    /// Follows a day by its file.
    fn run_follow(&self, name: &str, follower: u16, is_partial: bool) -> Status {
        let (rt, alloc) = (self.rt, self.alloc);
        let (mut stdout, mut stderr) = (self.outlet(), self.stderr);
        match follow_file(rt, alloc, name, follower, &mut stderr) {
            Ok(day) => run_follow_file(rt, alloc, day, is_partial, &mut stdout, &mut stderr),
            Err(status) => status,
        }
    }

    /// Watches a day by its file, or writes the readable tape of a journal, which has no followers.
    fn run_watch(&self, name: &str, follower: u16) -> Status {
        if names_journal(self.rt, name) {
            return self.run_file(tape_words(), true, name);
        }
        let (rt, alloc, mut stderr) = (self.rt, self.alloc, self.stderr);
        match follow_file(rt, alloc, name, follower, &mut stderr) {
            Ok(day) => {
                let stdout = PipeWriter::new(self.stdout);
                run_watch_file(rt, alloc, day, stdout, &mut stderr).0
            }
            Err(status) => status,
        }
    }

    /// Asks a day by its file, at its control socket.
    fn run_order(&self, name: &str, order: ControlCommand) -> Status {
        let (mut stdout, mut stderr) = (self.stdout, self.stderr);
        match control_file(self.rt, self.alloc, name, &mut stderr) {
            Ok(place) => ask_day(self.rt, self.alloc, &place, order, &mut stdout, &mut stderr),
            Err(status) => status,
        }
    }

    /// Watches the day that arguments in a row name, or returns `None` if they ask for something else.
    fn run_watch_row(&self, words: &[u8]) -> Option<Status> {
        let (first, rest) = first_argument(words)?;
        if first != Word::Watch.name().as_bytes() {
            return None;
        }
        let mut stderr = self.stderr;
        let stdout = PipeWriter::new(self.stdout);
        Some(watch_row(self.rt, self.alloc, rest, stdout, &mut stderr).0)
    }

    /// Does what arguments ask for, each ended by a zero byte, and returns the status.
    pub fn run_words(&self, words: &[u8]) -> Status {
        let (mut stdout, mut stderr) = (self.stdout, self.stderr);
        match read_arguments(words) {
            Some(Asked::Table(request)) => self.run_request(words, &request),
            Some(Asked::Live(file)) => self.run_live(argument_text(words, file)),
            Some(Asked::Follow(follower, is_partial, file)) => {
                self.run_follow(argument_text(words, file), follower, is_partial)
            }
            Some(Asked::Watch(follower, file)) => {
                self.run_watch(argument_text(words, file), follower)
            }
            Some(Asked::Status(file)) => self.run_order(
                argument_text(words, file),
                ControlCommand::Status,
            ),
            Some(Asked::End(file)) => self.run_order(
                argument_text(words, file),
                ControlCommand::End,
            ),
            Some(Asked::Version) => write_own(version_text(self.rt), &mut stdout, &mut stderr),
            Some(Asked::Help | Asked::HelpOn(_) | Asked::Wrong(_, _)) => self.run_streams(words),
            None => match self.run_watch_row(words) {
                Some(status) => status,
                None => self.run_streams(words),
            },
        }
    }
}
