//! The commands of the program: one table with their names, their options, what else they take and what help says of each.
ghost use Rattle.std.specs.Prelude.{◌≡◌, Some};
ghost use Rattle.command_line.specs.Commands.{command_row, flag_named, flags_of, word_name, word_of};

use crate::behind::Behind;
use crate::flag::Flag;

/// A command, which is the first argument.
#[derive(Clone, Copy, Debug, PartialEq, Eq)]
pub enum Word {
    /// The report of a table or a journal.
    Report,
    /// The readable tape of a table or a journal.
    Tape,
    /// What became of the reports of a table or a journal, and what each sets.
    Explain,
    /// Every fault of a table.
    Check,
    /// Whether a recorded tape or a journal is as it is written.
    Verify,
    /// The batch text of a table.
    Encode,
    /// The table of a batch's text.
    Decode,
    /// The bytes of one participant's messages in a table.
    Line,
    /// The answers to a batch's text, and its report.
    Batch,
    /// A running day, from its participants' lines.
    Live,
    /// A running day that is followed, and its report.
    Follow,
    /// The readable tape of a running day as it comes.
    Watch,
    /// How a running day stands.
    Status,
    /// The end of a running day.
    End,
}

/// Every command, in the order in which help lists them.
pub const ALL_WORDS: [Word; 14] = [
    Word::Report,
    Word::Tape,
    Word::Explain,
    Word::Check,
    Word::Verify,
    Word::Encode,
    Word::Decode,
    Word::Line,
    Word::Batch,
    Word::Live,
    Word::Follow,
    Word::Watch,
    Word::Status,
    Word::End,
];

/// Returns the first command of this name.
fn first_named(name: &[u8]) -> Option<Word>
    ensures { result ≡ word_of name.now }
{
    ALL_WORDS
        .iter()
        .copied()
        .find(|word| name == word.name().as_bytes())
}

/// What the table has of a command.
#[derive(Clone, Copy)]
pub(crate) struct CommandRow {
    /// The argument that names the command.
    name: &'static str,
    /// The options that it takes.
    flags: &'static [Flag],
    /// What else stands behind it.
    behind: Behind,
    /// How it is used.
    pub(crate) form: &'static str,
    /// What it does, in one sentence.
    pub(crate) sentence: &'static str,
}

impl Word {
    /// Returns the row of the table that has the command.
    pub(crate) fn row(self) -> CommandRow
        ensures name { result.name.now ≡ (command_row self).name }
        ensures flags { result.flags.now ≡ (command_row self).flags }
        ensures behind { result.behind ≡ (command_row self).behind }
    {
        match self {
            Word::Report => CommandRow {
                name: "report",
                flags: &[Flag::Matrix, Flag::Strict, Flag::Help],
                behind: Behind::File,
                form: "report [--matrix 1|2] [--strict] [FILE]",
                sentence: "Writes the report of a table's or a journal's day; rows that the tape refuses are counted on standard error, and with --strict they are faults.",
            },
            Word::Tape => CommandRow {
                name: "tape",
                flags: &[Flag::Matrix, Flag::Strict, Flag::Help],
                behind: Behind::File,
                form: "tape [--matrix 1|2] [--strict] [FILE]",
                sentence: "Writes each row of a table, or each entry of a journal, with its tape number or its refusal, and its symbol's figures after it.",
            },
            Word::Explain => CommandRow {
                name: "explain",
                flags: &[Flag::Matrix, Flag::Strict, Flag::Help],
                behind: Behind::File,
                form: "explain [--matrix 1|2] [--strict] [FILE]",
                sentence: "Writes what became of each report of a table or a journal that the tape admits, and which figures it sets.",
            },
            Word::Check => CommandRow {
                name: "check",
                flags: &[Flag::Help],
                behind: Behind::File,
                form: "check [FILE]",
                sentence: "Writes every fault of a table: the first hundred each on a line, then how many more there are of each kind.",
            },
            Word::Verify => CommandRow {
                name: "verify",
                flags: &[Flag::Matrix, Flag::Help],
                behind: Behind::File,
                form: "verify [--matrix 1|2] [FILE]",
                sentence: "Replays a recorded tape or a journal, and says whether its figures follow from its messages, or where they first differ; it does not show that no message is missing or changed.",
            },
            Word::Encode => CommandRow {
                name: "encode",
                flags: &[Flag::Help],
                behind: Behind::File,
                form: "encode [FILE]",
                sentence: "Writes a table's messages as the text of a batch: the symbols, the participants, and each message's letter and bytes.",
            },
            Word::Decode => CommandRow {
                name: "decode",
                flags: &[Flag::Help],
                behind: Behind::File,
                form: "decode [FILE]",
                sentence: "Writes the messages of a batch's text as a table.",
            },
            Word::Line => CommandRow {
                name: "line",
                flags: &[Flag::Help],
                behind: Behind::ParticipantAndFile,
                form: "line PARTICIPANT [FILE]",
                sentence: "Writes the bytes of a table's messages of a participant, A to Z, as its line sends them on a running day.",
            },
            Word::Batch => CommandRow {
                name: "batch",
                flags: &[Flag::Help],
                behind: Behind::BatchRow,
                form: "batch [1|2]",
                sentence: "Reads the text of a batch from standard input, and writes the answer to each message and the report, by Matrix One or 2.",
            },
            Word::Live => CommandRow {
                name: "live",
                flags: &[Flag::Help],
                behind: Behind::DayOrRow,
                form: "live DAY.toml | SYMBOLS PARTICIPANTS PORT A B RETRANS SERVES SESSION [MATRIX [LIMIT]]",
                sentence: "Runs a day: takes its participants' messages, sends its tape on both lines, and writes the report.",
            },
            Word::Follow => CommandRow {
                name: "follow",
                flags: &[Flag::Follower, Flag::Partial, Flag::Help],
                behind: Behind::DayOrRow,
                form: "follow [--follower N] [--partial] DAY.toml | SYMBOLS PARTICIPANTS A B RETRANS SESSION [MATRIX [LIMIT]]",
                sentence: "Follows a running day by the ports of a follower's place, the first unless N is given, and writes the report; with --partial also that of what it holds if no end comes.",
            },
            Word::Watch => CommandRow {
                name: "watch",
                flags: &[Flag::Follower, Flag::Help],
                behind: Behind::DayOrRow,
                form: "watch [--follower N] DAY.toml | JOURNAL | SYMBOLS PARTICIPANTS A B RETRANS SESSION [MATRIX [LIMIT]]",
                sentence: "Follows a running day as follow does, and writes each entry of its tape as it comes, with its symbol's figures after it; of a journal, each that it has.",
            },
            Word::Status => CommandRow {
                name: "status",
                flags: &[Flag::Help],
                behind: Behind::Day,
                form: "status DAY.toml",
                sentence: "Says how a running day stands, and what its end waits for.",
            },
            Word::End => CommandRow {
                name: "end",
                flags: &[Flag::Help],
                behind: Behind::Day,
                form: "end DAY.toml",
                sentence: "Ends a running day as if each participant's line had ended now.",
            },
        }
    }

    /// Returns the argument that names the command.
    pub fn name(self) -> &'static str
        ensures { result.now ≡ word_name self }
    {
        self.row().name
    }

    /// Returns the command of this name, or `None` if there is none. Each command has one name.
    pub fn named(name: &[u8]) -> Option<Word>
        ensures word { result ≡ word_of name.now }
        ensures each { (word : Word) → name.now ≡ word_name word → result ≡ Some word }
    {
        first_named(name)
    }

    /// Returns the options that the command takes.
    pub(crate) fn flags(self) -> &'static [Flag]
        ensures { result.now ≡ flags_of self }
    {
        self.row().flags
    }

    /// Returns the option of this name, if the command takes it.
    pub(crate) fn flag_named(self, name: &[u8]) -> Option<Flag>
        ensures { result ≡ flag_named self name.now }
    {
        self.flags()
            .iter()
            .copied()
            .find(|flag| name == flag.name().as_bytes())
    }

    /// Returns what stands behind the command besides its options.
    pub(crate) fn behind(self) -> Behind
        ensures { result ≡ (command_row self).behind }
    {
        self.row().behind
    }
}
