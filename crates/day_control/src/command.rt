//! The commands of a client, and the lines by which it sends them.
ghost use Rattle.std.specs.Prelude.{◌≡◌, Some};
ghost use Rattle.day_control.specs.Commands.{command_name, command_of};
ghost use Rattle.day_control.specs.Lines.{line_text};

/// A client's command.
#[derive(Clone, Copy, Debug, PartialEq, Eq)]
pub enum ControlCommand {
    /// Asks for the day's status.
    Status,
    /// Ends the day. A second one makes the day wait no longer for followers.
    End,
}

const ALL_COMMANDS: [ControlCommand; 2] = [ControlCommand::Status, ControlCommand::End];

/// Returns the first command of this name.
fn first_named(line: &[u8]) -> Option<ControlCommand>
    ensures { result ≡ command_of line.now }
{
    ALL_COMMANDS
        .iter()
        .copied()
        .find(|command| line == command.name())
}

impl ControlCommand {
    /// The command's line, without its line feed.
    pub fn name(self) -> &'static [u8]
        ensures { result.now ≡ command_name self }
    {
        match self {
            ControlCommand::Status => b"status",
            ControlCommand::End => b"end",
        }
    }

    /// The command's line, with its line feed.
    pub(crate) fn line(self) -> &'static [u8]
        ensures { result.now ≡ line_text (command_name self) }
    {
        match self {
            ControlCommand::Status => b"status\n",
            ControlCommand::End => b"end\n",
        }
    }

    /// Returns the command of a line without its line feed, or `None` if the line is no command's name. Each command has a
    /// line.
    pub fn of_line(line: &[u8]) -> Option<ControlCommand>
        ensures command { result ≡ command_of line.now }
        ensures each { (command : ControlCommand) → line.now ≡ command_name command → result ≡ Some command }
    {
        first_named(line)
    }
}
