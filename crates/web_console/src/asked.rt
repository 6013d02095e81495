//! What the station is asked.
ghost use Rattle.std.specs.Prelude.{◌≡◌};
ghost use Rattle.web_console.specs.Asking.{line_of};

use web_pages::Permit;

// How many milliseconds the station may take to let the console in and to answer a status.
const ANSWER_MILLIS: u64 = 1000;

// How many milliseconds it may take for a command.
const COMMAND_MILLIS: u64 = 5000;

// How many milliseconds it may take to send a transaction as a script.
const JOURNAL_MILLIS: u64 = 120_000;

/// What the console may ask its station: nothing else is sent there.
#[derive(Clone, Copy, Debug)]
pub enum Asked<'a> {
    Status,
    /// The events that the station has kept, without pieces of files, and then those that come.
    Kept,
    /// All events that come, first those that the station has kept, each with its level.
    Events,
    /// A command that came with the token.
    Passed(Permit<'a>),
}

impl<'a> Asked<'a> {
    /// The line of the control socket, without its line feed.
    pub fn line(self) -> &'a [u8]
        ensures { result.now ≡ line_of self.entry }
    {
        match self {
            Asked::Status => b"status",
            Asked::Kept => b"follow 1024 info",
            Asked::Events => b"follow 1024 detail",
            Asked::Passed(permit) => permit.line,
        }
    }

    /// How many milliseconds the station may take to let the console in and to reply.
    pub(crate) fn millis(self) -> u64 {
        match self {
            Asked::Status | Asked::Kept | Asked::Events => ANSWER_MILLIS,
            Asked::Passed(permit) if permit.line.starts_with(b"journal ".as_slice()) => {
                JOURNAL_MILLIS
            }
            Asked::Passed(_) => COMMAND_MILLIS,
        }
    }
}
