//! Where the console's responses come from.
ghost use Rattle.std.specs.Prelude.{◌≡◌, [], IfOk};
ghost use Rattle.web_pages.specs.Answers.{Shows, Tells};
ghost use Rattle.web_pages.specs.Commands.{IsCommand};

use crate::permit::Permit;
use crate::route::Route;
use std::alloc::AllocError;

/// Whether the station replied.
#[derive(Clone, Copy, Debug, PartialEq, Eq)]
pub enum Found {
    Here,
    /// The station can't be asked.
    Away,
}

/// Where the console's responses come from.
pub trait Source {
    /// What it may show at a route, by the ID of the last event that the reader has.
    ghost shows: { Self → Shows };

    /// What the station may reply to a command.
    ghost tells: { Self → Tells };

    /// Writes what is at a route into an empty text: of events those after the one with the ID `last`, or all if no
    /// event has that ID.
    fn fill(&self, route: Route, last: &[u8], text: &mut Vec<u8>) -> Result<Found, AllocError>
        requires { text.old.items ≡ [] }
        ensures { IfOk result (λ found. shows self.now route last.now found text.new.items) };

    /// Gives a command, which came with the token, to the station and writes its reply into an empty text.
    fn command(&self, permit: Permit<'_>, text: &mut Vec<u8>) -> Result<Found, AllocError>
        requires command { IsCommand permit.line.now }
        requires empty { text.old.items ≡ [] }
        ensures { IfOk result (λ found. tells self.now permit.entry.line.now found text.new.items) };
}
