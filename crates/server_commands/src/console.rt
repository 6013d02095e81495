//! Where replies go.
use program_seats::{Asker, Seats};
use program_start::{ProgramFault, print};
use std::io::Write;
use std::sync::Wait;

/// Where replies go: they are printed, or sent to the client that asked.
#[derive(Drop)]
pub enum Console<'s, W> {
    Printed(&'s mut W),
    Seated(&'s Seats),
}

impl<'s, W: Write> Console<'s, W> {
    // The clients' seats, if there are clients.
    fn seats(&self) -> Option<&'s Seats> {
        match self {
            Console::Printed(_) => None,
            Console::Seated(seats) => Some(*seats),
        }
    }

    /// Gives a reply, and what users received meanwhile, to whoever asked.
    pub(crate) fn answer<R: Wait>(
        &mut self,
        rt: &R,
        asker: Option<Asker>,
        text: &mut String,
    ) -> Result<(), ProgramFault> {
        match self.seats() {
            Some(seats) => {
                send(rt, seats, asker, text);
                Ok(())
            }
            None => self.print(text.as_str()),
        }
    }

    // Prints a text, if replies are printed.
    fn print(&mut self, text: &str) -> Result<(), ProgramFault> {
        match self {
            Console::Printed(writer) => print(*writer, text),
            Console::Seated(_) => Ok(()),
        }
    }
}

// Sends a reply to the client that asked, with the line that ends it. If memory for that line runs out, the client is
// cut off.
fn send<R: Wait>(rt: &R, seats: &Seats, asker: Option<Asker>, text: &mut String) {
    let Some(asker) = asker else {
        return;
    };
    if text.push_str(".\n").is_ok() {
        let _is_there = seats.answer(rt, asker, text.as_bytes());
    } else {
        seats.cut(rt, asker);
    }
}
