//! Why a program ends before its work is done, and how it reports that.
ghost use Rattle.std.specs.Prelude.{◌≡◌, ◌++◌, OnOk, codes};
ghost use Rattle.std.specs.String.{string_bytes};
ghost use Rattle.program_start.specs.Faults.{plain_text, refusal_text, fault_line};

use crate::unread::Unread;
use entity_routing::{RouteRefusal, WRONG_LANE_NAME, WRONG_LANE_NUMBER};
use script_io::write_whole;
use std::alloc::{AllocError, Global};
use std::io::Write;
use txn_events::Refusal;

/// Why a program ends before its work is done.
#[derive(Clone, Copy, Debug, PartialEq, Eq)]
pub enum ProgramFault {
    /// The program doesn't take such a command line.
    Usage,
    /// A file can't be read.
    Read,
    /// A file to be sent can't be read, and why.
    Unread(Unread),
    /// The configuration has a fault, whose number this is.
    Config(u8),
    /// The socket can't be opened at its address.
    Bind,
    /// The file of numbers has no number, can't be read or written, or is in use by another program; or the numbers are
    /// used up.
    Numbers,
    /// The file of the outbox can't be read or written, has a line that can't be parsed or that doesn't put a file in
    /// the outbox by this configuration, has more files than may wait, or is in use by another program.
    Outbox,
    /// A thread can't be started.
    Start,
    /// The output can't be written.
    Write,
    /// Memory ran out.
    NoMemory,
    /// The lane refuses the event that the program was started for.
    Refused(Refusal),
    /// The configuration has no lane for that event.
    NotRouted(RouteRefusal),
    /// The lock guards another lane.
    WrongLane,
}

impl From<AllocError> for ProgramFault {
    ghost use Rattle.std.specs.Prelude.{◌≡◌};
    ghost use Rattle.program_start.specs.declared.fault.ProgramFault.TheVariants as fault;

    ghost from_gives = { λ _ e. e ≡ fault.NoMemory };

    fn from(_lack: AllocError) -> ProgramFault {
        ProgramFault::NoMemory
    }
}

// The text of a fault, without its numbers.
fn plain_text(fault: &ProgramFault) -> &'static str
    ensures { result.now ≡ plain_text fault.now }
{
    match fault {
        ProgramFault::Usage => "usage",
        ProgramFault::Read | ProgramFault::Unread(_) => "read fault",
        ProgramFault::Config(_) => "config fault",
        ProgramFault::Bind => "bind fault",
        ProgramFault::Numbers => "numbers fault",
        ProgramFault::Outbox => "outbox fault",
        ProgramFault::Start => "start fault",
        ProgramFault::Write => "write fault",
        ProgramFault::NoMemory => "no memory",
        ProgramFault::Refused(_) | ProgramFault::NotRouted(_) | ProgramFault::WrongLane => {
            "refused"
        }
    }
}

/// Adds the line that a program of this name prints for a fault.
pub fn push_fault(text: &mut String, program: &str, fault: &ProgramFault) -> Result<(), AllocError>
    ensures { OnOk result (string_bytes text.new ≡ string_bytes text.old ++ fault_line program.now fault.now) }
{
    let plain = plain_text(fault);
    match fault {
        ProgramFault::Config(number) => writeln!(text, "{program}: {plain} {number}"),
        ProgramFault::Refused(why) => push_refusal(text, program, why.number(), why.name()),
        ProgramFault::NotRouted(why) => push_refusal(text, program, why.number(), why.name()),
        ProgramFault::WrongLane => push_refusal(text, program, WRONG_LANE_NUMBER, WRONG_LANE_NAME),
        _ => writeln!(text, "{program}: {plain}"),
    }
}

// Adds the line for a refusal.
fn push_refusal(text: &mut String, program: &str, number: u8, name: &str) -> Result<(), AllocError>
    ensures { OnOk result (string_bytes text.new
        ≡ string_bytes text.old ++ (program.now ++ (codes ": " ++ (codes "refused" ++ (refusal_text number name.now ++ codes "\n"))))) }
{
    writeln!(text, "{program}: refused {number} {name}")
}

/// Prints that line, or that memory ran out if it does. What the writer doesn't take is lost.
pub fn tell_fault<E: Write>(alloc: Global, errors: &mut E, program: &str, fault: &ProgramFault) {
    let mut text = String::new(alloc);
    let _told = match push_fault(&mut text, program, fault) {
        Ok(()) => write_whole(errors, text.as_bytes()),
        Err(_) => write_plainly(errors, program),
    };
    let _flushed = errors.flush();
}

/// Prints a whole text at once.
pub fn print<W: Write>(writer: &mut W, text: &str) -> Result<(), ProgramFault> {
    if text.is_empty() {
        return Ok(());
    }
    if write_whole(writer, text.as_bytes()).is_err() || writer.flush().is_err() {
        return Err(ProgramFault::Write);
    }
    Ok(())
}

// Prints that memory ran out, without allocating.
fn write_plainly<E: Write>(errors: &mut E, program: &str) -> Result<(), script_io::ReplayFault> {
    write_whole(errors, program.as_bytes())?;
    write_whole(errors, b": no memory\n")
}
