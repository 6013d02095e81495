ghost use Rattle.std.specs.Prelude.{◌≡◌, IfErr, IfOk, None, Some};
ghost use Rattle.program_words.specs.Replies.{asked_text, fault_of};

use crate::WordsFault;
use program_start::{ProgramFault, tell_fault};
use std::alloc::Global;
use std::io::Write;

/// The fault of a program, by that of its command line.
pub fn fault_of(fault: WordsFault) -> ProgramFault
    ensures { result ≡ fault_of fault }
{
    match fault {
        WordsFault::NoMemory => ProgramFault::NoMemory,
        _ => ProgramFault::Usage,
    }
}

/// The help or the version, if a command line asks for it. Any other fault of the line is returned as the program's
/// fault.
pub fn asked_text(
    fault: WordsFault,
    help: &'static str,
    version: &'static str,
) -> Result<&'static str, ProgramFault>
    ensures asked { IfOk result (λ text. asked_text fault help.now version.now ≡ Some text.now) }
    ensures not_asked { IfErr result (λ why. (asked_text fault help.now version.now ≡ None) × (why ≡ fault_of fault)) }
{
    match fault {
        WordsFault::Help => Ok(help),
        WordsFault::Version => Ok(version),
        _ => Err(fault_of(fault)),
    }
}

/// Reports the fault of the command line of a program of this name, and returns the exit status.
pub fn tell_words_fault<E: Write>(
    alloc: Global,
    errors: &mut E,
    program: &str,
    fault: WordsFault,
) -> u8
    ensures { result ≡ 1 }
{
    tell_fault(alloc, errors, program, &fault_of(fault));
    1
}
