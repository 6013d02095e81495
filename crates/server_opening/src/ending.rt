//! How the server says why it ended.
use program_start::{ProgramFault, tell_explanation, tell_fault};
use std::alloc::Global;
use std::io::Write;

/// The exit status of a server: its own, or 1 if it ended by a fault; `errors` says then which, and why.
pub fn tell_end<E: Write>(
    alloc: Global,
    errors: &mut E,
    ended: &Result<u8, ProgramFault>,
    why: &str,
) -> u8 {
    match ended {
        Ok(status) => *status,
        Err(fault) => {
            tell_fault(alloc, errors, "cfdp_server", fault);
            if !why.is_empty() {
                tell_explanation(errors, why);
            }
            1
        }
    }
}
