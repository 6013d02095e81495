//! The commands for transactions, as a server reads them.
ghost use Rattle.std.specs.Prelude.{◌≡◌, ◌++◌, IfOk, OnOk, codes};
ghost use Rattle.ctl_words.specs.Commands.{act_octets, verb_octets};

use crate::sending::push_word;
use crate::words::Verb;
use std::alloc::{AllocError, Global};

/// The text of a command for a user's transaction, without its line feed.
pub fn act_command(
    alloc: Global,
    verb: Verb,
    user: &str,
    source: u64,
    seq: u64,
) -> Result<Vec<u8>, AllocError>
    ensures { IfOk result (λ command. command.items ≡ act_octets verb user.now source seq) }
{
    let mut command = Vec::new(alloc);
    command.extend_from_slice(verb_word(verb))?;
    push_word(&mut command, user.as_bytes())?;
    let numbers = format!(in alloc; " {source} {seq}")?;
    command.extend_from_slice(numbers.as_bytes())?;
    Ok(command)
}

// The first word of the command, with the space after it.
fn verb_word(verb: Verb) -> &'static [u8]
    ensures { result.now ≡ verb_octets verb }
{
    match verb {
        Verb::Cancel => b"cancel ",
        Verb::Suspend => b"suspend ",
        Verb::Resume => b"resume ",
        Verb::Abandon => b"abandon ",
    }
}
