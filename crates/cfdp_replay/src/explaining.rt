//! Says in words what a datagram says.
use hex::FromHexError;
use program_start::{ProgramFault, print};
use script_explained::push_datagram;
use std::alloc::Global;
use std::io::Write;

/// Prints what a datagram, given as a word in hex, says: a line for its header and one for its body, or one for the
/// fault of decoding it. Returns the exit status: 1 for such a fault.
pub(crate) fn explain<W: Write>(
    alloc: Global,
    output: &mut W,
    word: &str,
) -> Result<u8, ProgramFault> {
    let octets = match hex::decode(alloc, word.as_bytes()) {
        Ok(octets) => octets,
        Err(FromHexError::OutOfMemory) => return Err(ProgramFault::NoMemory),
        Err(_) => return Err(ProgramFault::Usage),
    };
    let mut text = String::new(alloc);
    let is_pdu = push_datagram(alloc, &mut text, octets.as_slice())?;
    print(output, text.as_str())?;
    Ok(if is_pdu { 0 } else { 1 })
}
