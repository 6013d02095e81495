//! Why a configuration is refused, in words.
ghost use Rattle.std.specs.Prelude.{length};
ghost use Rattle.cfdp_c.specs.Explaining.{Explains};

use crate::codes::{NO_MEMORY, NOTHING};
use crate::copies::copy;
use fault_texts::explained;
use std::alloc::Global;

/// Copies a sentence that says why this text is refused as a configuration.
#[unsafe(no_mangle)]
pub extern "C" fn cfdp_explain(
    alloc: Global,
    text: &[u8],
    buffer: &mut [u8],
    len: &mut usize,
) -> i32
    ensures { Explains result text.now (length buffer.old) buffer.new len.new }
{
    match explained(alloc, text) {
        Ok(Some(sentence)) => copy(Some(sentence.as_bytes()), buffer, len),
        Ok(None) => NOTHING,
        Err(_) => NO_MEMORY,
    }
}
