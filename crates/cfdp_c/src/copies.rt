//! Copying octets into a buffer of C.
ghost use Rattle.std.specs.Prelude.{length, option_copied};
ghost use Rattle.cfdp_c.specs.Calls.{IsCopied, IsCut};

use crate::codes::{NO_ROOM, NOTHING, OK};

/// Copies octets to the beginning of the buffer, if there are any and the buffer has room for all of them. Reports how
/// many there are, even where the buffer has no room.
pub(crate) fn copy(octets: Option<&[u8]>, buffer: &mut [u8], len: &mut usize) -> i32
    ensures { IsCopied result (option_copied octets.entry) (length buffer.old) buffer.new len.new }
{
    let Some(octets) = octets else {
        return NOTHING;
    };
    let whole = octets.len();
    *len = whole;
    if whole > buffer.len() {
        return NO_ROOM;
    }
    buffer[..whole].copy_from_slice(octets);
    OK
}

/// Copies octets from an offset on to the beginning of the buffer, as many as there are and as the buffer holds.
/// Reports how many it copied.
pub(crate) fn cut(octets: Option<&[u8]>, offset: usize, buffer: &mut [u8], len: &mut usize) -> i32
    ensures { IsCut result (option_copied octets.entry) offset (length buffer.old) buffer.new len.new }
{
    let Some(octets) = octets else {
        return NOTHING;
    };
    if offset > octets.len() {
        return NOTHING;
    }
    let count = (octets.len() - offset).min(buffer.len());
    buffer[..count].copy_from_slice(&octets[offset..offset + count]);
    *len = count;
    OK
}
