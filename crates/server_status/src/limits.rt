//! How much leaves over a link.
use cfdp_types::EntityId;
use program_timetable::Timetable;
use std::alloc::AllocError;

/// Lets at most so many octets a second leave from a moment on for a remote entity, or for those without a limit of
/// their own. `None` lifts the limit.
pub fn limit(
    timetable: &mut Timetable<'_>,
    remote: Option<EntityId>,
    octets: Option<u64>,
    now: u64,
    text: &mut String,
) -> Result<(), AllocError> {
    match remote {
        Some(remote) => {
            if !timetable.limit(remote, octets, now) {
                return text.push_str("refused UnknownRemote\n");
            }
        }
        None => timetable.limit_rest(octets, now),
    }
    text.push_str("ok\n")
}
