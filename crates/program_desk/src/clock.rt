use std::time::Clock;

/// The moment by the runtime's clock, in milliseconds, or 0 if it has none.
pub fn moment(rt: &impl Clock) -> u64 {
    match rt.monotonic() {
        Ok(time) => u64::try_from(time.as_millis()).unwrap_or(u64::MAX),
        Err(_) => 0,
    }
}

/// The moment by the runtime's wall clock, in milliseconds since 1970, or 0 if it has none.
pub fn wall_moment(rt: &impl Clock) -> u64 {
    match rt.since_1970() {
        Ok(time) => u64::try_from(time.as_millis()).unwrap_or(u64::MAX),
        Err(_) => 0,
    }
}
