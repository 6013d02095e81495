//! The release of Binesunset that the programs belong to.
#![tactic(auto)]

/// The version between two literals, as one text.
#[macro_export]
macro_rules! versioned {
    ($before:literal, $after:literal) => { concat!($before, "0.1", $after) };
}

/// The version. Programs print it, and a station's lines and recordings have it.
pub const VERSION: &str = versioned!("", "");
