//! Explains a fault of a configuration by its place in the text.
use entity_config::ConfigFault;
use fault_texts::{Place, push_sentence};
use std::alloc::AllocError;

/// Adds a line that says what is wrong with a configuration, where, what was found there, and what is allowed.
pub fn push_place(
    text: &mut String,
    path: &str,
    place: &Place,
    fault: ConfigFault,
) -> Result<(), AllocError> {
    write!(text, "{path}: ")?;
    push_sentence(text, place, fault)?;
    text.push_str("\n")
}
