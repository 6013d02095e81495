//! Rows other than those of events. Each function appends to `text`; after an `Err` the text is not to be used.
ghost use Rattle.std.specs.Prelude.{◌≡◌, ◌++◌, OnOk, string_bytes};
ghost use Rattle.journal_scripts.specs.Rows.{first_words, row_text, take_words};

use std::alloc::AllocError;

/// Adds the line that a script has before the first event of a transaction that its own entity opened. The line says
/// where the numbers of the entity's lanes begin.
pub fn push_first(text: &mut String, first: u64) -> Result<(), AllocError>
    ensures { OnOk result (string_bytes text.new ≡ string_bytes text.old ++ row_text (first_words first)) }
{
    writeln!(text, "set first {first}")
}

/// Adds the line by which the user with this name takes a bundle.
pub fn push_take(text: &mut String, name: &str) -> Result<(), AllocError>
    ensures { OnOk result (string_bytes text.new ≡ string_bytes text.old ++ row_text (take_words name.now)) }
{
    writeln!(text, "take {name}")
}
