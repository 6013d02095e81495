//! Splits a line into words in order, plain ones and those in double quotes, and reads the operands that several kinds
//! of lines share.
#![tactic(auto)]

mod any_words;
mod digits;
mod operands;
mod places;
mod splitter;
mod words;

pub use any_words::{Words, has_quote, is_ascii};
pub use operands::{class_of, closure_of, key_from, name_of, number_of, request_for};
pub use places::{lane_of, user_of};
pub use splitter::{Mode, WordList, quoted_words};
pub use words::{Rest, decimal, last_word, next_word, split_word};
