//! The command lines of the server and of the program that puts a file.
#![tactic(auto)]

mod checking;
mod complaints;
mod fault;
mod line;
mod options;
mod putting;
mod replies;
mod serving;

pub use checking::{asks_for_check, asks_to_explain, check_words};
pub use complaints::{push_check_complaint, push_put_complaint, push_server_complaint};
pub use fault::WordsFault;
pub use line::line_of;
pub use putting::{PutWords, put_help, put_version, put_words};
pub use replies::{asked_text, fault_of, tell_words_fault};
pub use serving::{EntityWords, ServerWords, server_help, server_version, server_words};
