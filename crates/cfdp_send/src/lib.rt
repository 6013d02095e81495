//! One put: an entity over datagrams that sends one file, and prints the indications of its user.
#![tactic(auto)]

mod ended;
mod named;
mod outputs;
mod putting;
mod refusing;
mod threads;

pub use outputs::Outputs;
pub use putting::put_one;
