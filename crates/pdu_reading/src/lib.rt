//! The definitions of how octets are read as protocol data units, and of which fault is reported first.
#![tactic(auto)]

mod fault;
mod fixed_header;

pub use fault::DecodeFault;
pub use fixed_header::FixedHeader;
