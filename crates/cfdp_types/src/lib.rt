//! The types and limits of the CCSDS File Delivery Protocol that all layers share.
#![tactic(auto)]

mod boxed;
mod checksum_type;
mod condition;
mod fault_table;
mod image;
mod key;
pub mod limits;
mod messages;
mod names;
mod octets;
mod params;
mod put_request;
mod timer_op;

pub use boxed::Boxed;
pub use checksum_type::ChecksumType;
pub use condition::Condition;
pub use fault_table::{FaultTable, HandlerNotAllowed, Handlers};
pub use image::Image;
pub use key::{Deposit, EntityId, TxnKey};
pub use messages::Messages;
pub use names::{Checksum, Class, Delivery, FileStatus, Handler, Role, TimerKind};
pub use octets::Octets;
pub use params::{ExpirationLimits, FaultTables, HeaderLengths, Params, ParamsParts, TimerLengths};
pub use put_request::{PutFault, PutRequest};
pub use timer_op::TimerOp;
