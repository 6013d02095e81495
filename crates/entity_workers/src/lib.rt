//! Threads around an entity: datagrams are decoded and queued, workers bring them to their lanes, and received files
//! are deposited in a store.
#![tactic(auto)]

mod carrier;
mod deposit;
mod fault;
mod intake;
mod message;
mod source;
mod workers;

pub use carrier::Carrier;
pub use deposit::{DepositRest, deposit_one, finish};
pub use fault::{IntakeFault, WorkersFault};
pub use file_stores::{Filestore, FolderStore, MemoryStore, StoreFault, StoredFile};
pub use intake::{Intake, IntakeEnd, IntakeSend};
pub use message::Message;
pub use source::Source;
pub use workers::{run_workers, run_workers_from};
