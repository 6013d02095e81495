//! Stores for received files.
#![tactic(auto)]

mod filestore;
mod folder_store;
mod memory_store;

pub use filestore::{Filestore, StoreFault};
pub use folder_store::FolderStore;
pub use memory_store::{MemoryStore, StoredFile};
