use cfdp_types::{EntityId, Octets};
use disk::Hindrance;
use entity_workers::{Filestore, StoreFault};
use program_storing::StationFiles;

/// A store that keeps nothing: an entity that sends a file here is notified that it was rejected.
#[derive(Debug, Drop)]
pub(crate) struct RefusingStore {
    pub(crate) refused: u64,
}

impl Filestore for RefusingStore {
    ghost use Rattle.std.specs.Prelude.{◌≡◌, Err};
    ghost use Rattle.file_stores.specs.declared.filestore.StoreFault.TheVariants as fault;

    ghost tried = { λ store. store.refused };

    ghost failed = { λ store. store.refused };

    ghost deposits = { λ _ _ _ result _. result ≡ Err fault.Failed };

    fn deposit(&mut self, _name: &[u8], _octets: &[u8]) -> Result<(), StoreFault> {
        self.refused += 1;
        Err(StoreFault::Failed)
    }

    fn calls(&self) -> u64 {
        self.refused
    }

    fn failures(&self) -> u64 {
        self.refused
    }
}

impl StationFiles for RefusingStore {
    fn enter(&mut self, _source: EntityId) {}

    fn prepare(&mut self, _name: &Octets, _octets: &Octets) -> Result<(), Hindrance> {
        Ok(())
    }

    fn place(&self) -> &str {
        ""
    }

    fn reason(&self) -> &'static str {
        "this program keeps no files"
    }
}
