use cfdp_types::{EntityId, Octets};
use disk::{Disk, Hindrance};
use station_store::{Prepared, SourceStore, StationStore};

/// A store that can try to keep a file before its deposit counts, and says where it kept one.
pub trait StationFiles {
    /// Says that the files that come next are of this source.
    fn enter(&mut self, source: EntityId);

    /// Tries to keep a file under a name. The error says what hinders that for now; a deposit after it tries once more.
    fn prepare(&mut self, name: &Octets, octets: &Octets) -> Result<(), Hindrance>;

    /// The path, below the store's folder, under which it kept the last file.
    fn place(&self) -> &str;

    /// Why it did not keep the last file, in words.
    fn reason(&self) -> &'static str;
}

impl<D: Disk + Drop> StationFiles for StationStore<D> {
    fn enter(&mut self, _source: EntityId) {}

    fn prepare(&mut self, name: &Octets, octets: &Octets) -> Result<(), Hindrance> {
        match StationStore::prepare(self, name, octets) {
            Prepared::Ready => Ok(()),
            Prepared::Later => Err(self.hindrance().unwrap_or(Hindrance::NoMemory)),
        }
    }

    fn place(&self) -> &str {
        self.stored_as()
    }

    fn reason(&self) -> &'static str {
        StationStore::reason(self)
    }
}

impl<D: Disk + Drop> StationFiles for SourceStore<D> {
    fn enter(&mut self, source: EntityId) {
        SourceStore::enter(self, source);
    }

    fn prepare(&mut self, name: &Octets, octets: &Octets) -> Result<(), Hindrance> {
        match SourceStore::prepare(self, name, octets) {
            Prepared::Ready => Ok(()),
            Prepared::Later => Err(self.hindrance().unwrap_or(Hindrance::NoMemory)),
        }
    }

    fn place(&self) -> &str {
        self.store.stored_as()
    }

    fn reason(&self) -> &'static str {
        self.store.reason()
    }
}
