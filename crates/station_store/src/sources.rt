//! A store with a folder for each source.
ghost use Rattle.std.specs.Prelude.{◌≡◌, [], IfOk, None, string_bytes};
ghost use Rattle.station_store.specs.Sources.{SourceDeposits, SourcePrepares, name_from};

use crate::names::path_of;
use crate::prepared::Prepared;
use crate::settings::{Clash, Layout};
use crate::store::StationStore;
use cfdp_types::{EntityId, Octets};
use disk::{Disk, Fault, Hindrance};
use file_stores::{Filestore, StoreFault};
use std::alloc::{AllocError, Global};

/// A store that keeps the files of each source in a folder named by the source's ID, as a plain store would in that
/// folder. The caller says whose files come next.
#[derive(Drop)]
pub struct SourceStore<D: Disk + Drop> {
    /// The plain store. Each name that it gets begins with a source's folder.
    pub store: StationStore<D>,
    /// Which names are valid in a source's folder.
    pub layout: Layout,
    /// Whose files come next.
    pub source: EntityId,
    pub alloc: Global,
}

impl<D: Disk + Drop> SourceStore<D> {
    /// A store in the folder of a disk, which must exist when a file is deposited.
    pub fn new(disk: D, alloc: Global, layout: Layout, clash: Clash) -> SourceStore<D>
        ensures layout { result.layout ≡ layout }
        ensures store { result.store ≡ record { layout = Layout.Tree; clash = clash; done = D.done disk; calls = 0; failures = 0; stored_as = []; fault = None; ready = None } }
    {
        SourceStore {
            store: StationStore::new(disk, alloc, Layout::Tree, clash),
            layout,
            source: EntityId(0),
            alloc,
        }
    }

    /// Sets the source of the files that come next.
    pub fn enter(&mut self, source: EntityId)
        ensures { self.new ≡ record self.old { source = source } }
    {
        self.source = source;
    }

    /// Tries to keep a file in its source's folder, as [`StationStore::prepare`] does.
    pub fn prepare(&mut self, name: &Octets, octets: &Octets) -> Prepared
        ensures tried { SourcePrepares self.old.layout self.old.source self.old.store name.now octets.now result self.new.store }
        ensures same { self.new ≡ record self.old { store = self.new.store } }
    {
        let Some(path) = path_of(self.layout, name.as_slice()) else {
            self.store.forget(None);
            return Prepared::Ready;
        };
        match octets_from(self.alloc, self.source, path) {
            Ok(asked) => self.store.prepare(&asked, octets),
            Err(AllocError) => {
                self.store.forget(Some(Fault::MayPass));
                Prepared::Later
            }
        }
    }

    /// What hindered the store last, if anything did.
    pub fn hindrance(&self) -> Option<Hindrance> {
        self.store.hindrance()
    }

    /// Why the file that was prepared or deposited last isn't kept, as [`StationStore::fault`] says; `None` also where
    /// a deposit found no memory for the file's name.
    pub fn fault(&self) -> Option<Fault>
        ensures { result ≡ self.now.store.fault }
    {
        self.store.fault()
    }
}

// The name of a file in the folder of its source.
fn name_from(alloc: Global, source: EntityId, path: &str) -> Result<String, AllocError>
    ensures { IfOk result (λ name. string_bytes name ≡ name_from source path.now) }
{
    format!(in alloc; "{}/{path}", source.0)
}

// The same name, in octets.
fn octets_from(alloc: Global, source: EntityId, path: &str) -> Result<Octets, AllocError>
    ensures { IfOk result (λ name. name ≡ name_from source path.now) }
{
    let name = name_from(alloc, source, path)?;
    Octets::from_slice(alloc, name.as_bytes())
}

impl<D: Disk + Drop> Filestore for SourceStore<D> {
    ghost use Rattle.station_store.specs.Sources.{SourceDeposits};

    ghost tried = { λ s. s.store.calls };

    ghost failed = { λ s. s.store.failures };

    ghost deposits = { λ before name octets result after. SourceDeposits before.layout before.source before.store name octets result after.store };

    fn deposit(&mut self, name: &[u8], octets: &[u8]) -> Result<(), StoreFault> {
        let Some(path) = path_of(self.layout, name) else {
            self.store.refuse();
            return Err(StoreFault::BadName);
        };
        match name_from(self.alloc, self.source, path) {
            Ok(asked) => self.store.deposit(asked.as_bytes(), octets),
            Err(AllocError) => {
                self.store.refuse();
                Err(StoreFault::Failed)
            }
        }
    }

    fn calls(&self) -> u64 {
        self.store.calls()
    }

    fn failures(&self) -> u64 {
        self.store.failures()
    }
}
