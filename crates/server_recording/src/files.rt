//! What the server's threads do with files.
use cfdp_types::TxnKey;
use disk::SystemDisk;
use entity_workers::Filestore;
use program_desk::Desk;
use program_recorder::{Keeper, Recording};
use program_start::RuntimeFiles;
use program_storing::{Depot, StationFiles, Storer, run_storer};
use shared_entity::Entity;
use shared_lanes::Names;
use station_config::StoreSettings;
use station_store::{Clash, Layout, SourceStore, StationStore};
use std::alloc::Global;
use std::io;
use std::rt::Files;
use std::sync::Wait;
use std::time::Clock;

/// The files of a server. Threads other than the main one use it.
pub trait ServerFiles {
    /// Stores received files until the depot is closed.
    fn store<N: Names, R: Wait + Clock + Copy>(&self, storing: FolderStoring<'_, N, R>);

    /// Keeps a transaction's recording, as [`Keeper::keep`] does.
    fn keep(&self, keeper: &mut Keeper, key: TxnKey, recording: &Recording) -> io::Result<()>;
}

/// What the thread that stores received files begins with.
#[derive(Drop)]
pub struct FolderStoring<'x, N: Names, R: Copy> {
    pub rt: &'x R,
    pub alloc: Global,
    pub entity: &'x Entity<N, R>,
    pub desk: &'x Desk,
    pub depot: &'x Depot,
    /// The path of the folder, as the station's file says it.
    pub folder: String,
    pub settings: &'x StoreSettings,
}

impl<Q: Files + AllocGlobal + Copy + Drop> ServerFiles for RuntimeFiles<Q> {
    fn store<N: Names, R: Wait + Clock + Copy>(&self, storing: FolderStoring<'_, N, R>) {
        let FolderStoring {
            rt,
            alloc,
            entity,
            desk,
            depot,
            folder,
            settings,
        } = storing;
        let disk = SystemDisk::new(*self.runtime(), folder);
        let (layout, clash) = (layout_of(settings), clash_of(settings));
        if settings.by_source {
            let store = SourceStore::new(disk, alloc, layout, clash);
            run_with(Storer::new(rt, alloc, entity, desk, depot, store), settings);
        } else {
            let store = StationStore::new(disk, alloc, layout, clash);
            run_with(Storer::new(rt, alloc, entity, desk, depot, store), settings);
        }
    }

    fn keep(&self, keeper: &mut Keeper, key: TxnKey, recording: &Recording) -> io::Result<()> {
        keeper.keep(self.runtime(), key, recording)
    }
}

// Stores received files as the settings say.
fn run_with<N: Names, R: Wait + Clock + Copy, S: Filestore + StationFiles + Drop>(
    mut storer: Storer<'_, N, R, S>,
    settings: &StoreSettings,
) {
    storer.try_for(settings.retry_s.saturating_mul(1_000));
    if settings.tree || settings.keeps || settings.by_source {
        storer.show_places();
    }
    run_storer(storer);
}

// Whether files lie in folders below the store's.
fn layout_of(settings: &StoreSettings) -> Layout {
    if settings.tree {
        Layout::Tree
    } else {
        Layout::Flat
    }
}

// What becomes of an existing file that has a received file's name.
fn clash_of(settings: &StoreSettings) -> Clash {
    if settings.keeps {
        Clash::Keep
    } else {
        Clash::Replace
    }
}
