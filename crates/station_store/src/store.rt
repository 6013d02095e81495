ghost use Rattle.std.specs.Prelude.{◌≡◌, ◌<◌, [], None, Some, string_bytes};
ghost use Rattle.std.specs.Option.{option_map};
ghost use Rattle.station_store.specs.Sources.{forgotten, refused};
ghost use Rattle.station_store.specs.Stations.{ready_place, Prepares};

use crate::keeping::{FileToKeep, keep_at};
use crate::names::path_of;
use crate::prepared::Prepared;
use crate::settings::{Clash, Layout};
use cfdp_types::Octets;
use disk::{Disk, Fault, Hindrance};
use file_stores::{Filestore, StoreFault};
use std::alloc::Global;
use std::marker::Model;

/// A store that keeps files in the folder of a disk, or in folders below it, and replaces or keeps existing files. A
/// file is written to a part next to its place, flushed, and named once it is complete, so that no incomplete file is
/// seen under its name. Then its folder is flushed; only after that does it count as kept.
///
/// A file may be prepared before it is deposited, any number of times: a fault that may pass then costs no deposit.
#[derive(Drop)]
pub struct StationStore<D: Disk + Drop> {
    disk: D,
    alloc: Global,
    layout: Layout,
    clash: Clash,
    next_part: u64,
    calls: u64,
    failures: u64,
    stored_as: String,
    fault: Option<Fault>,
    is_short: bool,
    ready: Option<TriedFile>,
}

// A file that was tried before its deposit, and where it was kept, if it can be kept.
#[derive(Drop)]
struct TriedFile {
    name: Octets,
    octets: Octets,
    place: Option<String>,
}

impl Model for TriedFile {
    ghost use Rattle.std.specs.Prelude.{string_bytes};
    ghost use Rattle.std.specs.Option.{option_map};
    ghost use Rattle.station_store.specs.Stations.{ReadyFile};

    ghost Value = { ReadyFile };

    ghost view = { λ s. record { name = s.name; octets = s.octets; place = option_map string_bytes s.place } };
}

impl<D: Disk + Drop> Model for StationStore<D> {
    ghost use Rattle.std.specs.Prelude.{◌≤◌, string_bytes};
    ghost use Rattle.disk.specs.Promise.{IsReached};
    ghost use Rattle.station_store.specs.Stations.{StationValue, IsReadyFor};

    ghost Value = { StationValue };

    ghost view = { λ s. record { layout = s.layout; clash = s.clash; done = D.done s.disk; calls = s.calls; failures = s.failures; stored_as = string_bytes s.stored_as; fault = s.fault; ready = s.ready } };

    ghost invariant = { λ s. (s.failures ≤ s.calls) × IsReached (D.done s.disk) (string_bytes s.stored_as) × IsReadyFor s.layout s.clash (D.done s.disk) s.ready };
}

impl<D: Disk + Drop> StationStore<D> {
    /// A store in the folder of a disk, which must exist when a file is deposited.
    pub fn new(disk: D, alloc: Global, layout: Layout, clash: Clash) -> StationStore<D>
        ensures { result ≡ record { layout = layout; clash = clash; done = D.done disk; calls = 0; failures = 0; stored_as = []; fault = None; ready = None } }
    {
        StationStore {
            disk,
            alloc,
            layout,
            clash,
            next_part: 0,
            calls: 0,
            failures: 0,
            stored_as: String::new(alloc),
            fault: None,
            is_short: false,
            ready: None,
        }
    }

    /// The path, below the folder, of the last file whose deposit succeeded; empty before the first.
    pub fn stored_as(&self) -> &str
        ensures { result.now ≡ self.now.stored_as }
    {
        self.stored_as.as_str()
    }

    /// Why the file that was prepared or deposited last isn't kept; `None` if it is, or has a bad name.
    pub fn fault(&self) -> Option<Fault>
        ensures { result ≡ self.now.fault }
    {
        self.fault
    }

    /// What hindered the store last, if anything did: `NoMemory` if there was no memory for the name or the copies of
    /// the file that was prepared last, otherwise what hindered the disk.
    pub fn hindrance(&self) -> Option<Hindrance> {
        if self.is_short {
            Some(Hindrance::NoMemory)
        } else {
            self.disk.hindrance()
        }
    }

    /// Why the file that was prepared or deposited last isn't kept, in words.
    pub fn reason(&self) -> &'static str {
        match self.fault {
            None => "its name can't be that of a file here; a slash needs the layout tree",
            Some(Fault::Exists) => "no name is free for it",
            Some(Fault::Failed) =>
                "a folder is in its place, or a file in that of its folder, or the system refuses it",
            Some(Fault::MayPass) => match self.hindrance() {
                Some(why) => why.words(),
                None => "the system refuses it for now",
            },
        }
    }

    /// Forgets the ready file, because another file isn't tried. A fault means that memory ran out.
    pub(crate) fn forget(&mut self, fault: Option<Fault>)
        ensures { self.new ≡ forgotten fault self.old }
    {
        self.ready = None;
        self.is_short = fault.is_some();
        self.fault = fault;
    }

    /// Counts a deposit that fails before there is a name for it.
    pub(crate) fn refuse(&mut self)
        requires { self.old.calls < u64.MAX }
        ensures { self.new ≡ refused self.old }
    {
        self.forget(None);
        self.calls += 1;
        self.failures += 1;
    }

    /// Tries to keep a file, without counting a deposit. After `Ready` the next deposit is answered at once, if it has
    /// the same name and the same octets; a file that was ready before is forgotten, but stays in the folder. After
    /// `Later` the file may be prepared again, and a deposit tries once more itself.
    pub fn prepare(&mut self, name: &Octets, octets: &Octets) -> Prepared
        ensures tried { Prepares self.old name.now octets.now result self.new }
        ensures same { self.new ≡ record self.old { done = self.new.done; fault = self.new.fault; ready = self.new.ready } }
    {
        self.ready = None;
        self.fault = None;
        self.is_short = false;
        let Some(path) = path_of(self.layout, name.as_slice()) else {
            return Prepared::Ready;
        };
        let (Ok(tried_name), Ok(tried_octets)) = (name.copy(), octets.copy()) else {
            self.is_short = true;
            self.fault = Some(Fault::MayPass);
            return Prepared::Later;
        };
        let file = FileToKeep {
            path,
            octets: octets.as_slice(),
        };
        match keep_at(
            &mut self.disk,
            self.alloc,
            self.clash,
            self.stored_as.as_str(),
            &file,
            &mut self.next_part,
        ) {
            Ok(place) => {
                self.ready = Some(TriedFile {
                    name: tried_name,
                    octets: tried_octets,
                    place: Some(place),
                });
                Prepared::Ready
            }
            Err(Fault::MayPass) => {
                self.fault = Some(Fault::MayPass);
                Prepared::Later
            }
            Err(fault) => {
                self.fault = Some(fault);
                self.ready = Some(TriedFile {
                    name: tried_name,
                    octets: tried_octets,
                    place: None,
                });
                Prepared::Ready
            }
        }
    }
}

impl<D: Disk + Drop> Filestore for StationStore<D> {
    ghost use Rattle.station_store.specs.Stations.{StationDeposits};

    ghost tried = { λ store. store.calls };

    ghost failed = { λ store. store.failures };

    ghost deposits = { StationDeposits };

    fn deposit(&mut self, name: &[u8], octets: &[u8]) -> Result<(), StoreFault> {
        self.calls += 1;
        self.is_short = false;
        match ready_place(self.ready.take(), name, octets) {
            Some(Some(place)) => {
                self.fault = None;
                self.stored_as = place;
                return Ok(());
            }
            Some(None) => {
                self.failures += 1;
                return Err(StoreFault::Failed);
            }
            None => {}
        }
        self.fault = None;
        let Some(path) = path_of(self.layout, name) else {
            self.failures += 1;
            return Err(StoreFault::BadName);
        };
        let file = FileToKeep { path, octets };
        match keep_at(
            &mut self.disk,
            self.alloc,
            self.clash,
            self.stored_as.as_str(),
            &file,
            &mut self.next_part,
        ) {
            Ok(place) => {
                self.stored_as = place;
                Ok(())
            }
            Err(fault) => {
                self.failures += 1;
                self.fault = Some(fault);
                Err(StoreFault::Failed)
            }
        }
    }

    fn calls(&self) -> u64 {
        self.calls
    }

    fn failures(&self) -> u64 {
        self.failures
    }
}

// The path of the ready file, if it has this name and these octets; `Some(None)` if that file can't be kept.
fn ready_place(ready: Option<TriedFile>, name: &[u8], octets: &[u8]) -> Option<Option<String>>
    ensures { option_map (option_map string_bytes) result ≡ ready_place ready name.now octets.now }
{
    let file = ready?;
    if file.name.as_slice() == name && file.octets.as_slice() == octets {
        Some(file.place)
    } else {
        None
    }
}
